//! The words after the program's name: `[--dialect D] [--echo] [--store FILE]`.
#![tactic(auto)]

mod command;
mod options;

pub use options::{Options, WordsRefusal, read_words};
