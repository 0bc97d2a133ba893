//! Reads the expressions of the script from tokens.
#![tactic(auto)]

mod forms;
mod grammar;

pub use grammar::whole;
