//! The tokens of a line of the script, with their places.
#![tactic(auto)]

mod content;
mod kind;
mod lex;
mod shape;
mod token;

pub use kind::Kind;
pub use lex::{same_kind, skipped, tokens};
pub use token::{Content, Token};
