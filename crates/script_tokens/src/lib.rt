//! A cursor over the tokens of a line, and what every form of the script is made of: names, literals, and lists of items.
#![tactic(auto)]

mod fault;
pub mod lists;
pub mod literals;
pub mod names;
mod tokens;

pub use fault::Fault;
pub use tokens::Tokens;
