//! Reads lines of the script.
#![tactic(auto)]

mod bindings;
mod line;
mod terms;
mod top;

pub use line::read_line;
