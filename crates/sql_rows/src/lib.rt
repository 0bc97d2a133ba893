//! The texts of statements on rows and of the cut of a select: what no expression stands in.
#![tactic(auto)]

mod cuts;
mod rows;

pub use cuts::{cut, is_cut};
pub use rows::{default_word, row};
