//! The rows of a select.
#![tactic(auto)]

mod basis;
mod group;
mod having;
mod output;
mod rows;

pub use rows::{rows_from, rows_of};
pub use select_sources::{Frame, created, named};
