//! What is sent to a database of SQLite for each call of a keeper, and what its answers come to.
#![tactic(auto)]

pub mod bulks;
pub mod rows;
pub mod selects;
mod sending;
