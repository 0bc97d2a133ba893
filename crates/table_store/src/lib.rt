//! What a keeper's statements do to tables in memory with their scopes, without its faults, counts and log.
#![tactic(auto)]

mod bulk;
mod refusals;
mod statements;
mod wanted;

pub use statements::{query, rows, write, write_bulk};
pub use wanted::index_select;
