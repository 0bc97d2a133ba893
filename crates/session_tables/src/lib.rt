//! The tables of a session's mapping, all of them made, dropped, or read with their rows, over any keeper.
#![tactic(auto)]

mod scanning;
mod tables;

pub use scanning::{Filled, scan_tables};
pub use tables::{TableChange, create_all, drop_all};
