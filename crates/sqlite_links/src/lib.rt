//! Databases of SQLite that are in memory or in a file, and what is done over them by those that name none.
#![tactic(auto)]

mod link;
mod over;

pub use link::Link;
pub use over::{OverDatabases, over_sqlite};
