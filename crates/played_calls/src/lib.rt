//! Lines of calls (`keeper_calls`) played on keepers in memory, and on keepers over SQLite.
#![tactic(auto)]

mod in_memory;
mod over_sqlite;

pub use in_memory::play_in_memory;
pub use over_sqlite::play_over_sqlite;
