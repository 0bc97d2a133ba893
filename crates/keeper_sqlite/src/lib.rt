//! A keeper of tables in a database of SQLite, in memory or in a file. It tells no tables; what it answers is SQLite's.
#![tactic(auto)]

mod acting;
mod keeper;

pub use keeper::SqliteKeeper;
