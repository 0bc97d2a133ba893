//! Databases of SQLite, in memory and in files, to which texts of SQL are sent with the values of their marks.
#![tactic(auto)]

mod connections;
mod database;
mod ending;
mod new_files;
mod values;

pub use connections::Opens;
pub use database::Database;
pub use ending::Ending;
