//! The texts of statements in three dialects of SQL, with their parameters; and the texts of statements and of tables in each dialect.
#![tactic(auto)]

mod bulks;
pub mod mysql;
pub mod postgresql;
mod selects;
pub mod sqlite;
mod texts;

pub use texts::{compiled, has_cuts};
