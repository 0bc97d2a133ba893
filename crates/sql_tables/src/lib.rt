//! The texts that make tables and drop them, in three dialects of SQL.
#![tactic(auto)]

mod tables;

pub use tables::{alter, ddl, drop_text};
