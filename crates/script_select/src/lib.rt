//! Reads the selects, queries and bulk statements of the script from tokens.
#![tactic(auto)]

pub mod bulk;
pub mod query;
pub mod select;
