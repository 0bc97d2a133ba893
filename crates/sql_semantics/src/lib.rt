//! What statements mean: the kinds and values of expressions, the rows of a select, and what a bulk statement does to the tables.
//! Definitions alone, with the types that they speak of; the evaluators are proved against them, and keepers cite them.
#![tactic(auto)]

mod basis;
mod sort_key;

pub use basis::Basis;
pub use sort_key::SortKey;
