//! The value of an expression at a row.
#![tactic(auto)]

mod evaluate;
mod scope;
mod tried;

pub use evaluate::{eval, value_in};
pub use query_steps::{below, is_null, joined, passes, same};
pub use scope::{Scope, TableRows, more_starts};
