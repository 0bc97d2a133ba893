//! Names of expressions: the sources in scope, and numbers of tables, sources and columns in the place of their names, or the
//! first name that stands for nothing.
#![tactic(auto)]

mod faults;
mod naming;
mod scope;

pub use faults::pair;
pub use naming::{expression_named, expressions_named, named_if_given, origin_named, pairs_named};
pub use scope::{Scope, enter, find_column, table_named, unknown};
