//! The main select of a query for objects, with the sources and columns of its joined options.
#![tactic(auto)]

mod options;
mod queries;
mod shifted;

pub use options::option_columns;
pub use queries::{main_select, relation_at};
