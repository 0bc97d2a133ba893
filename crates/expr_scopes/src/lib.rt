//! What is asked of an expression in the scope that it stands in: that its columns are there, that each name around it is one
//! source's, that its lists are full, and that aggregates and columns stand where groups let them.
#![tactic(auto)]

mod column;
mod fitting;
mod grouping;
mod naming;
mod sameness;

pub use column::{column_in, is_for, is_free_column, is_known};
pub use fitting::fits;
pub use grouping::{Grouping, has_full_lists, settled};
pub use naming::{are_distinct, name_of, names_apart, table_name};
pub use sameness::same;
