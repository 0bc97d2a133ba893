//! Names of selects and bulk statements: numbers of tables, sources and columns in their place, or the first name that
//! stands for nothing.
#![tactic(auto)]

mod bulk;
mod select;

pub use bulk::name_bulk;
pub use select::name_select;
