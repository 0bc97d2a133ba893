//! The session's calls that write no row, over any keeper: each is one program of the store and of the session beside it.
#![tactic(auto)]

mod objects;
mod scopes;
mod store;

pub use objects::{delete, set_cell, value_fault};
pub use scopes::{close, enter, rollback, rollback_handle};
pub use store::roll_back;
