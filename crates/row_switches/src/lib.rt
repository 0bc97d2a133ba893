//! The rows of a flush that are switched: where a new row has the key of a deleted one, one changed row stands for both.
#![tactic(auto)]

mod cells;
mod changes;
mod staying;
mod switched;

pub use changes::switched_changes;
