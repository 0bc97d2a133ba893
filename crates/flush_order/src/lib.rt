//! The order in which a flush sends new and deleted rows.
#![tactic(auto)]

mod blockers;
mod cells;
mod index;
mod ready;
mod refers;
mod sorted;

pub use cells::{is_late, push_cleared};
pub use ready::{push_key, ready_rows};
pub use refers::{GoneRows, NewRows, ReadyGone, ReadyRow};
pub use sorted::sorted_numbers;
