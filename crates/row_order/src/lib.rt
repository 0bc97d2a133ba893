//! The order of rows of which some wait for others, or a cycle of those that are left.
#![tactic(auto)]

mod lists;
mod places;
mod search;
mod waiting;

pub use lists::{order_of_lists, order_or_cycle};
pub use places::{Ordered, Waits};
pub use search::Rows;
pub use waiting::waiting_of;
