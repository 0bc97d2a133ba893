//! The rows that a bulk statement takes, and what it makes of them.
#![tactic(auto)]

mod cells;
mod named;
mod taken;

pub use cells::inserted;
pub use named::all_created;
pub use taken::{deleted, updated};
