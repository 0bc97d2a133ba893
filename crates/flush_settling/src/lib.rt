//! The objects become what success of a flush makes of them.
#![tactic(auto)]

mod cells;
mod flushing;
mod objects;
mod settling;

pub use settling::settle;
