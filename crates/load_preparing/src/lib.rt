//! What is read before objects are deleted: all that a flush is to know of the objects that go, as one load.
#![tactic(auto)]

mod cells;
mod links;
mod reading;

pub use reading::read_going;
