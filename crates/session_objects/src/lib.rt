//! The calls that make objects, set their values, and bring them into a session or take them out of it, over any keeper. Values are
//! judged by the validators of their classes; discriminators no line sets.
#![tactic(auto)]

mod adding;
mod coming;
mod conflicts;
mod joining;
mod judging;
mod leaving;
mod setting;
mod taking;

pub use adding::add;
pub use coming::{coming_objects, is_inside};
pub use conflicts::conflict_fault;
pub use joining::take_all;
pub use leaving::expunge;
pub use setting::{make_valid, set_valid};
