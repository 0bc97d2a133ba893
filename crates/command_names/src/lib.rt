//! What the names of a line stand for: classes with their attributes and relationships, objects and savepoints; and the values
//! that a line gives a new object.
#![tactic(auto)]

mod attributes;
mod cells;
mod members;
mod terms;

pub use attributes::value_fault;
pub use cells::{Cells, cells_of};
pub use members::{Member, class_named, link_named, member_named};
pub use terms::{handle_if_named, object_of, shown_of, wrong_kind};
