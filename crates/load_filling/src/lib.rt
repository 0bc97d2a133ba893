//! What rows that a load read make of the objects: a row finds the object of its key, or makes one of the class that it names, and
//! the object's expired cells hold what was found of them. The select by which these are read again stands here too.
#![tactic(auto)]

mod cells;
mod loaded;
mod rows;
mod selects;

pub use cells::fill;
pub use loaded::load_object;
pub use rows::{class_named, row_key, row_object};
pub use selects::cells_select;
