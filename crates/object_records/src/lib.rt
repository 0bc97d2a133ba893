//! Records of objects: whether two differ, the touching of objects whose records come to differ, and other records that are put in
//! for them; their cells and links, kept and given back.
#![tactic(auto)]

mod kept;
mod puts;
mod records;
mod same;
mod states;
mod touched;
mod touches;

pub use kept::{Held, KeptObjects, give_back, kept_objects};
pub use records::put_records;
pub use same::{same_cell, same_object};
pub use touched::{touch_for_link, touch_for_mark, touch_for_orphan, touch_for_value, touch_if};
