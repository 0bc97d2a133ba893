//! What rows that a load read make of the objects, noted: the object of a row is found or made, and its expired cells are filled; a
//! collection holds what was read in the order of keys, with the changes that were kept for it, and a many-to-one link leads to the
//! object that was found.
#![tactic(auto)]

mod collections;
mod ends;
mod filling;
mod members;
mod order;
mod taking;

pub use collections::{fill_collection, relation_at};
pub use ends::fill_end;
pub use filling::fill_noted;
pub use order::identity_key;
pub use taking::take_row;
