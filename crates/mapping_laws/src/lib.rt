//! Laws of the classes of a configured mapping: their tables, their keys, and what tells the classes of a hierarchy apart.
#![tactic(auto)]

mod hierarchies;
mod keys;

pub use hierarchies::{classes_have_tables, discriminators_tell_apart};
pub use keys::keys_are_of_roots;
