//! The relationships of the declared classes: the keys that serve them, their partners, and the relationships that each
//! class has.
#![tactic(auto)]

mod candidates;
mod ends;
mod keys;
mod linking;
mod pairs;
mod partners;
mod side;

pub use class_blocks::{Side, TableKey, has_name};
pub use keys::{is_tied, names_of};
pub use linking::relations_by;
pub use pairs::{has_two_joins, is_plain, join_of, lacks_join, some_overlap};
pub use partners::{differs, many_cascade};
pub use side::sides_of;
