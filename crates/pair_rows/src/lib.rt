//! What the collections of a prepared graph write: the rows of pairs that they make and take away.
#![tactic(auto)]

mod members;
mod pairs;
mod rows;
mod standing;

pub use members::{members_added, members_removed};
pub use rows::{push_lost_rows, push_made_rows};
pub use standing::{is_leaving, link_or};
