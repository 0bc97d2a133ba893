//! What a row of a query's main select has of the query's class and of each joined option, and the objects of such rows.
#![tactic(auto)]

mod members;
mod parting;
mod parts;
mod rows;
mod taking;

pub use parts::{Part, parts_of};
pub use rows::rows_have_parts;
pub use taking::take_joined;
