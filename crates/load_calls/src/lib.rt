//! Loads of objects and of collections over any keeper: each is one program of the store and of the objects and notes beside it.
#![tactic(auto)]

mod collections;
mod reading;
mod refreshing;
mod rows;

pub use collections::load_collection;
pub use reading::read;
pub use refreshing::{read_cells, refresh, take_cells};
pub use rows::take_rows;
