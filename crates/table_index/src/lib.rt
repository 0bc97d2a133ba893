//! Rows found by the values in some of their columns.
#![tactic(auto)]

mod columns;
mod index;
mod indexes;

pub use columns::{cells_at, column_places};
pub use index::ValueIndex;
pub use indexes::Indexes;
