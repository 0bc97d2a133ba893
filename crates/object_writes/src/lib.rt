//! The rows that the objects of a prepared graph make, change and take away.
#![tactic(auto)]

mod cells;
mod changed;
mod columns;
mod fresh;
mod gone;

pub use cells::Projection;
pub use columns::{cell_for, columns_at};
pub use gone::gone_rows;
