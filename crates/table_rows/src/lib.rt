//! Created tables with their rows in ordered maps, and the indexes on them; tables that are lent to be asked, and rows that are gone
//! through one after another, where no row is copied.
#![tactic(auto)]

mod lent;
mod rows;
mod table;
mod tables;
mod walk;

pub use lent::LentTables;
pub use rows::TableRows;
pub use table::IndexedRows;
pub use tables::TableMap;
pub use walk::{EntryWalk, RowWalk, copies};
