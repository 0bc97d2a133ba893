//! The selects by which loads read the members of collections: of one owner, and of many owners at once; and laws of the selects by
//! which loads read objects and members, and of their rows: they are of the classes that were selected.
#![tactic(auto)]

mod classes;
mod collections;
mod members;
mod pair_laws;
mod row_laws;

pub use classes::{cells_selects_are_plain, key_selects_are_plain, targets_selects_are_plain};
pub use collections::{batch_select, members_select};
pub use members::{batch_selects_are_plain, members_selects_are_plain};
pub use pair_laws::{all_batches_are_plain, rows_are_of_members};
pub use row_laws::{cells_are_of_kinds, rows_are_of_classes};
