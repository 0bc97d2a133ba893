//! What each phase of a flush writes by itself: INSERTs in runs, the UPDATEs of changed rows, the cells that are written once all rows
//! stand, DELETEs; and the names of rows that a cycle has.
#![tactic(auto)]

mod changed;
mod deletes;
mod names;
mod runs;
mod writings;

pub use changed::updates;
pub use deletes::removes;
pub use names::{gone_names, new_names};
pub use runs::inserts;
pub use writings::{
    Cells, Place, Writing, cells_when, gone_key, late_gone, place_of_gone, push_late, update_of,
};
