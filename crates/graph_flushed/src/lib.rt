//! What success of a flush makes of the objects, and that what it writes fits their mapping.
#![tactic(auto)]

mod cells;
mod fitting_flushes;
mod holders;
mod keys;
mod links;
mod values;

pub use cells::{held_cell, is_kept, kept_cell, kept_cells};
pub use fitting_flushes::flushes_fit;
pub use holders::key_holders;
pub use keys::new_keys;
pub use links::{keeps_links, kept_links, prepared_links};
pub use values::{is_telling, known_value, part_or_null};
