//! Where the objects of a prepared graph stand, the names of their new rows, and what their cells change.
#![tactic(auto)]

mod changes;
mod late;
mod names;
mod places;
mod prepared;
mod sets;
mod standing;

pub use changes::{linked_change, own_change};
pub use late::late_keys;
pub use names::{kept_objects, new_names, object_ids};
pub use places::RowNames;
pub use prepared::Prepared;
pub use sets::{LinkIndex, ObjIndex, numbers_of};
pub use standing::{
    end_put, identity_value, is_cleared, is_in_session, is_kept_end, is_new, keeps_rows, key_value,
    part_of_key,
};
