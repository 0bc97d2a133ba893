//! The reading of many-to-one links over any keeper, and of any link, as programs of the store and of the objects and notes beside it.
#![tactic(auto)]

mod ends;
mod keys;
mod lazy;
mod targets;

pub use ends::{find_or_load, has_null, if_of, load_key};
pub use keys::{foreign_attrs, values_at};
pub use lazy::load_lazy;
pub use targets::{load_target, target_key};
