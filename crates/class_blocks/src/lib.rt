//! What the blocks of classes say by themselves: names, flags, identities, validators, which relationships name each other, and
//! why a root class without lines is refused.
#![tactic(auto)]

mod blocks;
mod lines;
mod names;
mod plain;
mod side;
mod side_names;
mod tables;
mod validators;

pub use blocks::{cascade_or_default, is_declared, is_named, maps_name, shares_identity};
pub use lines::{has_class, is_above};
pub use names::{allows, has_name};
pub use plain::{early_fault, is_plain_root};
pub use side::{Ends, Side, TableKey, is_class, names_each_other};
pub use side_names::{is_own, makes_back, names_on};
pub use tables::{columns_of, named_table, table_at};
pub use validators::all_validators;
