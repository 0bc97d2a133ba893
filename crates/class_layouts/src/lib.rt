//! The hierarchies of the declared classes, what tables and attributes they have, and why a class's block is refused.
#![tactic(auto)]

mod classes;
mod columns;
mod faults;
mod layout;
mod lookup;

pub use class_blocks::{
    cascade_or_default, columns_of, has_class, maps_name, named_table, table_at,
};
pub use classes::{Classes, declare};
pub use columns::{foreigns_of, lives_in, own_table, root_table_on, tables_on};
pub use faults::{column_of, discriminator_is, repeats};
pub use layout::{Layout, layouts_of, number_of};
pub use lookup::{is_shown, is_table, line_of, owner_of, place_named, place_of, root_in};
