//! The selects by which loads read the rows of a class, all of them or those under keys. Each is made from the mapping, for classes
//! of every form.
#![tactic(auto)]

mod branches;
mod selects;
mod sources;

pub use branches::is_of_branch;
pub use selects::{
    ItemList, class_rows, class_select, key_select, push_items, select_of, targets_select,
};
pub use sources::{
    Further, leading_table, led_from, other_tables, push_other_tables, referred_place, refers,
    related_sources, target_placement,
};
