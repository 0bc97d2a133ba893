//! Laws of selects: their normal form and the order of their rows. Each is the contract of a function that does nothing, so there is no body
//! that could be turned into a wrong one.
#![tactic(auto)]

mod normal;
mod order;
mod plain;

pub use normal::{same_in_every_group, same_in_every_row, same_in_one_group, same_without_rows};
pub use order::one_order;
pub use plain::{apart_in_normal_form, plain_in_normal_form, same_answer};
