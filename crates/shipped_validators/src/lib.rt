//! The validators that the program ships: they are lent, under their names, to what is done with them over a keeper.
#![tactic(auto)]

mod lent;

pub use lent::{WithValidators, with_shipped};
