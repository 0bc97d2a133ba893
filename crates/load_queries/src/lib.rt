//! The reading of the objects of a query over any keeper, with its joined options, of one link of several objects together, whatever
//! its kind, and of the links that a query names: each is one program of the store and of the objects and notes beside it.
#![tactic(auto)]

mod filling;
mod given;
mod joined;
mod joined_owners;
mod kinds;
mod options;
mod owners;
mod queries;

pub use joined::load_joined;
pub use kinds::{load_selectin, load_together};
pub use options::{load_objects, load_options, load_query};
pub use owners::is_owner;
pub use queries::load_select;
