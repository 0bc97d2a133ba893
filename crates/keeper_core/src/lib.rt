//! The store's interface: what acts on tables as a value, which is programs with their events and the one relation between a call and
//! its program; what a keeper of tables does, what is seen of it, and the calls by which the layers above use it.
#![tactic(auto)]

pub mod calls;
mod keeper;
mod notes;
mod sent;
mod target;

pub use keeper::{Keeper, KeeperStop, QueryRefusal, WriteRefusal};
pub use notes::{Note, Notes};
pub use sent::Sent;
pub use target::Target;
