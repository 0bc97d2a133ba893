//! The reading of the collections of several owners over any keeper, with a secondary table and without, by one select for each 500
//! keys.
#![tactic(auto)]

mod batches;
mod cuts;
mod filling;
mod groups;
mod members;
mod owners;

pub use batches::load_members;
pub use cuts::batch_at;
pub use members::Member;
pub use owners::{Owner, is_unloaded};
