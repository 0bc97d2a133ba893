//! Relationships: what becomes of the links on both sides where one of them changes.
#![tactic(auto)]

mod calls;
mod change;
mod keys;
mod mirror;
mod parents;

pub use calls::{LinkCall, append, is_unloaded, link_change, remove, set_one};
pub use change::{Change, LinkPut, put_link, put_orphan};
pub use parents::{OldParent, old_parent};
