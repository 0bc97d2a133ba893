//! Cascades: the objects to which a session's call goes on along relationships.
#![tactic(auto)]

mod closures;
mod marks;
mod walk;

pub use closures::{Flag, delete_closure, expire_closure, expunge_closure, reached, save_closure};
