//! What the layers of the session share: what becomes of objects at the end of a transaction that is not rolled back, and how
//! deep in scopes the keeper beside a session stands.
#![tactic(auto)]

mod ends;

pub use ends::{commit_all, let_go, let_go_all, unmark};
