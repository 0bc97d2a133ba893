//! The bytes of replies: what is told of a line's answer and of what it did, and why a line is refused, with the names that stand for
//! numbers there.
#![tactic(auto)]

mod answers;
mod naming;
mod notes;
mod reply;

pub use answers::reply_of;
pub use naming::{SessionNames, TableNames};
pub use notes::{PrintOptions, put_notes};
pub use reply::Reply;
