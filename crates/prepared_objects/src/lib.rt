//! The preparation of a flush: which objects are deleted, which are new no more, which links become none, and of which something is to
//! be read before.
#![tactic(auto)]

mod clearing;
mod deciding;
mod known;
mod leaving;

pub use deciding::prepared;
pub use known::{lacks_link, next_unread};
