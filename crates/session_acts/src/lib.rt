//! The flush of a session over any keeper: what is pending, changed and marked is written, or the innermost scope is given up; and the
//! session's calls that flush: what is asked, the flush, and the act behind it, savepoints and the commit of the transaction among
//! these.
#![tactic(auto)]

mod asking;
mod ends;
mod flushing;
mod inner_scopes;
mod nesting;
mod preparing;
mod reading;
mod statements;
mod store;
mod transaction;
mod writing;

pub use asking::enter_nested;
pub use ends::{commit_whole, release_handle};
pub use flushing::flush;
pub use inner_scopes::{begin_savepoint, commit_transaction, release_many};
pub use nesting::{begin_nested, commit_handle};
pub use statements::{bulk, rows};
pub use transaction::{commit, flush_now};
