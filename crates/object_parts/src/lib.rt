//! What loads, flushes and changes make of single cells, links and objects, whatever their classes: what is known, changed and kept
//! of a cell or a link, and which validators take a value; what a link becomes where an object leaves it or joins it, and to which objects it leads; the members of a
//! collection that was read; which objects are asked for, found and answered, each once and in their order; the expiry of an object.
#![tactic(auto)]

mod answers;
mod cells;
mod ends;
mod expiring;
mod keys;
mod links;
mod lists;
mod members;
mod sides;
mod validators;

pub use answers::{Taken, answered};
pub use cells::{is_base, is_of_kept_key};
pub use ends::add_ends;
pub use expiring::expire_if;
pub use keys::enter_under;
pub use links::{changed_end, is_unloaded, kept_link};
pub use lists::{batch_starts, firsts};
pub use members::linked;
pub use sides::{is_among, joined, left};
pub use validators::first_refusing;
