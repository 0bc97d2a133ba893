//! What a script binds and declares: its names with what they stand for, and its blocks of lines.
#![tactic(auto)]

mod block;
mod names;

pub use block::{Block, Declared};
pub use names::{Bound, Names};
