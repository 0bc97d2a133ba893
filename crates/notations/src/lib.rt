//! Values and tables as the words of a small notation, in which the tests write what they play, and the answers to its lines.
#![tactic(auto)]

mod lines;
mod page;
mod tables;
mod words;

pub use lines::{Plays, play_all};
pub use page::Page;
pub use words::{number, parted};
