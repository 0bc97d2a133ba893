//! Lines of a script before the session is asked: which are built, the blocks that they open, go on with and end, and what is to be
//! done.
#![tactic(auto)]

mod desk;
mod lines;

pub use desk::{Desk, Said};
