//! The keeper of a program: in memory until it is given a file.
#![tactic(auto)]

mod acting;
mod over;
mod shelf;

pub use keeper_mem::OverKeepers;
pub use over::over_shelf;
pub use shelf::Shelf;
