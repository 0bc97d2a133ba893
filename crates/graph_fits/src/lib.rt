//! Whether keys, cells and links fit a mapping, for programs that make graphs of what they are told.
#![tactic(auto)]

mod fits;

pub use fits::{cell_fits, key_fits, link_fits};
