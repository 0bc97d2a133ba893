//! The reading of the many-to-one links of several owners over any keeper, by one select for each 500 keys that the identity map
//! lacks.
#![tactic(auto)]

mod filling;
mod keys;
mod owners;
mod reading;

pub use reading::load_ends;
