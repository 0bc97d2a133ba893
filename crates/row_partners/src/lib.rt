//! Which new rows of a flush are switched with which deleted ones: a key passes from the one to the other.
#![tactic(auto)]

mod pairing;

pub use pairing::partners;
