//! Objects: their states, identities, cells and links, and the identity map, which leads from a root class and a key to an object.
#![tactic(auto)]

mod arena;
mod identities;
mod index;
mod object;
mod parts;

pub use arena::Arena;
pub use identities::{IdentityMap, Keyed};
pub use object::{Cell, CellRead, Link, Object, State};
