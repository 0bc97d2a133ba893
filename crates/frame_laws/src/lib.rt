//! Laws of the scopes of a session by copies: a scope that keeps where every object stood, what a load made since with its identity, and
//! what was touched inside, and the scopes that `savepoints` keeps by one trace for each object, are the same. Each is the contract of
//! a function that does nothing, so there is no body that could be turned into a wrong one.

mod same;

pub use same::scopes_are_copies;
