//! The scopes of a session: where every object stood at the start of each, and how it goes back there.
#![tactic(auto)]

mod frames;
mod restoring;
mod scope;
mod traces;

pub use frames::{Frames, has_gone};
pub use scope::{Scope, Standing};
pub use traces::Trace;
