//! What a command did, in the order of its happening.

use crate::sent::Sent;
use base_core::{ListOf, ObjId, Warning};

/// A statement sent, a warning, or an object of which a load made or filled something.
#[derive(Drop)]
pub enum Note {
    Sent(Sent),
    Warn(Warning),
    /// Stands also where the load was then refused.
    Filled(ObjId),
}

/// The notes of a command.
pub type Notes = ListOf<Note>;
