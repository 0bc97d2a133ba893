//! What is decided before a flush.

use crate::sets::{LinkIndex, ObjIndex};

/// What the preparation of a flush decided.
#[derive(Drop)]
pub struct Prepared {
    /// Persistent objects that are to be deleted.
    pub deleted: ObjIndex,
    /// Pending objects that are to be transient.
    pub transient: ObjIndex,
    /// Many-to-one links that are to become none.
    pub cleared: LinkIndex,
}
