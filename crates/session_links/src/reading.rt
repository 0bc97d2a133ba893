//! What is read of links.

use base_core::{ObjId, ObjList};

/// What a link leads to.
#[derive(Drop)]
pub enum Related {
    /// The object of a many-to-one link, or none.
    One(Option<ObjId>),
    /// The members of a collection.
    Many(ObjList),
}
