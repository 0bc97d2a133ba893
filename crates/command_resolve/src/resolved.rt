//! Lines of the script with numbers in the place of their names.

use base_core::{AttrNo, ClassId, Key, ListOf, Name, ObjId, RelNo, Value};
use expr_types::{Bulk, ObjectQuery, Select};
use relations::LinkCall;
use shell_parts::Bound;
use sqlite_items::Boxed;

/// What a line asks for.
#[derive(Drop)]
pub enum Resolved {
    CreateAll,
    DropAll,
    Dump,
    /// An object is to be made and bound to a name.
    New {
        name: Name,
        class: ClassId,
        /// Each attribute once, and each value NULL or of its attribute's kind.
        cells: ListOf<(AttrNo, Value)>,
    },
    /// The object of a class under a key, or none, is to be bound to a name.
    Get {
        name: Name,
        class: ClassId,
        /// A value of its kind for each column of the class's key.
        key: Key,
    },
    /// The objects of a query are to be bound to a name.
    Objects {
        name: Name,
        query: Boxed<ObjectQuery>,
    },
    /// What a relationship of an object leads to is to be bound to a name.
    Related {
        name: Name,
        object: ObjId,
        relation: RelNo,
    },
    /// The name to which the new savepoint is to be bound.
    BeginNested(Name),
    /// An attribute of an object is to hold a value, which is NULL or of its kind.
    SetCell(ObjId, AttrNo, Value),
    /// A relationship of an object is to change.
    ChangeLink(ObjId, RelNo, LinkCall),
    Add(ObjId),
    Delete(ObjId),
    /// An object is to leave the session.
    Expunge(ObjId),
    /// An object is to be expired.
    Expire(ObjId),
    /// An object is to be read anew.
    Refresh(ObjId),
    /// No savepoint is shown.
    Show(Bound),
    ShowCell(ObjId, AttrNo),
    ShowLink(ObjId, RelNo),
    State(ObjId),
    /// The line `is`.
    Same(ObjId, ObjId),
    Flush,
    /// The number of a savepoint, or the whole transaction.
    Commit(Option<u32>),
    /// The number of a savepoint, or the whole transaction.
    Rollback(Option<u32>),
    Close,
    Rows(Boxed<Select>),
    Bulk(Boxed<Bulk>),
}
