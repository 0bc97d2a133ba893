//! What is kept of an object.

use base_core::{ClassId, Copied, Key, ListOf, ObjId, ObjList, Value, both};
use std::alloc::AllocError;

/// Where an object stands between a script and the store.
#[derive(Clone, Copy, PartialEq, Eq)]
pub enum State {
    /// Outside the session, and without a row.
    Transient,
    /// In the session, to be inserted by the next flush.
    Pending,
    /// In the session, with a row.
    Persistent,
    /// Its row was deleted in the transaction.
    Deleted,
    /// Outside the session, with an identity.
    Detached,
}

/// What is read of a cell.
pub enum CellRead<'a> {
    Held(&'a Value),
    /// The value is to be read from the store.
    Expired,
}

/// A cell: its value, or none where it is expired, and the value as last read or written, or none where it is not known.
#[derive(Drop)]
pub struct Cell {
    pub value: Option<Value>,
    pub base: Option<Value>,
}

impl Copied for Cell {
    fn copied(&self) -> Result<Cell, AllocError> {
        let (value, base) = both(Copied::copied(&self.value), Copied::copied(&self.base))?;
        Ok(Cell { value, base })
    }
}

/// A link of an object along a relationship.
#[derive(Drop)]
pub enum Link {
    Unset,
    /// To be read from the store; a collection keeps the members added and removed meanwhile.
    Unloaded { added: ObjList, removed: ObjList },
    /// A many-to-one link.
    One { end: Option<ObjId>, changed: bool },
    /// A collection, and its members as last read or written.
    Many { members: ObjList, base: ObjList },
}

impl Copied for Link {
    fn copied(&self) -> Result<Link, AllocError> {
        match self {
            Link::Unset => Ok(Link::Unset),
            Link::Unloaded { added, removed } => {
                let (added, removed) = both(added.copied(), removed.copied())?;
                Ok(Link::Unloaded { added, removed })
            }
            Link::One { end, changed } => Ok(Link::One {
                end: *end,
                changed: *changed,
            }),
            Link::Many { members, base } => {
                let (members, base) = both(members.copied(), base.copied())?;
                Ok(Link::Many { members, base })
            }
        }
    }
}

/// An object's record.
#[derive(Drop)]
pub struct Object {
    pub class: ClassId,
    pub state: State,
    /// The key of its row, beside which the class's root makes the identity.
    pub identity: Option<Key>,
    /// Its place among the pending objects, in the order in which they were added.
    pub added: u64,
    /// Whether the next flush deletes it.
    pub marked: bool,
    /// Whether it has lost the parent without which it is deleted.
    pub orphan: bool,
    /// One for each attribute of its class.
    pub cells: ListOf<Cell>,
    /// One for each relationship of its class.
    pub links: ListOf<Link>,
}

impl Copied for Object {
    fn copied(&self) -> Result<Object, AllocError> {
        let lists = both(self.cells.copied(), self.links.copied());
        let (identity, (cells, links)) = both(Copied::copied(&self.identity), lists)?;
        Ok(Object {
            class: self.class,
            state: self.state,
            identity,
            added: self.added,
            marked: self.marked,
            orphan: self.orphan,
            cells,
            links,
        })
    }
}
