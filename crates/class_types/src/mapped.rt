//! Attributes and relationships as a configured mapping has them.

use crate::Cascade;
use base_core::{ClassId, ColumnNo, Copied, Kind, Name, RelNo, TableId};
use std::alloc::AllocError;

/// An attribute of a class: a column of one of its tables.
#[derive(Clone, PartialEq, Eq)]
pub struct Attribute {
    pub name: Name,
    pub table: TableId,
    pub column: ColumnNo,
    pub kind: Kind,
}

impl Drop for Attribute {
    fn drop(self) {
        let Attribute {
            name: _,
            table: _,
            column: _,
            kind: _,
        } = self;
    }
}

impl Copied for Attribute {
    fn copied(&self) -> Result<Attribute, AllocError> {
        self.clone()
    }
}

/// A relationship of a class.
#[derive(Clone, PartialEq, Eq)]
pub struct Relation {
    pub name: Name,
    /// The class that declares it.
    pub class: ClassId,
    pub target: ClassId,
    pub many: bool,
    /// The foreign key behind the pair; with a secondary table, that table's key to the declaring side.
    pub foreign: (TableId, u32),
    /// With a secondary table, its key to the other side.
    pub far: Option<(TableId, u32)>,
    /// The partner's place in the target's list.
    pub partner: RelNo,
    pub cascade: Cascade,
    pub post_update: bool,
}

impl Drop for Relation {
    fn drop(self) {
        let Relation {
            name: _,
            class: _,
            target: _,
            many: _,
            foreign: _,
            far: _,
            partner: _,
            cascade: _,
            post_update: _,
        } = self;
    }
}

impl Copied for Relation {
    fn copied(&self) -> Result<Relation, AllocError> {
        self.clone()
    }
}
