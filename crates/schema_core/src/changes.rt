//! The rows that a flush makes, changes and takes away, and the statements in their order.

use base_core::{ColumnNo, Copied, Key, ListOf, RowName, RowValues, TableId, Value, Warning};
use std::alloc::AllocError;

/// A cell to be written: a value, or a part of the key of a new row.
#[derive(Clone, Drop, PartialEq, Eq)]
pub enum RowCell {
    Given(Value),
    /// The new row's place in `fresh`, and the place in its key.
    KeyOf(u32, u32),
}

impl Copied for RowCell {
    fn copied(&self) -> Result<RowCell, AllocError> {
        self.clone()
    }
}

#[derive(Clone, PartialEq, Eq)]
pub struct NewRow {
    pub name: RowName,
    pub cells: ListOf<RowCell>,
}

impl Drop for NewRow {
    fn drop(self) {
        let NewRow { name: _, cells: _ } = self;
    }
}

impl Copied for NewRow {
    fn copied(&self) -> Result<NewRow, AllocError> {
        self.clone()
    }
}

#[derive(Clone, PartialEq, Eq)]
pub struct ChangedRow {
    pub name: RowName,
    pub key: Key,
    pub cells: ListOf<(ColumnNo, RowCell)>,
}

impl Drop for ChangedRow {
    fn drop(self) {
        let ChangedRow {
            name: _,
            key: _,
            cells: _,
        } = self;
    }
}

impl Copied for ChangedRow {
    fn copied(&self) -> Result<ChangedRow, AllocError> {
        self.clone()
    }
}

#[derive(Clone, PartialEq, Eq)]
pub struct GoneRow {
    pub name: RowName,
    /// The row as last read or written; NULL in a column that some class owns and that is no attribute of the object's class.
    pub base: RowValues,
}

impl Drop for GoneRow {
    fn drop(self) {
        let GoneRow { name: _, base: _ } = self;
    }
}

impl Copied for GoneRow {
    fn copied(&self) -> Result<GoneRow, AllocError> {
        self.clone()
    }
}

/// What a flush changes.
#[derive(Clone, PartialEq, Eq)]
pub struct RowChanges {
    /// New rows in order of rank.
    pub fresh: ListOf<NewRow>,
    pub changed: ListOf<ChangedRow>,
    pub gone: ListOf<GoneRow>,
    /// The foreign keys that are written after all rows, by table and number.
    pub post: ListOf<(TableId, u32)>,
    pub warnings: ListOf<Warning>,
}

impl Drop for RowChanges {
    fn drop(self) {
        let RowChanges {
            fresh: _,
            changed: _,
            gone: _,
            post: _,
            warnings: _,
        } = self;
    }
}

/// A statement of a flush, in which keys of new rows may still stand open.
#[derive(Clone, PartialEq, Eq)]
pub enum Planned {
    /// Places in `fresh`.
    Insert {
        table: TableId,
        places: ListOf<u32>,
    },
    Update {
        table: TableId,
        key: ListOf<RowCell>,
        cells: ListOf<(ColumnNo, RowCell)>,
    },
    Remove {
        table: TableId,
        key: Key,
    },
}

impl Drop for Planned {
    fn drop(self) {
        match self {
            Planned::Insert {
                table: _,
                places: _,
            } => {}
            Planned::Update {
                table: _,
                key: _,
                cells: _,
            } => {}
            Planned::Remove { table: _, key: _ } => {}
        }
    }
}

impl Copied for Planned {
    fn copied(&self) -> Result<Planned, AllocError> {
        self.clone()
    }
}

/// The statements of a flush in their order.
pub type Plan = ListOf<Planned>;
