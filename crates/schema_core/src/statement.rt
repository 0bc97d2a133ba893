//! Statements on rows that are given by their values and keys.

ghost use Rattle.std.specs.Prelude.{◌≡◌};
ghost use Rattle.schema_core.specs.Apply.{table_of};
ghost use Rattle.schema_core.specs.Refusals.{violation_refusal};
ghost use Rattle.schema_core.specs.declared.statement.Unwritten.TheVariants as unwritten;

use base_core::{ColumnNo, Copied, IntegrityKind, Key, ListOf, Refusal, RowList, TableId, Value};
use std::alloc::{AllocError, AllocFailed};

/// A statement that writes rows.
#[derive(Clone, PartialEq, Eq)]
pub enum RowStmt {
    /// One value for each column in every row, of which there are 1 to 1000. A NULL in a generated key draws one, in all rows
    /// or in none.
    Insert {
        table: TableId,
        rows: RowList,
    },
    /// The cells that are written, each column once and in order, none of the key.
    Update {
        table: TableId,
        key: Key,
        cells: ListOf<(ColumnNo, Value)>,
    },
    Delete {
        table: TableId,
        key: Key,
    },
}

impl Drop for RowStmt {
    fn drop(self) {
        match self {
            RowStmt::Insert { table: _, rows: _ } => {}
            RowStmt::Update {
                table: _,
                key: _,
                cells: _,
            } => {}
            RowStmt::Delete { table: _, key: _ } => {}
        }
    }
}

impl Copied for RowStmt {
    fn copied(&self) -> Result<RowStmt, AllocError> {
        self.clone()
    }
}

impl RowStmt {
    /// The table that is written.
    pub fn table(&self) -> TableId
        ensures { result ≡ table_of self.now }
    {
        match self {
            RowStmt::Insert { table, .. }
            | RowStmt::Update { table, .. }
            | RowStmt::Delete { table, .. } => *table,
        }
    }
}

/// The rule that a statement on rows violates, in the order in which they are told.
#[derive(Clone, Copy, PartialEq, Eq)]
pub enum Violation {
    /// The table was not created.
    NoTable(TableId),
    /// An UPDATE names an absent key.
    Missing,
    NotNull,
    /// A generated key would be above the greatest integer.
    KeysSpent,
    PrimaryKey,
    Unique,
    Foreign,
}

impl Violation {
    /// The refusal of a statement on this table.
    pub fn refusal(self, table: TableId) -> Refusal
        ensures { result ≡ violation_refusal table self }
    {
        match self {
            Violation::NoTable(absent) => Refusal::OperationalError(absent),
            Violation::Missing => Refusal::StaleDataError(table),
            Violation::NotNull => Refusal::IntegrityError(IntegrityKind::NotNull, table),
            Violation::KeysSpent => Refusal::KeysSpent(table),
            Violation::PrimaryKey => Refusal::IntegrityError(IntegrityKind::PrimaryKey, table),
            Violation::Unique => Refusal::IntegrityError(IntegrityKind::Unique, table),
            Violation::Foreign => Refusal::IntegrityError(IntegrityKind::Foreign, table),
        }
    }
}

/// Why a statement on rows was not done.
#[derive(Clone, Copy, PartialEq, Eq)]
pub enum Unwritten {
    Violates(Violation),
    Memory,
}

impl From<AllocError> for Unwritten {
    ghost from_gives = { λ _ e. e ≡ unwritten.Memory };

    fn from(_e: AllocError) -> Unwritten {
        Unwritten::Memory
    }
}

impl<T: Drop> From<AllocFailed<T>> for Unwritten {
    ghost from_gives = { λ _ e. e ≡ unwritten.Memory };

    fn from(_e: AllocFailed<T>) -> Unwritten {
        Unwritten::Memory
    }
}
