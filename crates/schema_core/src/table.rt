//! What a declaration of a table says.

use base_core::{Copied, Kind, ListOf, Name};
use std::alloc::AllocError;

/// A column's type. A varchar's length is printed and never enforced.
#[derive(Clone, Copy, PartialEq, Eq)]
pub enum ColumnKind {
    Integer,
    Varchar(Option<u32>),
    Text,
    Boolean,
    Bytes,
}

/// A column as it is declared.
#[derive(Clone, PartialEq, Eq)]
pub struct ColumnSpec {
    pub name: Name,
    pub kind: ColumnKind,
    /// Whether it is a column of the primary key.
    pub key: bool,
    pub not_null: bool,
}

impl Drop for ColumnSpec {
    fn drop(self) {
        let ColumnSpec {
            name: _,
            kind: _,
            key: _,
            not_null: _,
        } = self;
    }
}

/// A foreign key as it is declared: its columns refer to the whole primary key of the table named.
#[derive(Clone, PartialEq, Eq)]
pub struct ForeignSpec {
    pub columns: ListOf<Name>,
    pub target: Name,
}

impl Drop for ForeignSpec {
    fn drop(self) {
        let ForeignSpec {
            columns: _,
            target: _,
        } = self;
    }
}

/// A table as it is declared.
#[derive(Clone, PartialEq, Eq)]
pub struct TableSpec {
    pub name: Name,
    pub columns: ListOf<ColumnSpec>,
    /// The columns of each unique constraint.
    pub uniques: ListOf<ListOf<Name>>,
    pub foreigns: ListOf<ForeignSpec>,
}

impl Drop for TableSpec {
    fn drop(self) {
        let TableSpec {
            name: _,
            columns: _,
            uniques: _,
            foreigns: _,
        } = self;
    }
}

impl Copied for ColumnSpec {
    fn copied(&self) -> Result<ColumnSpec, AllocError> {
        self.clone()
    }
}

impl Copied for ForeignSpec {
    fn copied(&self) -> Result<ForeignSpec, AllocError> {
        self.clone()
    }
}

impl Copied for TableSpec {
    fn copied(&self) -> Result<TableSpec, AllocError> {
        self.clone()
    }
}
