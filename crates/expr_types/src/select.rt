//! Selects, bulk statements and queries for objects.

use crate::{Expr, ExprList, Origin};
use base_core::{ClassId, ColumnNo, ListOf, Name, RelNo, RowValues, TableId};
use schema_core::RowStmt;

/// A further source of a select: joined, or left-joined.
pub struct Joined {
    pub left: bool,
    pub origin: Origin,
    pub on: Expr,
}

impl Drop for Joined {
    fn drop(self) {
        let Joined {
            left: _,
            origin: _,
            on: _,
        } = self;
    }
}

pub struct Select {
    pub distinct: bool,
    /// Each item with the name that it is given.
    pub items: ListOf<(Expr, Option<Name>)>,
    pub first: Origin,
    pub joins: ListOf<Joined>,
    pub filter: Option<Expr>,
    pub groups: ExprList,
    pub having: Option<Expr>,
    /// The expressions by which rows are ordered; true for `desc`.
    pub order: ListOf<(Expr, bool)>,
    pub limit: Option<u64>,
    pub offset: Option<u64>,
}

impl Drop for Select {
    fn drop(self) {
        let Select {
            distinct: _,
            items: _,
            first: _,
            joins: _,
            filter: _,
            groups: _,
            having: _,
            order: _,
            limit: _,
            offset: _,
        } = self;
    }
}

/// A statement on all rows that a condition names.
pub enum Bulk {
    Insert {
        table: TableId,
        columns: ListOf<ColumnNo>,
        values: RowValues,
    },
    /// `None` writes NULL.
    Update {
        table: TableId,
        cells: ListOf<(ColumnNo, Option<Expr>)>,
        filter: Option<Expr>,
    },
    Delete {
        table: TableId,
        filter: Option<Expr>,
    },
}

impl Drop for Bulk {
    fn drop(self) {
        match self {
            Bulk::Insert {
                table: _,
                columns: _,
                values: _,
            } => {}
            Bulk::Update {
                table: _,
                cells: _,
                filter: _,
            } => {}
            Bulk::Delete {
                table: _,
                filter: _,
            } => {}
        }
    }
}

pub enum Statement {
    Select(Select),
    Bulk(Bulk),
    Row(RowStmt),
}

impl Drop for Statement {
    fn drop(self) {
        match self {
            Statement::Select(_) => {}
            Statement::Bulk(_) => {}
            Statement::Row(_) => {}
        }
    }
}

/// A query for objects of a class; `select` is its main select without the joined options.
pub struct ObjectQuery {
    pub class: ClassId,
    pub select: Select,
    pub joined: ListOf<RelNo>,
    pub selectin: ListOf<RelNo>,
}

impl Drop for ObjectQuery {
    fn drop(self) {
        let ObjectQuery {
            class: _,
            select: _,
            joined: _,
            selectin: _,
        } = self;
    }
}
