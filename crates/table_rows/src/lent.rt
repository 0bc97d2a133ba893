//! Tables that are lent.

ghost use Rattle.std.specs.Prelude.{◌≡◌};
ghost use Rattle.sql_semantics.specs.Created.{bare};
ghost use Rattle.sql_semantics.specs.Eval.{rows_in};
ghost use Rattle.sql_semantics.specs.Rows.{is_created};
ghost use Rattle.table_rows.specs.Rows.{tables_present};
ghost use Rattle.table_rows.specs.Lent.{seen};
ghost use Rattle.table_rows.specs.Walks.{rows_left};

use crate::tables::TableMap;
use crate::walk::RowWalk;
use base_core::{RowList, RowValues, TableId};

/// Tables that can be asked: listed, each once with its rows in key order, or held in maps.
#[derive(Clone, Copy)]
pub enum LentTables<'a> {
    Listed(&'a [(TableId, RowList)]),
    Held(&'a TableMap),
}

fn rows_listed<'a>(tables: &'a [(TableId, RowList)], table: TableId) -> &'a [RowValues]
    ensures { result.now ≡ rows_in tables.now table.0 }
{
    for (id, rows) in tables {
        if id.0 == table.0 {
            return rows.as_slice();
        }
    }
    &[]
}

fn is_listed(tables: &[(TableId, RowList)], table: TableId) -> bool
    ensures { result ≡ is_created tables.now table.0 }
{
    for (id, _) in tables {
        if id.0 == table.0 {
            return true;
        }
    }
    false
}

#[tactic(auto, using(crate::proofs::Bare::found_or_not))]
fn rows_held<'a>(tables: &'a TableMap, table: TableId) -> RowWalk<'a>
    ensures { rows_left result ≡ rows_in (bare (tables_present tables.now)) table.0 }
{
    match tables.get(table) {
        Some(rows) => RowWalk::Held(rows.places().iter()),
        None => RowWalk::Listed([].iter()),
    }
}

#[tactic(auto, using(crate::proofs::Bare::found_or_not))]
fn is_held(tables: &TableMap, table: TableId) -> bool
    ensures { result ≡ is_created (bare (tables_present tables.now)) table.0 }
{
    match tables.get(table) {
        Some(_) => true,
        None => false,
    }
}

impl<'a> LentTables<'a> {
    /// Whether a table is among them.
    pub fn has(self, table: TableId) -> bool
        ensures { result ≡ is_created (seen self.entry) table.0 }
    {
        match self {
            LentTables::Listed(tables) => is_listed(tables, table),
            LentTables::Held(tables) => is_held(tables, table),
        }
    }

    /// The rows of a table in their order, none where there is no such table.
    pub fn rows(self, table: TableId) -> RowWalk<'a>
        ensures { rows_left result ≡ rows_in (seen self.entry) table.0 }
    {
        match self {
            LentTables::Listed(tables) => RowWalk::Listed(rows_listed(tables, table).iter()),
            LentTables::Held(tables) => rows_held(tables, table),
        }
    }
}
