//! The scopes of rows and groups.

ghost use Rattle.std.specs.Prelude.{◌≡◌};
ghost use Rattle.expr_eval.specs.Place.{place_of};
ghost use Rattle.table_rows.specs.Lent.{seen};
ghost use Rattle.select_sources.specs.Frames.{frame_at};
ghost use Rattle.sql_semantics.specs.Rows as spec;

use base_core::{RowList, Value};
use expr_eval::Scope;
use select_sources::scope_at;
use sql_semantics::Basis;
use table_rows::LentTables;

/// The scope of a row or a group.
pub(crate) fn scope_of<'x>(starts: &'x [u32], tables: LentTables<'x>, basis: &'x Basis) -> Scope<'x>
    ensures { place_of result ≡ spec.at_basis (frame_at starts.now (seen tables.entry)) basis.now }
{
    match basis {
        Basis::Row(row) => scope_at(starts, tables, row.as_slice()),
        Basis::Group(rows) => Scope {
            row: first_row(rows),
            starts,
            tables,
            group: Some(rows.as_slice()),
        },
    }
}

fn first_row(rows: &RowList) -> &[Value]
    ensures { result.now ≡ spec.first_row rows.now }
{
    match rows.get(0) {
        Some(row) => row.as_slice(),
        None => &[],
    }
}
