//! Scopes of a select.

ghost use Rattle.std.specs.Prelude.{◌≡◌};
ghost use Rattle.expr_eval.specs.Place.{place_of};
ghost use Rattle.table_rows.specs.Lent.{seen};
ghost use Rattle.select_sources.specs.Frames.{frame_at};
ghost use Rattle.sql_semantics.specs.Rows as spec;

use base_core::Value;
use expr_eval::Scope;
use table_rows::LentTables;

/// The sources in scope: the place in a row at which each begins, and the tables.
#[derive(Clone, Copy)]
pub struct Frame<'a> {
    pub starts: &'a [u32],
    pub tables: LentTables<'a>,
}

/// The scope of a row.
pub fn scope_at<'x>(starts: &'x [u32], tables: LentTables<'x>, row: &'x [Value]) -> Scope<'x>
    ensures { place_of result ≡ spec.at (frame_at starts.now (seen tables.entry)) row.now }
{
    Scope {
        row,
        starts,
        tables,
        group: None,
    }
}
