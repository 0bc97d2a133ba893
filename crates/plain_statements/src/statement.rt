//! Which statements are plain.

ghost use Rattle.std.specs.Prelude.{◌≡◌, ◌↔◌, IsTrue, IfOk};
ghost use Rattle.sql_semantics.specs.PlainStatement.{IsPlain};

use crate::bulk::is_fitting_bulk;
use crate::select::is_plain_select;
use expr_types::Statement;
use schema_core::{Schema, is_well_formed};
use std::alloc::{AllocError, Global};

/// Whether a statement is plain: a plain select, a bulk statement whose parts fit its table, or a well-formed statement on
/// rows.
pub fn is_plain(alloc: Global, schema: &Schema, statement: &Statement) -> Result<bool, AllocError>
    ensures { IfOk result (λ plain. IsTrue plain ↔ IsPlain schema.now statement.now) }
{
    match statement {
        Statement::Select(select) => is_plain_select(alloc, schema, select),
        Statement::Bulk(bulk) => is_fitting_bulk(alloc, schema, bulk),
        Statement::Row(row) => Ok(is_well_formed(schema, row)),
    }
}
