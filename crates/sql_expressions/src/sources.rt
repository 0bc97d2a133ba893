//! The names of sources and of their columns.

ghost use Rattle.std.specs.Prelude.{◌≡◌, slice_get};
ghost use Rattle.sql_semantics.specs.Plain.{name_of};
ghost use Rattle.sql_expressions.specs.Laid as spec;

use base_core::ColumnNo;
use expr_types::Origin;
use schema_core::Schema;
use sql_text::{column_name, table_name};

/// The name of the column of a source in scope.
pub(crate) fn column_shown<'x>(
    schema: &'x Schema,
    scope: &[Origin],
    source: u32,
    column: ColumnNo,
) -> &'x str
    ensures { result.now ≡ spec.column_shown schema.now (slice_get scope.now source) column }
{
    match scope.get(source as usize) {
        Some(origin) => column_name(schema, origin.table, column),
        None => "",
    }
}

/// The name under which a source stands.
fn name_of<'x>(schema: &'x Schema, origin: &'x Origin) -> &'x str
    ensures { result.now ≡ name_of schema.now origin.now }
{
    match &origin.alias {
        Some(alias) => alias.get(),
        None => table_name(schema, origin.table),
    }
}

/// The name of a source in scope.
pub(crate) fn source_shown<'x>(schema: &'x Schema, scope: &'x [Origin], source: u32) -> &'x str
    ensures { result.now ≡ spec.source_shown schema.now (slice_get scope.now source) }
{
    match scope.get(source as usize) {
        Some(origin) => name_of(schema, origin),
        None => "",
    }
}
