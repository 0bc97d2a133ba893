//! The columns of the sources in scope, and the values that they take.

ghost use Rattle.std.specs.Prelude.{◌≡◌};
ghost use Rattle.std.specs.List.{list_all};
ghost use Rattle.std.specs.Option.{option_copied};
ghost use Rattle.schema_core.specs.Catalog.{spec_of};
ghost use Rattle.sql_semantics.specs.Kinds as kinds;
ghost use Rattle.sql_semantics.specs.Plain as spec;
ghost use Rattle.expr_scopes.specs.Scopes as scopes;

use base_core::{ColumnNo, Kind, TableId, Value};
use schema_core::{ColumnSpec, Schema, kind_of, kind_of_value, same_kind};

/// Whether a table of this number is declared.
pub fn is_known(schema: &Schema, table: TableId) -> bool
    ensures { result ≡ scopes.is_known schema.now table }
{
    table.0 < schema.count()
}

/// The columns of a table, none where it is not declared.
fn columns_of(schema: &Schema, table: TableId) -> &[ColumnSpec]
    ensures { result.now ≡ (spec_of schema.now table).columns }
{
    if !is_known(schema, table) {
        return &[];
    }
    schema.spec(table).columns.as_slice()
}

/// The declaration of a source's column, if there is one.
pub fn column_in<'x>(
    schema: &'x Schema,
    scope: &[TableId],
    source: u32,
    column: ColumnNo,
) -> Option<&'x ColumnSpec>
    ensures { option_copied result ≡ kinds.column_in schema.now scope.now source column }
{
    match scope.get(source as usize) {
        Some(table) => columns_of(schema, *table).get(column.0 as usize),
        None => None,
    }
}

/// Whether the value is another than NULL.
pub(crate) fn is_given(value: &Value) -> bool
    ensures { result ≡ spec.is_given value.now }
{
    !matches!(value, Value::Null)
}

/// Whether no value is NULL.
pub(crate) fn all_given(values: &[Value]) -> bool
    ensures { result ≡ list_all spec.is_given values.now }
{
    values.iter().all(|value| is_given(value))
}

/// Whether the value is NULL or of the kind.
fn is_of_kind(kind: Kind, value: &Value) -> bool
    ensures { result ≡ spec.is_of_kind kind value.now }
{
    match kind_of_value(value) {
        Some(found) => same_kind(found, kind),
        None => true,
    }
}

/// Whether the column is there and takes values of this kind; every column takes NULL.
pub fn is_for(schema: &Schema, table: TableId, column: ColumnNo, value: &Value) -> bool
    ensures { result ≡ scopes.is_for schema.now table column value.now }
{
    match column_in(schema, &[table], 0, column) {
        Some(column) => is_of_kind(kind_of(column.kind), value),
        None => false,
    }
}

/// Whether the column is there and no part of the primary key.
pub fn is_free_column(schema: &Schema, table: TableId, column: ColumnNo) -> bool
    ensures { result ≡ spec.is_free_column schema.now table column }
{
    match column_in(schema, &[table], 0, column) {
        Some(column) => !column.key,
        None => false,
    }
}
