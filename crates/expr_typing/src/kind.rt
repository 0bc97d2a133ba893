//! Kinds of columns and values, and the kinds that operands want.

ghost use Rattle.std.specs.Prelude.{◌≡◌, map, Ok, ◌++◌, ◌∷◌, [], IfOk};
ghost use Rattle.std.specs.Option.{option_copied};
ghost use Rattle.schema_core.specs.Catalog.{spec_of};
ghost use Rattle.sql_semantics.specs.Kinds as spec;

use base_core::{ColumnNo, Kind, Refusal, TableId, Value};
use schema_core::{ColumnSpec, Schema, kind_of, same_kind};
use std::alloc::{AllocError, Global};

/// The kind of a value other than NULL.
pub(crate) fn value_kind(value: &Value) -> Kind
    ensures { result ≡ spec.value_kind value.now }
{
    match value {
        Value::Null | Value::Int(_) => Kind::Integer,
        Value::Bool(_) => Kind::Boolean,
        Value::Text(_) => Kind::Text,
        Value::Bytes(_) => Kind::Bytes,
    }
}

/// The columns of a table, none where it is not declared.
fn columns_of(schema: &Schema, table: TableId) -> &[ColumnSpec]
    ensures { result.now ≡ (spec_of schema.now table).columns }
{
    if table.0 < schema.count() {
        schema.spec(table).columns.as_slice()
    } else {
        &[]
    }
}

/// The declaration of a source's column, if there is one.
pub(crate) fn column_in<'x>(
    schema: &'x Schema,
    scope: &[TableId],
    source: u32,
    column: ColumnNo,
) -> Option<&'x ColumnSpec>
    ensures { option_copied result ≡ spec.column_in schema.now scope.now source column }
{
    match scope.get(source as usize) {
        Some(table) => columns_of(schema, *table).get(column.0 as usize),
        None => None,
    }
}

/// The kind of a source's column.
pub(crate) fn column_kind(schema: &Schema, scope: &[TableId], source: u32, column: ColumnNo) -> Kind
    ensures { result ≡ spec.column_kind schema.now scope.now source column }
{
    match column_in(schema, scope, source, column) {
        Some(column) => kind_of(column.kind),
        None => Kind::Integer,
    }
}

/// The kind that is wanted, or a mismatch.
pub(crate) fn expected(wanted: Kind, found: Kind) -> Result<Kind, Refusal>
    ensures { result ≡ spec.kind_or_mismatch wanted found }
{
    if same_kind(found, wanted) {
        Ok(wanted)
    } else {
        Err(Refusal::TypeMismatch(wanted, found))
    }
}

/// Each value is of the kind wanted, from left to right.
pub(crate) fn values_of(wanted: Kind, values: &[Value]) -> Result<Kind, Refusal>
    ensures { result ≡ spec.all_of wanted (map (λ v. Ok (spec.value_kind v)) values.now) }
{
    for value in values {
        expected(wanted, value_kind(value))?;
    }
    Ok(wanted)
}

/// The scope with one more source, the innermost.
pub(crate) fn entered(
    alloc: Global,
    scope: &[TableId],
    table: TableId,
) -> Result<Vec<TableId>, AllocError>
    ensures { IfOk result (λ inner. inner.items ≡ scope.now ++ table ∷ []) }
{
    let mut inner = Vec::from_slice(alloc, scope)?;
    inner.push(table)?;
    Ok(inner)
}
