//! The names of tables and columns by their numbers.

ghost use Rattle.std.specs.Prelude.{◌≡◌};
ghost use Rattle.schema_core.specs.Catalog.{spec_of};
ghost use Rattle.sql_text.specs.Columns.{column_name};

use base_core::{ColumnNo, TableId};
use schema_core::{ColumnSpec, Schema};

/// The name of a table, none where it is not declared.
pub fn table_name(schema: &Schema, table: TableId) -> &str
    ensures { result.now ≡ (spec_of schema.now table).name }
{
    if table.0 < schema.count() {
        schema.spec(table).name.get()
    } else {
        ""
    }
}

/// The columns of a table, none where it is not declared.
pub fn columns_of(schema: &Schema, table: TableId) -> &[ColumnSpec]
    ensures { result.now ≡ (spec_of schema.now table).columns }
{
    if table.0 < schema.count() {
        schema.spec(table).columns.as_slice()
    } else {
        &[]
    }
}

/// The name of a table's column, none where there is no such column.
pub fn column_name(schema: &Schema, table: TableId, column: ColumnNo) -> &str
    ensures { result.now ≡ column_name schema.now table column }
{
    match columns_of(schema, table).get(column.0 as usize) {
        Some(column) => column.name.get(),
        None => "",
    }
}
