//! The tables that blocks of classes name.

ghost use Rattle.std.specs.Prelude.{◌≡◌, slice_get};
ghost use Rattle.std.specs.Option.{option_copied};
ghost use Rattle.class_blocks.specs.Tables.{columns_in, named_table};

use base_core::{Name, TableId};
use schema_core::{ColumnSpec, Schema, TableSpec};

/// The declaration of a table, if there is one of this number.
pub fn table_at(schema: &Schema, table: TableId) -> Option<&TableSpec>
    ensures { option_copied result ≡ slice_get schema.now.tables table.0 }
{
    if table.0 < schema.count() {
        return Some(schema.spec(table));
    }
    None
}

/// The columns of a table.
pub fn columns_of(schema: &Schema, table: TableId) -> &[ColumnSpec]
    ensures { result.now ≡ columns_in schema.now.tables table }
{
    match table_at(schema, table) {
        Some(spec) => spec.columns.as_slice(),
        None => &[],
    }
}

/// The table that is named, if it is declared.
pub fn named_table(schema: &Schema, name: &Option<Name>) -> Option<TableId>
    ensures { result ≡ named_table schema.now.tables name.now }
{
    match name {
        Some(name) => schema.find(name),
        None => None,
    }
}
