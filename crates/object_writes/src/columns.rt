//! The cells of an object in the columns of a table, and what a column is.

ghost use Rattle.std.specs.Prelude.{◌≡◌, ◌≤◌, ◌<◌, length, take, IfOk, IfSome};
ghost use Rattle.std.specs.List.{count_by, position};
ghost use Rattle.std.specs.Option.{option_copied};
ghost use Rattle.schema_core.specs.Tables.{value_or_null};
ghost use Rattle.class_layouts.specs.Faults.{is_named};
ghost use Rattle.class_mapping.specs.Mapped.{IsClass, class_spec};
ghost use Rattle.object_rows.specs.Rows as spec;

use base_core::{ClassId, Copied, Name, TableId, Value};
use class_layouts::columns_of;
use class_mapping::{Attribute, Mapping};
use object_arena::{Cell, Object};
use schema_core::ColumnSpec;
use std::alloc::AllocError;

/// The place of the attribute that is a column of a table.
fn place_at(attributes: &[Attribute], table: TableId, column: usize) -> Option<usize>
    ensures { result ≡ position (spec.is_at table column) attributes.now }
{
    attributes.iter().position(|attribute| {
        attribute.table.0 == table.0 && attribute.column.0 as usize == column
    })
}

/// The cell of an object that is a column of a table.
pub fn cell_for<'a>(
    mapping: &Mapping,
    object: &'a Object,
    table: TableId,
    column: usize,
) -> Option<&'a Cell>
    requires declared { IsClass mapping.now object.now.class }
    ensures { option_copied result ≡ spec.cell_for mapping.now object.now table column }
{
    match place_at(mapping.attributes(object.class), table, column) {
        Some(place) => object.cells.get(place),
        None => None,
    }
}

/// A value that is known, or NULL.
fn value_or_null(value: &Option<Value>) -> Result<Value, AllocError>
    ensures { IfOk result (λ copy. copy ≡ value_or_null value.now) }
{
    match value {
        Some(value) => Ok(value.copied()?),
        None => Ok(Value::Null),
    }
}

/// The value that an object holds in a column of a table, or NULL.
pub(crate) fn value_now(
    mapping: &Mapping,
    object: &Object,
    table: TableId,
    column: usize,
) -> Result<Value, AllocError>
    requires declared { IsClass mapping.now object.now.class }
    ensures { IfOk result (λ value. value
        ≡ spec.value_now (spec.cell_for mapping.now object.now table column)) }
{
    match cell_for(mapping, object, table, column) {
        Some(cell) => value_or_null(&cell.value),
        None => Ok(Value::Null),
    }
}

/// The value that an object's row had in a column of a table when it was last read or written, or NULL.
pub(crate) fn value_before(
    mapping: &Mapping,
    object: &Object,
    table: TableId,
    column: usize,
) -> Result<Value, AllocError>
    requires declared { IsClass mapping.now object.now.class }
    ensures { IfOk result (λ value. value
        ≡ spec.value_before (spec.cell_for mapping.now object.now table column)) }
{
    match cell_for(mapping, object, table, column) {
        Some(cell) => value_or_null(&cell.base),
        None => Ok(Value::Null),
    }
}

/// Whether a table is a joined one of a class.
pub(crate) fn is_joined(mapping: &Mapping, class: ClassId, table: TableId) -> bool
    requires { IsClass mapping.now class }
    ensures { result ≡ spec.is_joined mapping.now class table }
{
    mapping.root_table(class).0 != table.0
}

/// Which part of the key the column at a place is.
pub(crate) fn key_part(columns: &[ColumnSpec], column: usize) -> usize
    requires { column ≤ length columns.now }
    ensures { result ≡ spec.key_part columns.now column }
{
    columns[..column].iter().filter(|other| other.key).count()
}

fn is_named(own: &Option<Name>, name: &Name) -> bool
    ensures { result ≡ is_named own.now name.now }
{
    match own {
        Some(own) => *own == *name,
        None => false,
    }
}

/// Whether a column tells the class of a row.
pub(crate) fn is_discriminator(
    mapping: &Mapping,
    class: ClassId,
    table: TableId,
    name: &Name,
) -> bool
    requires { IsClass mapping.now class }
    ensures { result ≡ spec.is_discriminator mapping.now class table name.now }
{
    if is_joined(mapping, class, table) {
        return false;
    }
    let root = mapping.root_of(class);
    if root.0 < mapping.count() {
        return is_named(&mapping.spec_of(root).discriminator, name);
    }
    false
}

/// The identity of a class, or NULL.
pub(crate) fn class_identity(mapping: &Mapping, class: ClassId) -> Result<Value, AllocError>
    requires { IsClass mapping.now class }
    ensures { IfOk result
        (λ value. value ≡ value_or_null (class_spec mapping.now class).identity) }
{
    value_or_null(&mapping.spec_of(class).identity)
}

/// The columns of a table.
pub fn columns_at(mapping: &Mapping, table: TableId) -> &[ColumnSpec]
    ensures { result.now ≡ spec.columns_at mapping.now table }
{
    columns_of(mapping.schema(), table)
}
