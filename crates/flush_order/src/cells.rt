//! The columns that are written after all rows, and the cells of new rows while keys stand open.

ghost use Rattle.std.specs.Prelude.{◌≡◌, [], ◌∷◌, ◌++◌, map, IfOk, IfErr, OnOk, slice_index_or};
ghost use Rattle.std.specs.List.{list_any};
ghost use Rattle.std.specs.Option.{option_copied};
ghost use Rattle.base_core.specs.declared.refusal.Refusal.TheVariants.{Memory};
ghost use Rattle.schema_core.specs.declared.changes.RowCell.TheVariants.{Given};
ghost use Rattle.base_core.specs.declared.value.Value.TheVariants.{Null};
ghost use Rattle.schema_core.specs.Catalog.{has_name, IsTable};
ghost use Rattle.schema_core.specs.Tables.{cell_of, has_null, is_null, same_values, value_or_null};
ghost use Rattle.flush_order.specs.Cells.{cells_cleared, is_in, is_late, key_parts, late_name};
ghost use Rattle.flush_order.specs.Refers.{comes_from};
ghost use Rattle.flush_order.specs.Told.{held_cell};
ghost use Rattle.std.specs.Ordering.{is_eq};
ghost use Rattle.base_core.specs.Order.{value_cmp};

use base_core::{Copied, Name, TableId, Value};
use schema_core::{ColumnSpec, RowCell, RowChanges, Schema};
use std::alloc::AllocError;

/// Whether a name is in the list.
fn has_name(names: &[Name], name: &Name) -> bool
    ensures { result ≡ has_name names.now name.now }
{
    let Some((first, names)) = names.split_first() else {
        return false;
    };
    *first == *name || has_name(names, name)
}

#[tactic(auto, using(crate::proofs::CellLemmas::get_none))]
/// Whether the column of a name is in the foreign key of this table and number.
fn is_in(schema: &Schema, table: TableId, name: &Name, post: &(TableId, u32)) -> bool
    requires { IsTable schema.now table }
    ensures { result ≡ is_in schema.now table name.now post.now }
{
    if post.0.0 != table.0 {
        return false;
    }
    match schema.spec(table).foreigns.get(post.1 as usize) {
        Some(foreign) => has_name(foreign.columns.as_slice(), name),
        None => false,
    }
}

/// Whether the column of a name is in one of these foreign keys.
fn some_has(schema: &Schema, table: TableId, name: &Name, posts: &[(TableId, u32)]) -> bool
    requires { IsTable schema.now table }
    ensures { result ≡ list_any (is_in schema.now table name.now) posts.now }
{
    let Some((post, posts)) = posts.split_first() else {
        return false;
    };
    is_in(schema, table, name, post) || some_has(schema, table, name, posts)
}

/// Whether the column of a name is in a foreign key that is written after all rows.
pub fn is_late(schema: &Schema, changes: &RowChanges, table: TableId, name: &Name) -> bool
    requires { IsTable schema.now table }
    ensures { result ≡ late_name schema.now changes.now table name.now }
{
    some_has(schema, table, name, changes.post.as_slice())
}

/// Puts a copy behind others.
pub(crate) fn push_copy<T: Copied + Drop>(out: &mut Vec<T>, item: &T) -> Result<(), AllocError>
    ensures { OnOk result (out.new.items ≡ out.old.items ++ item.now ∷ []) }
{
    out.push(item.copied()?)?;
    Ok(())
}

/// Puts cells behind others, with another one in the columns that are written late.
pub fn push_cleared<T: Copied + Drop>(
    out: &mut Vec<T>,
    schema: &Schema,
    changes: &RowChanges,
    table: TableId,
    none: &T,
    columns: &[ColumnSpec],
    cells: &[T],
) -> Result<(), AllocError>
    requires { IsTable schema.now table }
    ensures { OnOk result (out.new.items ≡ out.old.items
        ++ cells_cleared (is_late schema.now changes.now table) none.now columns.now cells.now) }
{
    let (Some((column, columns)), Some((cell, cells))) = (
        columns.split_first(),
        cells.split_first(),
    ) else {
        return Ok(());
    };
    let late = is_late(schema, changes, table, &column.name);
    let written = if late { none } else { cell };
    push_copy(out, written)?;
    push_cleared(out, schema, changes, table, none, columns, cells)
}

/// The part of a row's key at a place in it; none where the key has no such part.
pub fn part_of<'a>(columns: &[ColumnSpec], cells: &'a [RowCell], part: u32) -> Option<&'a RowCell>
    ensures { held_cell (option_copied result)
        ≡ slice_index_or (key_parts columns.now cells.now) part (Given Null) }
{
    let (Some((column, columns)), Some((cell, cells))) = (
        columns.split_first(),
        cells.split_first(),
    ) else {
        return None;
    };
    if !column.key {
        return part_of(columns, cells, part);
    }
    if part == 0 {
        return Some(cell);
    }
    part_of(columns, cells, part - 1)
}

/// Whether a cell is a part of a new row's key.
fn comes_from(place: u32, cell: &RowCell) -> bool
    ensures { result ≡ comes_from place cell.now }
{
    match cell {
        RowCell::Given(_) => false,
        RowCell::KeyOf(other, _) => *other == place,
    }
}

/// Whether one of the cells is a part of a new row's key.
pub fn some_comes_from(place: u32, cells: &[RowCell]) -> bool
    ensures { result ≡ list_any (comes_from place) cells.now }
{
    let Some((cell, cells)) = cells.split_first() else {
        return false;
    };
    comes_from(place, cell) || some_comes_from(place, cells)
}

/// The cell in the column of a name; none where the row has none.
pub fn cell_of<'a>(columns: &[ColumnSpec], row: &'a [Value], name: &Name) -> Option<&'a Value>
    ensures { value_or_null (option_copied result) ≡ cell_of columns.now row.now name.now }
{
    let (Some((column, columns)), Some((cell, row))) = (columns.split_first(), row.split_first())
    else {
        return None;
    };
    if column.name == *name {
        return Some(cell);
    }
    cell_of(columns, row, name)
}

/// Puts a cell behind others, NULL where there is none.
pub(crate) fn push_value(out: &mut Vec<Value>, value: Option<&Value>) -> Result<(), AllocError>
    ensures { OnOk result (out.new.items ≡ out.old.items ++ value_or_null (option_copied value.entry) ∷ []) }
{
    match value {
        Some(value) => push_copy(out, value),
        None => push_copy(out, &Value::Null),
    }
}

fn is_null(value: Option<&Value>) -> bool
    ensures { result ≡ is_null (value_or_null (option_copied value.entry)) }
{
    matches!(value, None | Some(Value::Null))
}

/// Whether one of the cells in the columns of a list is NULL.
pub fn has_null_in(columns: &[ColumnSpec], row: &[Value], names: &[Name]) -> bool
    ensures { result ≡ has_null (map (cell_of columns.now row.now) names.now) }
{
    let Some((name, names)) = names.split_first() else {
        return false;
    };
    is_null(cell_of(columns, row, name)) || has_null_in(columns, row, names)
}

/// Whether a cell is this value.
fn is_cell(cell: Option<&Value>, value: &Value) -> bool
    ensures { result ≡ is_eq (value_cmp (value_or_null (option_copied cell.entry)) value.now) }
{
    match cell {
        Some(cell) => cell.cmp(value).is_eq(),
        None => Value::Null.cmp(value).is_eq(),
    }
}

#[tactic(auto, using(base_core::proofs::Tests::then_equal))]
/// Whether the cells in the columns of a list are these values.
pub fn are_cells(columns: &[ColumnSpec], row: &[Value], names: &[Name], key: &[Value]) -> bool
    ensures { result ≡ same_values (map (cell_of columns.now row.now) names.now) key.now }
{
    let Some((name, names)) = names.split_first() else {
        return key.is_empty();
    };
    let Some((value, key)) = key.split_first() else {
        return false;
    };
    is_cell(cell_of(columns, row, name), value) && are_cells(columns, row, names, key)
}
