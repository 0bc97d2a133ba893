//! Cells of rows beside the columns of their table.

ghost use Rattle.std.specs.Prelude.{◌≡◌, ◌&&◌, not, IfOk};
ghost use Rattle.schema_core.specs.Apply.{with_cells, with_key};
ghost use Rattle.schema_core.specs.Judged.{lacks_value};
ghost use Rattle.row_judging.specs.Cells.{cell_or_key};
ghost use Rattle.schema_core.specs.Catalog.{is_required};
ghost use Rattle.schema_core.specs.Tables.{cell_of, has_null, is_null, key_cells};
ghost use Rattle.std.specs.Prelude.{map};

use base_core::{ColumnNo, Copied, Key, ListOf, Name, RowValues, Value};
use schema_core::ColumnSpec;
use std::alloc::{AllocError, Global};

/// Whether it is NULL.
pub fn is_null(value: &Value) -> bool
    ensures { result ≡ is_null value.now }
{
    match value {
        Value::Null => true,
        _ => false,
    }
}

/// Whether one of the values is NULL.
pub fn has_null(values: &[Value]) -> bool
    ensures { result ≡ has_null values.now }
{
    values.iter().any(|value| is_null(value))
}

#[tactic(auto, using(crate::proofs::CellSteps::cell_steps))]
/// The cell in the column of a name; NULL where there is none.
pub fn cell_of(columns: &[ColumnSpec], row: &[Value], name: &Name) -> Result<Value, AllocError>
    ensures { IfOk result (λ cell. cell ≡ cell_of columns.now row.now name.now) }
{
    for (place, column) in columns.iter().enumerate() {
        let Some(cell) = row.get(place) else {
            return Ok(Value::Null);
        };
        if column.name == *name {
            return cell.copied();
        }
    }
    Ok(Value::Null)
}

#[tactic(auto, using(crate::proofs::CellSteps::map_more))]
/// The cells in the columns of a list.
pub fn cells_of(
    alloc: Global,
    columns: &[ColumnSpec],
    row: &[Value],
    names: &[Name],
) -> Result<ListOf<Value>, AllocError>
    ensures { IfOk result (λ cells. cells ≡ map (cell_of columns.now row.now) names.now) }
{
    let mut cells = Vec::with_capacity(alloc, names.len())?;
    for name in names {
        cells.push(cell_of(columns, row, name)?)?;
    }
    Ok(ListOf::from_vec(cells))
}

#[tactic(auto, using(crate::proofs::CellSteps::key_steps))]
/// The cells of the primary key.
pub fn key_of(alloc: Global, columns: &[ColumnSpec], row: &[Value]) -> Result<Key, AllocError>
    ensures { IfOk result (λ key. key ≡ key_cells columns.now row.now) }
{
    let mut cells = Vec::new(alloc);
    for (place, column) in columns.iter().enumerate() {
        let Some(cell) = row.get(place) else {
            return Ok(ListOf::from_vec(cells));
        };
        if column.key {
            cells.push(cell.copied()?)?;
        }
    }
    Ok(ListOf::from_vec(cells))
}

/// Whether a column takes no NULL.
fn is_required(column: &ColumnSpec) -> bool
    ensures { result ≡ is_required column.now }
{
    column.not_null || column.key
}

#[tactic(auto, using(crate::proofs::CellSteps::lack_steps))]
/// Whether a NULL stands in a column that takes none.
pub fn lacks_value(columns: &[ColumnSpec], row: &[Value]) -> bool
    ensures { result ≡ lacks_value is_required columns.now row.now }
{
    for (place, column) in columns.iter().enumerate() {
        let Some(cell) = row.get(place) else {
            return false;
        };
        if is_required(column) && is_null(cell) {
            return true;
        }
    }
    false
}

/// Whether a column takes no NULL in an INSERT: a key that is generated may be left open.
fn is_demanded(generated: bool, column: &ColumnSpec) -> bool
    ensures { result ≡ (is_required column.now && not (column.now.key && generated)) }
{
    is_required(column) && !(column.key && generated)
}

#[tactic(auto, using(crate::proofs::CellSteps::lack_steps))]
/// Whether a new row has a NULL in a column that takes none.
pub fn lacks_given(columns: &[ColumnSpec], row: &[Value], generated: bool) -> bool
    ensures { result ≡ lacks_value
        (λ column. is_required column && not (column.key && generated)) columns.now row.now }
{
    for (place, column) in columns.iter().enumerate() {
        let Some(cell) = row.get(place) else {
            return false;
        };
        if is_demanded(generated, column) && is_null(cell) {
            return true;
        }
    }
    false
}

/// A cell, or the key where its column is of the key.
fn cell_or_key(column: &ColumnSpec, key: i64, cell: &Value) -> Result<Value, AllocError>
    ensures { IfOk result (λ value. value ≡ cell_or_key column.now (Value.Int key) cell.now) }
{
    if column.key {
        return Ok(Value::Int(key));
    }
    cell.copied()
}

#[tactic(auto, using(crate::proofs::CellSteps::keyed_steps))]
/// The row with this value in its key.
pub fn with_key(
    alloc: Global,
    columns: &[ColumnSpec],
    key: i64,
    row: &[Value],
) -> Result<RowValues, AllocError>
    ensures { IfOk result (λ keyed. keyed ≡ with_key columns.now (Value.Int key) row.now) }
{
    let mut cells = Vec::with_capacity(alloc, row.len())?;
    for (place, column) in columns.iter().enumerate() {
        let Some(cell) = row.get(place) else {
            return Ok(ListOf::from_vec(cells));
        };
        cells.push(cell_or_key(column, key, cell)?)?;
    }
    Ok(ListOf::from_vec(cells))
}

#[tactic(auto, using(crate::proofs::CellSteps::written_steps))]
/// The row with these cells written.
pub fn with_cells(row: RowValues, written: &[(ColumnNo, Value)]) -> Result<RowValues, AllocError>
    ensures { IfOk result (λ changed. changed ≡ with_cells row written.now) }
{
    let mut cells = row.into_vec();
    for (column, value) in written {
        let place = column.0 as usize;
        if place < cells.len() {
            cells[place] = value.copied()?;
        }
    }
    Ok(ListOf::from_vec(cells))
}
