//! Columns by their places.

ghost use Rattle.std.specs.Prelude.{◌≡◌, slice_index_or, List, map, IfOk, IfSome};
ghost use Rattle.base_core.specs.declared.value.Value.{Value};
ghost use Rattle.base_core.specs.declared.value.Value.TheVariants.{Null};
ghost use Rattle.schema_core.specs.Tables.{cell_of};
ghost use Rattle.table_index.specs.Indexed.{cells_at};

use base_core::{Copied, ListOf, Name, RowValues, Value};
use schema_core::ColumnSpec;
use std::alloc::{AllocError, Global};

/// The cell of a row in a column, NULL where the row has none.
fn cell_at(row: &[Value], column: usize) -> Result<Value, AllocError>
    ensures { IfOk result (λ cell. cell ≡ slice_index_or row.now column Null) }
{
    match row.get(column) {
        Some(cell) => cell.copied(),
        None => Ok(Value::Null),
    }
}

#[tactic(auto, using(std::proofs::lemmas::List::map_more))]
/// The cells of a row in these columns, NULL where the row has none.
pub fn cells_at(alloc: Global, columns: &[usize], row: &[Value]) -> Result<RowValues, AllocError>
    ensures { IfOk result (λ cells. cells ≡ cells_at columns.now row.now) }
{
    let mut cells = Vec::with_capacity(alloc, columns.len())?;
    for column in columns {
        cells.push(cell_at(row, *column)?)?;
    }
    Ok(ListOf::from_vec(cells))
}

#[tactic(auto, using(crate::proofs::ColumnSteps::place_steps))]
/// The place of the first column of a name, if there is one.
fn column_place(columns: &[ColumnSpec], name: &Name) -> Option<usize>
    ensures { IfSome result (λ place. (row : List Value)
        → slice_index_or row place Null ≡ cell_of columns.now row name.now) }
{
    for (place, column) in columns.iter().enumerate() {
        if column.name == *name {
            return Some(place);
        }
    }
    None
}

/// The places of the columns of these names, if each is there.
pub fn column_places(
    alloc: Global,
    columns: &[ColumnSpec],
    names: &[Name],
) -> Result<Option<Vec<usize>>, AllocError>
    ensures { IfOk result (λ found. IfSome found (λ places. (row : List Value)
        → cells_at places.items row ≡ map (cell_of columns.now row) names.now)) }
{
    let mut places = Vec::with_capacity(alloc, names.len())?;
    for name in names {
        let Some(place) = column_place(columns, name) else {
            return Ok(None);
        };
        places.push(place)?;
    }
    Ok(Some(places))
}
