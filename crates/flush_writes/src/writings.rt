//! The cells that a flush writes into rows: before all rows stand, or once they do.

ghost use Rattle.std.specs.Prelude.{◌≡◌, ◌<◌, ◌≤◌, ◌++◌, ◌+◌, [], ◌∷◌, cond, not, map, length, true, false, IfOk, OnOk, ℕ};
ghost use Rattle.std.specs.List.{All, filter};
ghost use Rattle.base_core.specs.declared.value.Value.TheVariants.{Null};
ghost use Rattle.schema_core.specs.declared.changes.RowCell.TheVariants.{Given};
ghost use Rattle.schema_core.specs.Catalog.{IsTable, spec_of};
ghost use Rattle.flush_order.specs.Cells.{is_late};
ghost use Rattle.flush_order.specs.Orders.{place_of_gone};
ghost use Rattle.flush_writes.specs.Writes.{cells_when, is_written_when, late_gone, cells_from_number, place_of_changed, update_of};
ghost use Rattle.flush_order.specs.Ready.{AreInRange, IsInTable};
ghost use Rattle.flush_order.specs.Refers.{gone_key};

use crate::runs::is_nothing;
use base_core::{ColumnNo, Copied, Key, ListOf, TableId, Value};
use flush_order::{is_late, push_key};
use schema_core::{ChangedRow, ColumnSpec, GoneRow, Planned, RowCell, RowChanges, Schema};
use std::alloc::{AllocError, Global};

/// Cells, each with its column.
pub type Cells = ListOf<(ColumnNo, RowCell)>;

/// A row's table and key.
pub type Place = (TableId, Key);

/// What is written into the row of a table and key.
pub type Writing = (Place, Cells);

/// Whether a cell of a changed row is written before, or after, all rows stand.
fn is_written_when(
    schema: &Schema,
    changes: &RowChanges,
    late: bool,
    table: TableId,
    column: ColumnNo,
) -> bool
    requires declared { IsTable schema.now table }
    requires column { column.0 < length (spec_of schema.now table).columns }
    ensures { result ≡ is_written_when schema.now changes.now late table column }
{
    let name = &schema.spec(table).columns.at(column.0 as usize).name;
    is_late(schema, changes, table, name) == late
}

/// Puts a cell of a changed row behind others, where it is written then.
fn push_when(
    out: &mut Cells,
    schema: &Schema,
    changes: &RowChanges,
    late: bool,
    table: TableId,
    cell: &(ColumnNo, RowCell),
) -> Result<(), AllocError>
    requires declared { IsTable schema.now table }
    requires column { cell.now.0.0 < length (spec_of schema.now table).columns }
    ensures { OnOk result (out.new ≡ out.old ++ filter
        (λ cell. is_written_when schema.now changes.now late table cell.0) (cell.now ∷ [])) }
{
    if is_written_when(schema, changes, late, table, cell.0) {
        out.push(cell.copied()?)?;
    }
    Ok(())
}

/// The cells of a changed row that are written before, or after, all rows stand.
pub fn cells_when(
    alloc: Global,
    schema: &Schema,
    changes: &RowChanges,
    late: bool,
    row: &ChangedRow,
) -> Result<Writing, AllocError>
    requires { IsInTable schema.now row.now }
    ensures { IfOk result
        (λ writing. writing ≡ cells_when schema.now changes.now late row.now) }
{
    let mut cells = ListOf::new(alloc);
    for cell in row.cells.as_slice() {
        push_when(&mut cells, schema, changes, late, row.name.table, cell)?;
    }
    Ok((place_of_changed(row)?, cells))
}

/// The table and key of a changed row.
pub fn place_of_changed(row: &ChangedRow) -> Result<Place, AllocError>
    ensures { IfOk result (λ place. place ≡ place_of_changed row.now) }
{
    Ok((row.name.table, row.key.copied()?))
}

/// The key of a deleted row.
pub fn gone_key(alloc: Global, schema: &Schema, row: &GoneRow) -> Result<Key, AllocError>
    requires { IsTable schema.now row.now.name.table }
    ensures { IfOk result (λ key. key ≡ gone_key schema.now row.now) }
{
    let mut key = Vec::new(alloc);
    let columns = schema.spec(row.name.table).columns.as_slice();
    push_key(&mut key, columns, row.base.as_slice())?;
    Ok(ListOf::from_vec(key))
}

/// The table and key of a deleted row.
pub fn place_of_gone(alloc: Global, schema: &Schema, row: &GoneRow) -> Result<Place, AllocError>
    requires { IsTable schema.now row.now.name.table }
    ensures { IfOk result (λ place. place ≡ place_of_gone schema.now row.now) }
{
    Ok((row.name.table, gone_key(alloc, schema, row)?))
}

/// Puts the cells other than NULL in the columns that are written after all rows behind others.
pub fn push_late(
    out: &mut Cells,
    schema: &Schema,
    changes: &RowChanges,
    table: TableId,
    number: u32,
    columns: &[ColumnSpec],
    cells: &[RowCell],
) -> Result<(), AllocError>
    requires declared { IsTable schema.now table }
    requires narrow { number + length columns.now ≤ 4294967295 }
    ensures { OnOk result (out.new ≡ out.old
        ++ cells_from_number (is_late schema.now changes.now table) number columns.now cells.now) }
{
    if let (Some((column, columns)), Some((cell, cells))) = (
        columns.split_first(),
        cells.split_first(),
    ) {
        if is_late(schema, changes, table, &column.name) && !is_nothing(cell) {
            out.push((ColumnNo(number), cell.copied()?))?;
        }
        push_late(out, schema, changes, table, number + 1, columns, cells)?;
    }
    Ok(())
}

/// Puts NULL behind others for each cell other than NULL in the columns that are written after all rows.
fn push_gone(
    out: &mut Cells,
    schema: &Schema,
    changes: &RowChanges,
    table: TableId,
    number: u32,
    columns: &[ColumnSpec],
    cells: &[Value],
) -> Result<(), AllocError>
    requires declared { IsTable schema.now table }
    requires narrow { number + length columns.now ≤ 4294967295 }
    ensures { OnOk result (out.new ≡ out.old ++ map (λ cell. (cell.0, Given Null))
        (cells_from_number (is_late schema.now changes.now table) number columns.now
        (map Given cells.now))) }
{
    if let (Some((column, columns)), Some((cell, cells))) = (
        columns.split_first(),
        cells.split_first(),
    ) {
        if is_late(schema, changes, table, &column.name) && !matches!(cell, Value::Null) {
            out.push((ColumnNo(number), RowCell::Given(Value::Null)))?;
        }
        push_gone(out, schema, changes, table, number + 1, columns, cells)?;
    }
    Ok(())
}

#[tactic(auto, using(crate::proofs::WritingSteps::narrow_at))]
/// What of a deleted row is cleared before it is deleted.
pub fn late_gone(
    alloc: Global,
    schema: &Schema,
    changes: &RowChanges,
    row: &GoneRow,
) -> Result<Writing, AllocError>
    requires range { AreInRange schema.now changes.now }
    requires declared { IsTable schema.now row.now.name.table }
    ensures { IfOk result (λ writing. writing ≡ late_gone schema.now changes.now row.now) }
{
    let table = row.name.table;
    let columns = schema.spec(table).columns.as_slice();
    let mut cells = ListOf::new(alloc);
    push_gone(
        &mut cells,
        schema,
        changes,
        table,
        0,
        columns,
        row.base.as_slice(),
    )?;
    Ok((place_of_gone(alloc, schema, row)?, cells))
}

/// Puts values as cells behind others.
fn push_given(out: &mut ListOf<RowCell>, key: &[Value]) -> Result<(), AllocError>
    ensures { OnOk result (out.new ≡ out.old ++ map Given key.now) }
{
    if let Some((value, key)) = key.split_first() {
        out.push(RowCell::Given(value.copied()?))?;
        push_given(out, key)?;
    }
    Ok(())
}

/// The UPDATE that writes these cells.
pub fn update_of(alloc: Global, writing: &Writing) -> Result<Planned, AllocError>
    ensures { IfOk result (λ planned. planned ≡ update_of writing.now) }
{
    let mut key = ListOf::new(alloc);
    push_given(&mut key, writing.0.1.as_slice())?;
    Ok(Planned::Update {
        table: writing.0.0,
        key,
        cells: writing.1.copied()?,
    })
}
