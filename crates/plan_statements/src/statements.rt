//! The statements of a plan with the keys of new rows put in.

ghost use Rattle.std.specs.Prelude.{◌≡◌, ◌<◌, ◌++◌, length, map, IfOk, IfSome, OnOk};
ghost use Rattle.std.specs.List.{All, list_all};
ghost use Rattle.std.specs.Option.{IsSome};
ghost use Rattle.base_core.specs.declared.value.Value.TheVariants.{Null};
ghost use Rattle.schema_core.specs.declared.changes.RowCell.TheVariants.{Given};
ghost use Rattle.schema_core.specs.Catalog.{IsTable};
ghost use Rattle.schema_core.specs.WellFormed.{IsWellFormed};
ghost use Rattle.flush_order.specs.Cells.{cells_cleared, is_late, table_at};
ghost use Rattle.flush_plan.specs.Flushing.{row_sent, statement_sent, table_of, value_of_cell};
ghost use Rattle.plan_statements.specs.Known.{IsOfRows, IsPlaceOf, is_of_rows, is_place_of, is_sendable, keys_at, statement_if};

use crate::keys::value_of_cell;
use base_core::{ColumnNo, Copied, Key, ListOf, RowList, RowValues, TableId, Value};
use flush_order::is_late;
use schema_core::{ColumnSpec, Planned, RowCell, RowChanges, RowStmt, Schema, is_well_formed};
use std::alloc::{AllocError, Global};

/// The table of a statement of a plan.
pub fn table_of(planned: &Planned) -> TableId
    ensures { result ≡ table_of planned.now }
{
    match planned {
        Planned::Insert { table, .. }
        | Planned::Update { table, .. }
        | Planned::Remove { table, .. } => *table,
    }
}

/// Puts the values of a row's cells behind others, with NULL in the columns that are written after all rows.
fn push_values(
    out: &mut RowValues,
    schema: &Schema,
    changes: &RowChanges,
    known: &ListOf<Key>,
    table: TableId,
    columns: &[ColumnSpec],
    cells: &[RowCell],
) -> Result<(), AllocError>
    requires { IsTable schema.now table }
    ensures { OnOk result (out.new ≡ out.old ++ map (value_of_cell (keys_at known.now))
        (cells_cleared (is_late schema.now changes.now table) (Given Null) columns.now cells.now)) }
{
    if let (Some((column, columns)), Some((cell, cells))) = (
        columns.split_first(),
        cells.split_first(),
    ) {
        if is_late(schema, changes, table, &column.name) {
            out.push(Value::Null)?;
        } else {
            out.push(value_of_cell(known, cell)?)?;
        }
        push_values(out, schema, changes, known, table, columns, cells)?;
    }
    Ok(())
}

#[tactic(auto, using(flush_order::proofs::ReadyLemmas::new_is))]
/// The row that the INSERT of a new row writes.
fn row_sent(
    alloc: Global,
    schema: &Schema,
    changes: &RowChanges,
    known: &ListOf<Key>,
    place: u32,
) -> Result<RowValues, AllocError>
    requires within { place < length changes.now.fresh }
    requires declared { IsTable schema.now (table_at changes.now place) }
    ensures { IfOk result
        (λ row. row ≡ row_sent schema.now changes.now (keys_at known.now) place) }
{
    let fresh = changes.fresh.at(place as usize);
    let table = fresh.name.table;
    let columns = schema.spec(table).columns.as_slice();
    let mut row = ListOf::new(alloc);
    push_values(
        &mut row,
        schema,
        changes,
        known,
        table,
        columns,
        fresh.cells.as_slice(),
    )?;
    Ok(row)
}

/// The rows that an INSERT of new rows of a table writes.
fn rows_sent(
    alloc: Global,
    schema: &Schema,
    changes: &RowChanges,
    known: &ListOf<Key>,
    table: TableId,
    places: &[u32],
) -> Result<RowList, AllocError>
    requires declared { IsTable schema.now table }
    requires places { All (IsPlaceOf changes.now table) places.now }
    ensures { IfOk result
        (λ rows. rows ≡ map (row_sent schema.now changes.now (keys_at known.now)) places.now) }
{
    let mut rows = ListOf::new(alloc);
    for place in places {
        rows.push(row_sent(alloc, schema, changes, known, *place)?)?;
    }
    Ok(rows)
}

/// What cells hold by the keys that are known.
fn values_sent(
    alloc: Global,
    known: &ListOf<Key>,
    cells: &[RowCell],
) -> Result<RowValues, AllocError>
    ensures { IfOk result
        (λ values. values ≡ map (value_of_cell (keys_at known.now)) cells.now) }
{
    let mut values = ListOf::new(alloc);
    for cell in cells {
        values.push(value_of_cell(known, cell)?)?;
    }
    Ok(values)
}

/// Cells with their columns, by the keys that are known.
fn cells_sent(
    alloc: Global,
    known: &ListOf<Key>,
    cells: &[(ColumnNo, RowCell)],
) -> Result<ListOf<(ColumnNo, Value)>, AllocError>
    ensures { IfOk result (λ sent. sent
        ≡ map (λ cell. (cell.0, value_of_cell (keys_at known.now) cell.1)) cells.now) }
{
    let mut sent = ListOf::new(alloc);
    for cell in cells {
        sent.push((cell.0, value_of_cell(known, &cell.1)?))?;
    }
    Ok(sent)
}

/// A statement of a plan with the keys of new rows put in, as far as they are known.
fn statement_sent(
    alloc: Global,
    schema: &Schema,
    changes: &RowChanges,
    known: &ListOf<Key>,
    planned: &Planned,
) -> Result<RowStmt, AllocError>
    requires { IsOfRows schema.now changes.now planned.now }
    ensures { IfOk result (λ statement. statement
        ≡ statement_sent schema.now changes.now (keys_at known.now) planned.now) }
{
    match planned {
        Planned::Insert { table, places } => Ok(RowStmt::Insert {
            table: *table,
            rows: rows_sent(alloc, schema, changes, known, *table, places.as_slice())?,
        }),
        Planned::Update { table, key, cells } => Ok(RowStmt::Update {
            table: *table,
            key: values_sent(alloc, known, key.as_slice())?,
            cells: cells_sent(alloc, known, cells.as_slice())?,
        }),
        Planned::Remove { table, key } => Ok(RowStmt::Delete {
            table: *table,
            key: key.copied()?,
        }),
    }
}

/// Whether a place is of a new row of a table.
#[tactic(auto, using(flush_order::proofs::ReadyLemmas::new_is, std::proofs::lemmas::Bool::Decides::nat_tests))]
fn is_place_of(changes: &RowChanges, table: TableId, place: u32) -> bool
    ensures { result ≡ is_place_of changes.now table place }
{
    if place as usize >= changes.fresh.len() {
        return false;
    }
    changes.fresh.at(place as usize).name.table.0 == table.0
}

/// Whether all places are of new rows of a table.
fn are_places_of(changes: &RowChanges, table: TableId, places: &[u32]) -> bool
    ensures { result ≡ list_all (is_place_of changes.now table) places.now }
{
    places
        .iter()
        .all(|place| is_place_of(changes, table, *place))
}

/// Whether an INSERT of new rows is of a declared table, and of new rows of it.
#[tactic(auto, using(std::proofs::lemmas::Bool::Decides::nat_tests))]
fn is_of_rows(schema: &Schema, changes: &RowChanges, planned: &Planned) -> bool
    ensures { result ≡ is_of_rows schema.now changes.now planned.now }
{
    match planned {
        Planned::Insert { table, places } => {
            table.0 < schema.count() && are_places_of(changes, *table, places.as_slice())
        }
        Planned::Update { .. } | Planned::Remove { .. } => true,
    }
}

/// A statement of a plan with the keys of new rows put in, as far as they are known; none where it is an INSERT of other than
/// new rows of its table, or is not well formed.
pub fn fitting_statement(
    alloc: Global,
    schema: &Schema,
    changes: &RowChanges,
    known: &ListOf<Key>,
    planned: &Planned,
) -> Result<Option<RowStmt>, AllocError>
    ensures found { IfOk result (λ found. found
        ≡ statement_if (is_sendable schema.now changes.now (keys_at known.now) planned.now)
        (statement_sent schema.now changes.now (keys_at known.now) planned.now)) }
    ensures fits { IfOk result (λ found. IfSome found (IsWellFormed schema.now)) }
    ensures rows { IfOk result (λ found. IsSome found → IsOfRows schema.now changes.now planned.now) }
{
    if !is_of_rows(schema, changes, planned) {
        return Ok(None);
    }
    let statement = statement_sent(alloc, schema, changes, known, planned)?;
    if !is_well_formed(schema, &statement) {
        return Ok(None);
    }
    Ok(Some(statement))
}
