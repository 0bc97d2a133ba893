//! What a flush writes once all rows stand.

ghost use Rattle.std.specs.Prelude.{◌≡◌, ◌<◌, ◌≤◌, ◌+◌, ◌++◌, ◌∷◌, [], true, map, length, slice_index_or, IfOk, OnOk};
ghost use Rattle.std.specs.List.{All, filter, range_with_len};
ghost use Rattle.schema_core.specs.declared.changes.RowCell.TheVariants.{KeyOf};
ghost use Rattle.flush_order.specs.Cells.{key_parts};
ghost use Rattle.flush_plan.specs.Planning.{by_place, is_of, key_at, late_in, late_new, late_old, late_updates, late_updates_of, late_writings, no_writing};
ghost use Rattle.flush_writes.specs.Writes.{cells_when, late_gone, update_of, writing_some};
ghost use Rattle.flush_order.specs.Ready.{AreInRange, AreReady};

use base_core::{Copied, ListOf, TableId};
use flush_order::{NewRows, sorted_numbers};
use flush_writes::{Cells, Place, Writing, cells_when, late_gone, push_late, update_of};
use schema_core::{ColumnSpec, Planned, RowCell, RowChanges, Schema};
use std::alloc::{AllocError, Global};

/// Puts what is written behind others, where some cell is.
fn push_writing(out: &mut Vec<Writing>, writing: Writing) -> Result<(), AllocError>
    ensures { OnOk result (out.new.items
        ≡ out.old.items ++ filter writing_some (writing ∷ [])) }
{
    if !writing.1.is_empty() {
        out.push(writing)?;
    }
    Ok(())
}

/// What is written into changed rows once all rows stand.
fn late_changed(
    alloc: Global,
    schema: &Schema,
    changes: &RowChanges,
) -> Result<Vec<Writing>, AllocError>
    requires { AreInRange schema.now changes.now }
    ensures { IfOk result (λ writings. writings.items
        ≡ filter writing_some (map (cells_when schema.now changes.now true) changes.now.changed)) }
{
    let mut writings = Vec::new(alloc);
    for row in changes.changed.as_slice() {
        push_writing(
            &mut writings,
            cells_when(alloc, schema, changes, true, row)?,
        )?;
    }
    Ok(writings)
}

/// Puts what is cleared in deleted rows behind others.
fn push_late_gone(
    out: &mut Vec<Writing>,
    alloc: Global,
    schema: &Schema,
    changes: &RowChanges,
) -> Result<(), AllocError>
    requires { AreInRange schema.now changes.now }
    ensures { OnOk result (out.new.items ≡ out.old.items
        ++ filter writing_some (map (late_gone schema.now changes.now) changes.now.gone)) }
{
    for row in changes.gone.as_slice() {
        push_writing(out, late_gone(alloc, schema, changes, row)?)?;
    }
    Ok(())
}

/// What is written into old rows once all rows stand.
fn late_writings(
    alloc: Global,
    schema: &Schema,
    changes: &RowChanges,
) -> Result<Vec<Writing>, AllocError>
    requires { AreInRange schema.now changes.now }
    ensures { IfOk result
        (λ writings. writings.items ≡ late_writings schema.now changes.now) }
{
    let mut writings = late_changed(alloc, schema, changes)?;
    push_late_gone(&mut writings, alloc, schema, changes)?;
    Ok(writings)
}

/// The tables and keys of rows that are written.
fn written_places(alloc: Global, writings: &[Writing]) -> Result<Vec<Place>, AllocError>
    ensures { IfOk result
        (λ places. places.items ≡ map (λ row. row.0) writings.now) }
{
    let mut places = Vec::new(alloc);
    for row in writings {
        places.push((row.0.0, row.0.1.copied()?))?;
    }
    Ok(places)
}

/// Puts a copy behind others.
fn push_copy(out: &mut Vec<Writing>, writing: &Writing) -> Result<(), AllocError>
    ensures { OnOk result (out.new.items ≡ out.old.items ++ writing.now ∷ []) }
{
    out.push(writing.copied()?)?;
    Ok(())
}

/// What is written into the rows of these numbers.
fn in_order(
    alloc: Global,
    writings: &ListOf<Writing>,
    numbers: &[u32],
) -> Result<Vec<Writing>, AllocError>
    requires { All (λ number. number < length writings.now) numbers.now }
    ensures { IfOk result (λ sorted. sorted.items
        ≡ map (λ number. slice_index_or writings.now number no_writing) numbers.now) }
{
    let mut sorted = Vec::new(alloc);
    for number in numbers {
        let writing = writings.at(*number as usize);
        push_copy(&mut sorted, writing)?;
    }
    Ok(sorted)
}

#[tactic(auto, using(crate::proofs::LateSteps::place_steps))]
/// What is written into rows, by table and key.
fn by_place(alloc: Global, writings: &ListOf<Writing>) -> Result<Vec<Writing>, AllocError>
    requires { length writings.now ≤ 4294967295 }
    ensures { IfOk result (λ sorted. sorted.items ≡ by_place writings.now) }
{
    let places = written_places(alloc, writings.as_slice())?;
    let numbers = sorted_numbers(alloc, places.as_slice())?;
    in_order(alloc, writings, numbers.as_slice())
}

#[tactic(auto, using(crate::proofs::LateSteps::old_fewer))]
/// What is written into old rows once all rows stand, by table and key.
fn late_old(
    alloc: Global,
    schema: &Schema,
    changes: &RowChanges,
) -> Result<Vec<Writing>, AllocError>
    requires { AreInRange schema.now changes.now }
    ensures { IfOk result (λ writings. writings.items ≡ late_old schema.now changes.now) }
{
    let writings = ListOf::from_vec(late_writings(alloc, schema, changes)?);
    by_place(alloc, &writings)
}

/// Puts the parts of a new row's key behind others.
fn push_parts(
    out: &mut ListOf<RowCell>,
    row: u32,
    part: u32,
    columns: &[ColumnSpec],
    cells: &[RowCell],
) -> Result<(), AllocError>
    requires { part + length columns.now ≤ 4294967295 }
    ensures { OnOk result (out.new ≡ out.old ++ map (KeyOf row)
        (range_with_len part (length (key_parts columns.now cells.now)))) }
{
    if let (Some((column, columns)), Some((_cell, cells))) = (
        columns.split_first(),
        cells.split_first(),
    ) {
        if column.key {
            out.push(RowCell::KeyOf(row, part))?;
            return push_parts(out, row, part + 1, columns, cells);
        }
        return push_parts(out, row, part, columns, cells);
    }
    Ok(())
}

#[tactic(auto, using(flush_writes::proofs::WritingSteps::narrow_at))]
/// The parts of a new row's key.
fn key_at(new: &NewRows, alloc: Global, row: u32) -> Result<ListOf<RowCell>, AllocError>
    requires ready { AreReady new.now.schema.now new.now.changes.now new.now.rows.now }
    requires range { AreInRange new.now.schema.now new.now.changes.now }
    requires within { row < length new.now.rows.now }
    ensures { IfOk result
        (λ key. key ≡ key_at new.now.schema.now new.now.changes.now row) }
{
    let ready = new.at(row);
    let mut key = ListOf::new(alloc);
    let columns = new.schema.spec(ready.table).columns.as_slice();
    push_parts(&mut key, row, 0, columns, ready.first.as_slice())?;
    Ok(key)
}

#[tactic(auto, using(flush_writes::proofs::WritingSteps::narrow_at, flush_order::proofs::ReadyLemmas::new_is))]
/// What is written into a new row once all rows stand.
fn late_new(new: &NewRows, alloc: Global, row: u32) -> Result<Cells, AllocError>
    requires ready { AreReady new.now.schema.now new.now.changes.now new.now.rows.now }
    requires range { AreInRange new.now.schema.now new.now.changes.now }
    requires within { row < length new.now.rows.now }
    ensures { IfOk result
        (λ cells. cells ≡ late_new new.now.schema.now new.now.changes.now row) }
{
    let table = new.at(row).table;
    let columns = new.schema.spec(table).columns.as_slice();
    let cells = new.changes.fresh.at(row as usize).cells.as_slice();
    let mut late = ListOf::new(alloc);
    push_late(&mut late, new.schema, new.changes, table, 0, columns, cells)?;
    Ok(late)
}

/// Puts the UPDATE that is due to a new row once all rows stand behind others, where it is of this table and writes
/// some cell.
fn push_late_new(
    new: &NewRows,
    out: &mut Vec<Planned>,
    alloc: Global,
    table: TableId,
    row: u32,
) -> Result<(), AllocError>
    requires ready { AreReady new.now.schema.now new.now.changes.now new.now.rows.now }
    requires range { AreInRange new.now.schema.now new.now.changes.now }
    requires within { row < length new.now.rows.now }
    ensures { OnOk result (out.new.items ≡ out.old.items
        ++ late_updates_of new.now.schema.now new.now.changes.now table (row ∷ [])) }
{
    if new.at(row).table.0 != table.0 {
        return Ok(());
    }
    let cells = late_new(new, alloc, row)?;
    if cells.is_empty() {
        return Ok(());
    }
    let key = key_at(new, alloc, row)?;
    out.push(Planned::Update { table, key, cells })?;
    Ok(())
}

/// Puts what is written into new rows of a table once all rows stand behind others, in this order.
fn push_all_late_new(
    new: &NewRows,
    out: &mut Vec<Planned>,
    alloc: Global,
    table: TableId,
    order: &[u32],
) -> Result<(), AllocError>
    requires ready { AreReady new.now.schema.now new.now.changes.now new.now.rows.now }
    requires range { AreInRange new.now.schema.now new.now.changes.now }
    requires within { All (λ row. row < length new.now.rows.now) order.now }
    ensures { OnOk result (out.new.items ≡ out.old.items
        ++ late_updates_of new.now.schema.now new.now.changes.now table order.now) }
{
    for row in order {
        push_late_new(new, out, alloc, table, *row)?;
    }
    Ok(())
}

/// Puts what is written into an old row behind others, where it is of this table.
fn push_late_old_one(
    out: &mut Vec<Planned>,
    alloc: Global,
    table: TableId,
    writing: &Writing,
) -> Result<(), AllocError>
    ensures { OnOk result (out.new.items ≡ out.old.items
        ++ map update_of (filter (λ row. is_of table row.0.0) (writing.now ∷ []))) }
{
    if writing.0.0.0 == table.0 {
        out.push(update_of(alloc, writing)?)?;
    }
    Ok(())
}

/// Puts what is written into old rows of a table behind others.
fn push_late_old(
    out: &mut Vec<Planned>,
    alloc: Global,
    table: TableId,
    writings: &[Writing],
) -> Result<(), AllocError>
    ensures { OnOk result (out.new.items ≡ out.old.items
        ++ map update_of (filter (λ row. is_of table row.0.0) writings.now)) }
{
    for writing in writings {
        push_late_old_one(out, alloc, table, writing)?;
    }
    Ok(())
}

/// Puts what is written in one table once all rows stand behind others.
fn push_table(
    new: &NewRows,
    out: &mut Vec<Planned>,
    alloc: Global,
    table: TableId,
    order: &[u32],
    old: &[Writing],
) -> Result<(), AllocError>
    requires ready { AreReady new.now.schema.now new.now.changes.now new.now.rows.now }
    requires range { AreInRange new.now.schema.now new.now.changes.now }
    requires within { All (λ row. row < length new.now.rows.now) order.now }
    requires old { old.now ≡ late_old new.now.schema.now new.now.changes.now }
    ensures { OnOk result (out.new.items ≡ out.old.items
        ++ late_in new.now.schema.now new.now.changes.now order.now table) }
{
    push_all_late_new(new, out, alloc, table, order)?;
    push_late_old(out, alloc, table, old)?;
    Ok(())
}

#[tactic(auto, using(crate::proofs::LateSteps::late_end))]
/// What is written once all rows stand, table by table: into new rows in this order, and then into the others by key.
pub fn late_updates(new: &NewRows, alloc: Global, order: &[u32]) -> Result<Vec<Planned>, AllocError>
    requires ready { AreReady new.now.schema.now new.now.changes.now new.now.rows.now }
    requires range { AreInRange new.now.schema.now new.now.changes.now }
    requires within { All (λ row. row < length new.now.rows.now) order.now }
    ensures { IfOk result (λ statements. statements.items
        ≡ late_updates new.now.schema.now new.now.changes.now order.now) }
{
    let old = late_old(alloc, new.schema, new.changes)?;
    let mut statements = Vec::new(alloc);
    for number in 0..new.schema.count() {
        push_table(
            new,
            &mut statements,
            alloc,
            TableId(number),
            order,
            old.as_slice(),
        )?;
    }
    Ok(statements)
}
