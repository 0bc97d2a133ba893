//! New rows made ready for the search of their order.

ghost use Rattle.std.specs.Prelude.{◌≡◌, ◌<◌, ◌++◌, length, map, IfOk, IfErr, OnOk};
ghost use Rattle.std.specs.Option.{option_copied};
ghost use Rattle.base_core.specs.declared.refusal.Refusal.TheVariants.{Memory};
ghost use Rattle.schema_core.specs.Catalog.{IsTable, spec_of};
ghost use Rattle.schema_core.specs.Tables.{key_cells, value_or_null};
ghost use Rattle.flush_order.specs.Cells.{first_cells, known_value, known_row, part_at, table_at};
ghost use Rattle.flush_order.specs.Ready.{AreFirst, AreInRange, AreReady, ready_row};
ghost use Rattle.flush_order.specs.Told.{held_cell};

use crate::ReadyRow;
use crate::cells::{part_of, push_cleared, push_copy, push_value};
use base_core::{Copied, ListOf, Refusal, Value};
use schema_core::{ColumnSpec, RowCell, RowChanges, Schema};
use std::alloc::{AllocError, Global};

#[tactic(auto, using(crate::proofs::ReadyLemmas::new_is))]
/// The cells that the INSERT of a new row writes.
fn first_cells(
    alloc: Global,
    schema: &Schema,
    changes: &RowChanges,
    place: usize,
) -> Result<ListOf<RowCell>, AllocError>
    requires within { place < length changes.now.fresh }
    requires declared { IsTable schema.now (table_at changes.now place) }
    ensures { IfOk result (λ cells. cells ≡ first_cells schema.now changes.now place) }
{
    let row = changes.fresh.at(place);
    let table = row.name.table;
    let mut cells = Vec::new(alloc);
    push_cleared(
        &mut cells,
        schema,
        changes,
        table,
        &RowCell::Given(Value::Null),
        schema.spec(table).columns.as_slice(),
        row.cells.as_slice(),
    )?;
    Ok(ListOf::from_vec(cells))
}

#[tactic(auto, using(row_order::proofs::Pushing::push_steps))]
/// The cells that each INSERT writes.
fn all_first(
    alloc: Global,
    schema: &Schema,
    changes: &RowChanges,
) -> Result<Vec<ListOf<RowCell>>, AllocError>
    requires { AreInRange schema.now changes.now }
    ensures { IfOk result (λ firsts. AreFirst schema.now changes.now firsts.items) }
{
    let mut firsts = Vec::new(alloc);
    for place in 0..changes.fresh.len() {
        firsts.push(first_cells(alloc, schema, changes, place)?)?;
    }
    Ok(firsts)
}

#[tactic(auto, using(crate::proofs::ReadyLemmas::part_steps))]
/// The part of a new row's key; none where there is no such part.
fn part_at<'a>(
    schema: &Schema,
    changes: &RowChanges,
    firsts: &'a [ListOf<RowCell>],
    place: u32,
    part: u32,
) -> Option<&'a RowCell>
    requires range { AreInRange schema.now changes.now }
    requires firsts { AreFirst schema.now changes.now firsts.now }
    ensures { held_cell (option_copied result) ≡ part_at schema.now changes.now place part }
{
    if place as usize >= firsts.len() {
        return None;
    }
    let table = changes.fresh.at(place as usize).name.table;
    part_of(
        schema.spec(table).columns.as_slice(),
        firsts[place as usize].as_slice(),
        part,
    )
}

#[tactic(auto, using(crate::proofs::ReadyLemmas::known_steps))]
/// The value of a cell as far as it is known.
fn known_value<'a>(
    schema: &Schema,
    changes: &RowChanges,
    firsts: &'a [ListOf<RowCell>],
    start: &'a RowCell,
) -> Option<&'a Value>
    requires range { AreInRange schema.now changes.now }
    requires firsts { AreFirst schema.now changes.now firsts.now }
    ensures { value_or_null (option_copied result)
        ≡ known_value schema.now changes.now (length changes.now.fresh) start.now }
{
    let mut cell = start;
    for _step in 0..changes.fresh.len() {
        match cell {
            RowCell::Given(value) => return Some(value),
            RowCell::KeyOf(place, part) => {
                match part_at(schema, changes, firsts, *place, *part) {
                    Some(next) => cell = next,
                    None => return None,
                }
            }
        }
    }
    match cell {
        RowCell::Given(value) => Some(value),
        RowCell::KeyOf(_, _) => None,
    }
}

/// Puts the values of cells, as far as they are known, behind others.
fn push_known(
    out: &mut Vec<Value>,
    schema: &Schema,
    changes: &RowChanges,
    firsts: &[ListOf<RowCell>],
    cells: &[RowCell],
) -> Result<(), AllocError>
    requires range { AreInRange schema.now changes.now }
    requires firsts { AreFirst schema.now changes.now firsts.now }
    ensures { OnOk result (out.new.items ≡ out.old.items
        ++ map (known_value schema.now changes.now (length changes.now.fresh)) cells.now) }
{
    let Some((cell, cells)) = cells.split_first() else {
        return Ok(());
    };
    push_value(out, known_value(schema, changes, firsts, cell))?;
    push_known(out, schema, changes, firsts, cells)
}

/// Puts the cells of the primary key behind others.
pub fn push_key(
    out: &mut Vec<Value>,
    columns: &[ColumnSpec],
    row: &[Value],
) -> Result<(), AllocError>
    ensures { OnOk result (out.new.items ≡ out.old.items ++ key_cells columns.now row.now) }
{
    let (Some((column, columns)), Some((cell, row))) = (columns.split_first(), row.split_first())
    else {
        return Ok(());
    };
    if column.key {
        push_copy(out, cell)?;
    }
    push_key(out, columns, row)
}

/// A new row made ready.
fn ready_row(
    alloc: Global,
    schema: &Schema,
    changes: &RowChanges,
    firsts: &[ListOf<RowCell>],
    place: usize,
) -> Result<ReadyRow, AllocError>
    requires range { AreInRange schema.now changes.now }
    requires firsts { AreFirst schema.now changes.now firsts.now }
    requires within { place < length changes.now.fresh }
    ensures { IfOk result (λ row. row ≡ ready_row schema.now changes.now place) }
{
    let table = changes.fresh.at(place).name.table;
    let first = &firsts[place];
    let mut known = Vec::new(alloc);
    push_known(&mut known, schema, changes, firsts, first.as_slice())?;
    let mut key = Vec::new(alloc);
    push_key(
        &mut key,
        schema.spec(table).columns.as_slice(),
        known.as_slice(),
    )?;
    Ok(ReadyRow {
        table,
        first: first.copied()?,
        known: ListOf::from_vec(known),
        key: ListOf::from_vec(key),
    })
}

#[tactic(auto, using(row_order::proofs::Pushing::push_steps))]
/// All new rows made ready.
pub fn ready_rows(
    alloc: Global,
    schema: &Schema,
    changes: &RowChanges,
) -> Result<Vec<ReadyRow>, AllocError>
    requires { AreInRange schema.now changes.now }
    ensures { IfOk result (λ rows. AreReady schema.now changes.now rows.items) }
{
    let firsts = all_first(alloc, schema, changes)?;
    let mut rows = Vec::new(alloc);
    for place in 0..changes.fresh.len() {
        rows.push(ready_row(alloc, schema, changes, firsts.as_slice(), place)?)?;
    }
    Ok(rows)
}
