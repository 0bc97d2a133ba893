//! The INSERTs of a flush: new rows in their order, cut into runs.

ghost use Rattle.std.specs.Prelude.{◌≡◌, ◌<◌, ◌++◌, ◌-◌, ◌*◌, [], ◌∷◌, ℕ, List, cond, map, not, suc, length, nat_lt, IfOk, OnOk};
ghost use Rattle.std.specs.List.{All, list_all, list_any};
ghost use Rattle.flush_order.specs.Cells.{key_parts, table_at};
ghost use Rattle.flush_writes.specs.Writes.{insert_run};
ghost use Rattle.flush_order.specs.Ready.{AreReady};
ghost use Rattle.flush_writes.specs.Runs.{runs_from, nonempty_run, goes_with, is_nothing, joins, leaves_key, runs, width};

use base_core::{ListOf, TableId, Value};
use flush_order::NewRows;
use row_order::Waits;
use schema_core::{ColumnSpec, Planned, RowCell, RowChanges};
use std::alloc::{AllocError, Global};

/// Whether a cell is NULL.
pub fn is_nothing(cell: &RowCell) -> bool
    ensures { result ≡ is_nothing cell.now }
{
    matches!(cell, RowCell::Given(Value::Null))
}

/// Whether a cell of the primary key is NULL.
fn some_nothing(columns: &[ColumnSpec], cells: &[RowCell]) -> bool
    ensures { result ≡ list_any is_nothing (key_parts columns.now cells.now) }
{
    let (Some((column, columns)), Some((cell, cells))) = (
        columns.split_first(),
        cells.split_first(),
    ) else {
        return false;
    };
    (column.key && is_nothing(cell)) || some_nothing(columns, cells)
}

/// Whether an INSERT may carry so many rows of so many values each.
fn is_within(rows: usize, width: usize) -> bool
    requires { rows < 1000 }
    ensures { result ≡ not (nat_lt 32700 (suc rows * width)) }
{
    width <= 32700 && (rows + 1) * width <= 32700
}

#[tactic(auto, using(flush_order::proofs::ReadyLemmas::new_is))]
/// The table of a new row.
fn table_at(changes: &RowChanges, row: u32) -> TableId
    requires { row < length changes.now.fresh }
    ensures { result ≡ table_at changes.now row }
{
    changes.fresh.at(row as usize).name.table
}

/// Puts the INSERT of a run that ends behind others, where it has begun.
fn push_run(
    out: &mut Vec<Planned>,
    alloc: Global,
    changes: &RowChanges,
    run: &[u32],
) -> Result<(), AllocError>
    requires { All (λ row. row < length changes.now.fresh) run.now }
    ensures { OnOk result (out.new.items
        ≡ out.old.items ++ map (insert_run changes.now) (nonempty_run run.now)) }
{
    if let Some((first, _rest)) = run.split_first() {
        let table = table_at(changes, *first);
        let places = ListOf::from_vec(run.to_vec(alloc)?);
        out.push(Planned::Insert { table, places })?;
    }
    Ok(())
}

/// Whether the key of a new row is generated.
fn leaves_key(new: &NewRows, row: u32) -> bool
    requires ready { AreReady new.now.schema.now new.now.changes.now new.now.rows.now }
    requires within { row < length new.now.rows.now }
    ensures { result ≡ leaves_key new.now.schema.now new.now.changes.now row }
{
    let ready = new.at(row);
    let columns = new.schema.spec(ready.table).columns.as_slice();
    new.schema.generated(ready.table) && some_nothing(columns, ready.first.as_slice())
}

/// How many columns the INSERT of a new row writes.
fn width(new: &NewRows, row: u32) -> usize
    requires ready { AreReady new.now.schema.now new.now.changes.now new.now.rows.now }
    requires within { row < length new.now.rows.now }
    ensures { result ≡ width new.now.schema.now new.now.changes.now row }
{
    let columns = new.schema.spec(new.at(row).table).columns.len();
    if leaves_key(new, row) {
        columns.saturating_sub(1)
    } else {
        columns
    }
}

/// Whether one INSERT can carry two rows, of which the second stands first.
fn goes_with(new: &NewRows, row: u32, other: u32) -> bool
    requires ready { AreReady new.now.schema.now new.now.changes.now new.now.rows.now }
    requires row { row < length new.now.rows.now }
    requires other { other < length new.now.rows.now }
    ensures { result ≡ goes_with new.now.schema.now new.now.changes.now row other }
{
    new.at(other).table.0 == new.at(row).table.0
        && leaves_key(new, other) == leaves_key(new, row)
        && !new.waits(row, other)
}

#[tactic(auto, using(crate::proofs::RunSteps::all_steps))]
/// Whether it can carry a row with all of these.
fn goes_with_all(new: &NewRows, run: &[u32], row: u32) -> bool
    requires ready { AreReady new.now.schema.now new.now.changes.now new.now.rows.now }
    requires run { All (λ other. other < length new.now.rows.now) run.now }
    requires row { row < length new.now.rows.now }
    ensures { result
        ≡ list_all (goes_with new.now.schema.now new.now.changes.now row) run.now }
{
    for other in run {
        if !goes_with(new, row, *other) {
            return false;
        }
    }
    true
}

/// Whether a row can stand behind these in one INSERT.
fn joins(new: &NewRows, run: &[u32], row: u32) -> bool
    requires ready { AreReady new.now.schema.now new.now.changes.now new.now.rows.now }
    requires run { All (λ other. other < length new.now.rows.now) run.now }
    requires row { row < length new.now.rows.now }
    ensures { result ≡ joins new.now.schema.now new.now.changes.now run.now row }
{
    let width = width(new, row);
    run.len() < 1000 && width > 0 && is_within(run.len(), width) && goes_with_all(new, run, row)
}

#[tactic(auto, using(crate::proofs::RunSteps::take_steps))]
/// The next row goes into the run, or ends it and begins another.
fn take_row(
    new: &NewRows,
    alloc: Global,
    statements: &mut Vec<Planned>,
    run: &mut Vec<u32>,
    row: u32,
) -> Result<(), AllocError>
    requires ready { AreReady new.now.schema.now new.now.changes.now new.now.rows.now }
    requires run { All (λ other. other < length new.now.rows.now) run.old.items }
    requires row { row < length new.now.rows.now }
    ensures cut { OnOk result ((rest : List ℕ) → statements.new.items
        ++ map (insert_run new.now.changes.now)
        (runs_from new.now.schema.now new.now.changes.now run.new.items rest)
        ≡ statements.old.items ++ map (insert_run new.now.changes.now)
        (runs_from new.now.schema.now new.now.changes.now run.old.items (row ∷ rest))) }
    ensures within { OnOk result
        (All (λ other. other < length new.now.rows.now) run.new.items) }
{
    if !joins(new, run.as_slice(), row) {
        push_run(statements, alloc, new.changes, run.as_slice())?;
        run.clear();
    }
    run.push(row)?;
    Ok(())
}

#[tactic(auto, using(crate::proofs::RunSteps::cut_steps))]
/// The INSERTs of rows in this order.
pub fn inserts(new: &NewRows, alloc: Global, order: &[u32]) -> Result<Vec<Planned>, AllocError>
    requires ready { AreReady new.now.schema.now new.now.changes.now new.now.rows.now }
    requires within { All (λ row. row < length new.now.rows.now) order.now }
    ensures { IfOk result (λ statements. statements.items
        ≡ map (insert_run new.now.changes.now)
        (runs new.now.schema.now new.now.changes.now order.now)) }
{
    let mut statements = Vec::new(alloc);
    let mut run = Vec::new(alloc);
    for row in order {
        take_row(new, alloc, &mut statements, &mut run, *row)?;
    }
    push_run(&mut statements, alloc, new.changes, run.as_slice())?;
    Ok(statements)
}
