//! Cells that a bulk statement writes.

ghost use Rattle.std.specs.Prelude.{◌≡◌, [], ◌∷◌, length, replicate, IfOk};
ghost use Rattle.base_core.specs.declared.value.Value.TheVariants.{Null};
ghost use Rattle.schema_core.specs.Apply.{with_cells};
ghost use Rattle.sql_semantics.specs.Checked.{Gives};
ghost use Rattle.expr_eval.specs.Place.{place_of};
ghost use Rattle.table_rows.specs.Lent.{seen};
ghost use Rattle.sql_semantics.specs.Taken as spec;

use base_core::{ColumnNo, Copied, ListOf, Refusal, RowValues, Value};
use expr_eval::{Scope, value_in};
use expr_types::Expr;
use std::alloc::{AllocError, Global};
use table_rows::LentTables;

/// The scope of a row of the table, which alone is in scope.
pub(crate) fn scope_at<'x>(starts: &'x [u32], tables: LentTables<'x>, row: &'x [Value]) -> Scope<'x>
    requires { starts.now ≡ 0 ∷ [] }
    ensures { place_of result ≡ spec.at (seen tables.entry) row.now }
{
    Scope {
        row,
        starts,
        tables,
        group: None,
    }
}

/// What is written into a column: NULL, or the value of an expression at the row as it was.
fn value_for(
    alloc: Global,
    tables: LentTables<'_>,
    row: &[Value],
    written: &Option<Expr>,
) -> Result<Value, Refusal>
    ensures { Gives (λ x. x) result (spec.value_for (seen tables.entry) row.now written.now) }
{
    match written {
        Some(e) => value_in(alloc, e, &scope_at(&[0], tables, row)),
        None => Ok(Value::Null),
    }
}

/// The cells that are written.
fn cells(
    alloc: Global,
    tables: LentTables<'_>,
    row: &[Value],
    written: &[(ColumnNo, Option<Expr>)],
) -> Result<Vec<(ColumnNo, Value)>, Refusal>
    ensures { Gives (λ v. v.items) result
        (spec.cells_from (seen tables.entry) row.now [] written.now) }
{
    let mut cells = Vec::new(alloc);
    for cell in written {
        let value = value_for(alloc, tables, row, &cell.1)?;
        cells.push((cell.0, value))?;
    }
    Ok(cells)
}

/// The row with cells written. A column that is not there is passed over.
fn with_cells(row: Vec<Value>, written: &[(ColumnNo, Value)]) -> Result<RowValues, AllocError>
    ensures { IfOk result (λ wide. wide ≡ with_cells row.items written.now) }
{
    let mut row = row;
    for (column, value) in written {
        let place = column.0 as usize;
        if place < row.len() {
            row[place] = value.copied()?;
        }
    }
    Ok(ListOf::from_vec(row))
}

/// The row with the values of the expressions in their columns.
pub(crate) fn rewritten(
    alloc: Global,
    tables: LentTables<'_>,
    row: &RowValues,
    written: &[(ColumnNo, Option<Expr>)],
) -> Result<RowValues, Refusal>
    ensures { Gives (λ x. x) result (spec.rewritten_row (seen tables.entry) written.now row.now) }
{
    let cells = cells(alloc, tables, row.as_slice(), written)?;
    Ok(with_cells(row.copied()?.into_vec(), &cells)?)
}

/// A row of so many columns that are NULL.
fn nulls(alloc: Global, width: usize) -> Result<Vec<Value>, AllocError>
    ensures { IfOk result (λ row. row.items ≡ replicate width Null) }
{
    let mut row = Vec::new(alloc);
    for _ in 0..width {
        row.push(Value::Null)?;
    }
    Ok(row)
}

/// Each column with its value.
#[tactic(auto, using(crate::proofs::Pairs::pairs))]
fn paired(
    alloc: Global,
    columns: &[ColumnNo],
    values: &[Value],
) -> Result<Vec<(ColumnNo, Value)>, AllocError>
    requires { length columns.now ≡ length values.now }
    ensures { IfOk result (λ cells. cells.items ≡ spec.column_values columns.now values.now) }
{
    let mut cells = Vec::new(alloc);
    for place in 0..columns.len() {
        cells.push((columns[place], values[place].copied()?))?;
    }
    Ok(cells)
}

/// The row of so many columns that an INSERT puts in: the values in their columns, NULL in the others. The only error is
/// out of memory.
pub fn inserted(
    alloc: Global,
    width: usize,
    columns: &ListOf<ColumnNo>,
    values: &RowValues,
) -> Result<RowValues, AllocError>
    requires { length columns.now ≡ length values.now }
    ensures { IfOk result (λ row. row ≡ spec.inserted_row width columns.now values.now) }
{
    let cells = paired(alloc, columns.as_slice(), values.as_slice())?;
    with_cells(nulls(alloc, width)?, &cells)
}
