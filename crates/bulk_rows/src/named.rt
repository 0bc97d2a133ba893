//! Tables in the expressions of a bulk statement.

ghost use Rattle.std.specs.Prelude.{◌≡◌, ◌++◌, map, OnOk};
ghost use Rattle.table_rows.specs.Lent.{seen};
ghost use Rattle.sql_semantics.specs.Checked.{Gives};
ghost use Rattle.sql_semantics.specs.Rows.{require_created, flat, named_where};
ghost use Rattle.sql_semantics.specs.Applied as spec;

use base_core::{ColumnNo, ListOf, Refusal};
use expr_types::Expr;
use select_rows::{created, named};
use std::alloc::{AllocError, Global};
use table_rows::LentTables;

fn of_expression(e: &Option<Expr>, found: &mut Vec<u32>) -> Result<(), AllocError>
    ensures { OnOk result (found.new.items ≡ found.old.items ++ named_where e.now) }
{
    match e {
        Some(e) => named(e, found),
        None => Ok(()),
    }
}

#[tactic(auto, using(crate::proofs::Behind::all_named))]
fn of_cells(cells: &[(ColumnNo, Option<Expr>)], found: &mut Vec<u32>) -> Result<(), AllocError>
    ensures { OnOk result (found.new.items
        ≡ found.old.items ++ flat (map (λ cell. named_where cell.1) cells.now)) }
{
    for cell in cells {
        of_expression(&cell.1, found)?;
    }
    Ok(())
}

/// The first table of an `exists` that is not among the tables is refused: of the expressions that are written, in order,
/// and then of the condition.
///
/// # Errors
/// `OperationalError` with that table; out of memory.
#[tactic(auto, using(crate::proofs::Behind::all_named))]
pub fn all_created(
    alloc: Global,
    tables: LentTables<'_>,
    cells: &[(ColumnNo, Option<Expr>)],
    filter: &Option<Expr>,
) -> Result<(), Refusal>
    ensures { Gives (λ x. x) result
        (require_created (seen tables.entry) (spec.named_in cells.now filter.now)) }
{
    let mut found = Vec::new(alloc);
    of_cells(cells, &mut found)?;
    of_expression(filter, &mut found)?;
    created(tables, &found)
}
