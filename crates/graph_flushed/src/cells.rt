//! Cells that hold what their rows hold, and expired ones.

ghost use Rattle.std.specs.Prelude.{◌≡◌, map, Some, IfOk, IsTrue};
ghost use Rattle.graph_flushed.specs.Flushed as spec;

use base_core::{Copied, ListOf, Value, compare};
use object_arena::Cell;
use std::alloc::{AllocError, Global};

/// A cell that holds what its row holds.
pub fn held_cell(value: Value) -> Result<Cell, AllocError>
    ensures { IfOk result (λ cell. cell ≡ spec.held_cell value) }
{
    let base = value.copied()?;
    Ok(Cell {
        value: Some(value),
        base: Some(base),
    })
}

/// Whether both values are equal.
#[tactic(auto, using(crate::proofs::SettledSteps::values))]
fn is_value(value: &Value, known: &Option<Value>) -> bool
    ensures { IsTrue result → known.now ≡ Some value.now }
{
    match known {
        Some(known) => compare(value, known).is_eq(),
        None => false,
    }
}

/// Whether a cell is expired, or its row has its value.
#[tactic(auto, using(crate::proofs::SettledSteps::values))]
pub fn is_kept(cell: &Cell) -> bool
    ensures { IsTrue result → spec.kept_cell cell.now ≡ cell.now }
{
    match &cell.value {
        Some(value) => is_value(value, &cell.base),
        None => true,
    }
}

/// A cell whose row has its value.
pub fn kept_cell(cell: &Cell) -> Result<Cell, AllocError>
    ensures { IfOk result (λ kept. kept ≡ spec.kept_cell cell.now) }
{
    match &cell.value {
        Some(value) => held_cell(value.copied()?),
        None => Ok(cell.copied()?),
    }
}

/// The cells of an object whose rows are deleted.
#[tactic(auto, using(class_layouts::proofs::Steps::steps))]
pub fn kept_cells(alloc: Global, cells: &[Cell]) -> Result<ListOf<Cell>, AllocError>
    ensures { IfOk result (λ kept. kept ≡ map spec.kept_cell cells.now) }
{
    let mut kept = ListOf::new(alloc);
    for cell in cells {
        kept.push(kept_cell(cell)?)?;
    }
    Ok(kept)
}
