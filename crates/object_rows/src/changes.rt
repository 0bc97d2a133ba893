//! What values and cells change, beside what a row is known to hold.

ghost use Rattle.std.specs.Prelude.{◌≡◌, IfOk};
ghost use Rattle.object_rows.specs.Rows as spec;

use base_core::{Copied, Value};
use object_arena::Cell;
use object_parts::is_base;
use schema_core::RowCell;
use std::alloc::AllocError;

/// What a value changes, unless it is what the row has.
fn change_to(base: &Option<Value>, value: &Value) -> Result<Option<RowCell>, AllocError>
    ensures { IfOk result (λ change. change ≡ spec.change_to base.now value.now) }
{
    if is_base(base, value) {
        return Ok(None);
    }
    Ok(Some(RowCell::Given(value.copied()?)))
}

/// What a cell changes, unless it is the value that the row is known to hold.
pub fn linked_change(base: &Option<Value>, cell: &RowCell) -> Result<Option<RowCell>, AllocError>
    ensures { IfOk result (λ change. change ≡ spec.linked_change base.now cell.now) }
{
    match cell {
        RowCell::KeyOf(place, part) => Ok(Some(RowCell::KeyOf(*place, *part))),
        RowCell::Given(value) => change_to(base, value),
    }
}

/// What an object's own cell changes.
pub fn own_change(cell: &Cell) -> Result<Option<RowCell>, AllocError>
    ensures { IfOk result
        (λ change. change ≡ spec.own_change cell.now.base cell.now.value) }
{
    match &cell.value {
        Some(value) => change_to(&cell.base, value),
        None => Ok(None),
    }
}
