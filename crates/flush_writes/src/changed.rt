//! The UPDATEs of changed rows, before all rows stand.

ghost use Rattle.std.specs.Prelude.{◌≡◌, ◌++◌, ◌∷◌, [], map, IfOk, OnOk};
ghost use Rattle.flush_writes.specs.Writes.{place_of_changed, updates, updates_to};
ghost use Rattle.flush_order.specs.Ready.{AreInRange, IsInTable};

use crate::writings::{Place, cells_when, place_of_changed, update_of};
use flush_order::sorted_numbers;
use schema_core::{ChangedRow, Planned, RowChanges, Schema};
use std::alloc::{AllocError, Global};

/// The tables and keys of the changed rows.
fn changed_places(alloc: Global, changes: &RowChanges) -> Result<Vec<Place>, AllocError>
    ensures { IfOk result
        (λ places. places.items ≡ map place_of_changed changes.now.changed) }
{
    let mut places = Vec::new(alloc);
    for row in changes.changed.as_slice() {
        places.push(place_of_changed(row)?)?;
    }
    Ok(places)
}

/// Puts the UPDATE of a changed row behind others, where it writes some cell.
fn push_update(
    out: &mut Vec<Planned>,
    alloc: Global,
    schema: &Schema,
    changes: &RowChanges,
    row: &ChangedRow,
) -> Result<(), AllocError>
    requires { IsInTable schema.now row.now }
    ensures { OnOk result (out.new.items
        ≡ out.old.items ++ updates_to schema.now changes.now (row.now ∷ [])) }
{
    let writing = cells_when(alloc, schema, changes, false, row)?;
    if !writing.1.is_empty() {
        out.push(update_of(alloc, &writing)?)?;
    }
    Ok(())
}

#[tactic(auto, using(crate::proofs::UpdateSteps::update_steps))]
/// The UPDATEs of changed rows, by table and key.
pub fn updates(
    alloc: Global,
    schema: &Schema,
    changes: &RowChanges,
) -> Result<Vec<Planned>, AllocError>
    requires { AreInRange schema.now changes.now }
    ensures { IfOk result
        (λ statements. statements.items ≡ updates schema.now changes.now) }
{
    let places = changed_places(alloc, changes)?;
    let numbers = sorted_numbers(alloc, places.as_slice())?;
    let mut statements = Vec::new(alloc);
    for number in &numbers {
        let row = changes.changed.at(*number as usize);
        push_update(&mut statements, alloc, schema, changes, row)?;
    }
    Ok(statements)
}
