//! The deleted rows, by table and key.

ghost use Rattle.std.specs.Prelude.{◌≡◌, ◌<◌, ◌++◌, [], ◌∷◌, map, length, IfOk, OnOk};
ghost use Rattle.std.specs.List.{All};
ghost use Rattle.schema_core.specs.Catalog.{IsTable};
ghost use Rattle.flush_order.specs.Orders.{gone_at, place_of_gone};
ghost use Rattle.flush_order.specs.Ready.{AreInRange, AreReadyGone, ready_gone};
ghost use Rattle.flush_order.specs.Refers.{last_base};

use base_core::{Copied, ListOf, RowValues, Value};
use flush_order::{ReadyGone, push_cleared, sorted_numbers};
use flush_writes::{Place, gone_key, place_of_gone};
use schema_core::{GoneRow, RowChanges, Schema};
use std::alloc::{AllocError, Global};

/// A deleted row's base without what is cleared before it is deleted.
fn last_base(
    alloc: Global,
    schema: &Schema,
    changes: &RowChanges,
    row: &GoneRow,
) -> Result<RowValues, AllocError>
    requires { IsTable schema.now row.now.name.table }
    ensures { IfOk result (λ last. last ≡ last_base schema.now changes.now row.now) }
{
    let table = row.name.table;
    let mut last = Vec::new(alloc);
    push_cleared(
        &mut last,
        schema,
        changes,
        table,
        &Value::Null,
        schema.spec(table).columns.as_slice(),
        row.base.as_slice(),
    )?;
    Ok(ListOf::from_vec(last))
}

/// A deleted row made ready.
fn ready_gone(
    alloc: Global,
    schema: &Schema,
    changes: &RowChanges,
    row: &GoneRow,
) -> Result<ReadyGone, AllocError>
    requires { IsTable schema.now row.now.name.table }
    ensures { IfOk result (λ ready. ready ≡ ready_gone schema.now changes.now row.now) }
{
    Ok(ReadyGone {
        name: row.name.copied()?,
        last: last_base(alloc, schema, changes, row)?,
        key: gone_key(alloc, schema, row)?,
    })
}

/// The tables and keys of the deleted rows.
fn gone_places(
    alloc: Global,
    schema: &Schema,
    changes: &RowChanges,
) -> Result<Vec<Place>, AllocError>
    requires { AreInRange schema.now changes.now }
    ensures { IfOk result
        (λ places. places.items ≡ map (place_of_gone schema.now) changes.now.gone) }
{
    let mut places = Vec::new(alloc);
    for row in changes.gone.as_slice() {
        places.push(place_of_gone(alloc, schema, row)?)?;
    }
    Ok(places)
}

/// Puts a deleted row, made ready, behind others.
fn push_ready(
    out: &mut Vec<ReadyGone>,
    alloc: Global,
    schema: &Schema,
    changes: &RowChanges,
    row: &GoneRow,
) -> Result<(), AllocError>
    requires { IsTable schema.now row.now.name.table }
    ensures { OnOk result
        (out.new.items ≡ out.old.items ++ ready_gone schema.now changes.now row.now ∷ []) }
{
    out.push(ready_gone(alloc, schema, changes, row)?)?;
    Ok(())
}

#[tactic(auto, using(crate::proofs::GoneSteps::gone_in))]
/// The deleted rows of these numbers, made ready.
fn ready_in_order(
    alloc: Global,
    schema: &Schema,
    changes: &RowChanges,
    numbers: &[u32],
) -> Result<Vec<ReadyGone>, AllocError>
    requires range { AreInRange schema.now changes.now }
    requires within { All (λ number. number < length changes.now.gone) numbers.now }
    ensures { IfOk result (λ rows. rows.items
        ≡ map (ready_gone schema.now changes.now) (map (gone_at changes.now.gone) numbers.now)) }
{
    let mut rows = Vec::new(alloc);
    for number in numbers {
        let row = changes.gone.at(*number as usize);
        push_ready(&mut rows, alloc, schema, changes, row)?;
    }
    Ok(rows)
}

#[tactic(auto, using(crate::proofs::GoneSteps::are_ready, crate::proofs::GoneSteps::gone_sized))]
/// The deleted rows by table and key, made ready.
pub fn gone_rows(
    alloc: Global,
    schema: &Schema,
    changes: &RowChanges,
) -> Result<Vec<ReadyGone>, AllocError>
    requires { AreInRange schema.now changes.now }
    ensures { IfOk result (λ rows. AreReadyGone schema.now changes.now rows.items) }
{
    let places = gone_places(alloc, schema, changes)?;
    let numbers = sorted_numbers(alloc, places.as_slice())?;
    ready_in_order(alloc, schema, changes, numbers.as_slice())
}
