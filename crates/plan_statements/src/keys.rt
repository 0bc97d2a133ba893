//! The keys of new rows by place, and the values of cells by them.

ghost use Rattle.std.specs.Prelude.{◌≡◌, ◌<◌, [], ◌∷◌, length, IfOk, OnOk, slice_index_or};
ghost use Rattle.std.specs.List.{All};
ghost use Rattle.std.specs.Option.{option_copied};
ghost use Rattle.base_core.specs.declared.value.Value.TheVariants.{Null};
ghost use Rattle.schema_core.specs.Tables.{value_or_null};
ghost use Rattle.flush_plan.specs.Flushing.{Keys, key_of_new, keys_then, value_of_cell, with_keys};
ghost use Rattle.plan_statements.specs.Known.{AreKeysAt, IsWithin, keys_at};

use base_core::{Copied, Key, KeyList, ListOf, Value};
use schema_core::{Planned, RowCell};
use std::alloc::{AllocError, Global};

/// The keys of so many new rows, of which none is known.
pub fn no_keys(alloc: Global, count: usize) -> Result<ListOf<Key>, AllocError>
    ensures keys { IfOk result (λ known. AreKeysAt [] known) }
    ensures long { IfOk result (λ known. length known ≡ count) }
{
    let mut known = ListOf::new(alloc);
    for _place in 0..count {
        known.push(ListOf::new(alloc))?;
    }
    Ok(known)
}

/// Puts the keys that new rows got at their places, in order, as many as both lists have.
fn put_keys(known: &mut ListOf<Key>, places: &[u32], answered: &KeyList) -> Result<(), AllocError>
    requires within { All (λ place. place < length known.old) places.now }
    ensures keys { OnOk result ((keys : Keys) → AreKeysAt keys known.old
        → AreKeysAt (with_keys keys places.now answered.now) known.new) }
    ensures long { length known.new ≡ length known.old }
{
    for (number, place) in places.iter().enumerate() {
        match answered.get(number) {
            Some(key) => put_key(known, *place, key)?,
            None => return Ok(()),
        }
    }
    Ok(())
}

/// Puts the keys that the new rows of a statement got at their places; only an INSERT is of new rows.
pub fn keep_keys(
    known: &mut ListOf<Key>,
    planned: &Planned,
    answered: &KeyList,
) -> Result<(), AllocError>
    requires within { IsWithin (length known.old) planned.now }
    ensures keys { OnOk result ((keys : Keys) → AreKeysAt keys known.old
        → AreKeysAt (keys_then keys planned.now answered.now) known.new) }
    ensures long { length known.new ≡ length known.old }
{
    match planned {
        Planned::Insert { places, .. } => { put_keys(known, places.as_slice(), answered) }
        Planned::Update { .. } | Planned::Remove { .. } => Ok(()),
    }
}

/// Puts the key that a new row got at its place.
fn put_key(known: &mut ListOf<Key>, place: u32, key: &Key) -> Result<(), AllocError>
    requires within { place < length known.old }
    ensures keys { OnOk result ((keys : Keys) → AreKeysAt keys known.old
        → AreKeysAt ((place, key.now) ∷ keys) known.new) }
    ensures long { length known.new ≡ length known.old }
{
    let _before = known.replace(place as usize, key.copied()?);
    Ok(())
}

/// What a cell holds by the keys that are known: NULL for a key that is not, or has no such part.
pub(crate) fn value_of_cell(known: &ListOf<Key>, cell: &RowCell) -> Result<Value, AllocError>
    ensures { IfOk result (λ value. value ≡ value_of_cell (keys_at known.now) cell.now) }
{
    match cell {
        RowCell::Given(value) => Ok(value.copied()?),
        RowCell::KeyOf(place, part) => part_of_key(known, *place, *part),
    }
}

/// A part of a new row's key, or NULL.
fn part_of_key(known: &ListOf<Key>, place: u32, part: u32) -> Result<Value, AllocError>
    ensures { IfOk result (λ value. value
        ≡ slice_index_or (key_of_new (keys_at known.now) place) part Null) }
{
    match known.get(place as usize) {
        Some(key) => value_or_null(key.get(part as usize)),
        None => Ok(Value::Null),
    }
}

fn value_or_null(value: Option<&Value>) -> Result<Value, AllocError>
    ensures { IfOk result (λ copy. copy ≡ value_or_null (option_copied value.entry)) }
{
    match value {
        Some(value) => Ok(value.copied()?),
        None => Ok(Value::Null),
    }
}
