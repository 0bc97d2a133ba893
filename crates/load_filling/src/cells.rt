//! The expired cells of an object hold what a load found of them.

ghost use Rattle.std.specs.Prelude.{◌≡◌, Some, is_none, length, IfOk, OnErr, OnOk};
ghost use Rattle.std.specs.Option.{option_copied};
ghost use Rattle.object_arena.specs.Fit.{KeepsWith};
ghost use Rattle.object_arena.specs.Graph.{IsCell, IsObject, cell_at, object_at, with_cell};
ghost use Rattle.load_filling.specs.Filled as spec;

use base_core::{AttrNo, Copied, ObjId, Value};
use class_layouts::number_of;
use object_arena::{Arena, Cell, CellRead};
use std::alloc::AllocError;

/// The value that was found at a place, if there is one.
fn value_found(found: &[Option<Value>], place: usize) -> Option<&Value>
    ensures { option_copied result ≡ spec.value_found found.now place }
{
    match found.get(place) {
        Some(Some(value)) => Some(value),
        _ => None,
    }
}

/// A cell that holds what was read.
fn read_cell(value: &Value) -> Result<Cell, AllocError>
    ensures { IfOk result
        (λ cell. cell ≡ record { value = Some value.now; base = Some value.now }) }
{
    let held = value.copied()?;
    let base = value.copied()?;
    Ok(Cell {
        value: Some(held),
        base: Some(base),
    })
}

/// Whether a cell is to be read again.
fn is_expired(arena: &Arena, object: ObjId, attr: AttrNo) -> bool
    requires object { IsObject arena.now object }
    requires attr { IsCell arena.now object attr }
    ensures { result ≡ is_none (cell_at arena.now object attr).value }
{
    match arena.get_cell(object, attr) {
        CellRead::Held(_value) => false,
        CellRead::Expired => true,
    }
}

/// A cell that is expired holds what was found of it; another one stays.
fn fill_cell(
    arena: &mut Arena,
    object: ObjId,
    attr: AttrNo,
    found: &[Option<Value>],
) -> Result<(), AllocError>
    requires object { IsObject arena.old object }
    requires attr { IsCell arena.old object attr }
    ensures filled { OnOk result (arena.new ≡ with_cell arena.old object attr
        (spec.filled_cell found.now (attr.0, cell_at arena.old object attr))) }
    ensures unchanged { OnErr result (arena.new ≡ arena.old) }
    ensures keeps { KeepsWith (spec.AreFoundFor (object_at arena.old object).class found.now)
        arena.old arena.new }
{
    if !is_expired(arena, object, attr) {
        return Ok(());
    }
    match value_found(found, attr.0 as usize) {
        Some(value) => {
            let cell = read_cell(value)?;
            arena.put_cell(object, attr, cell);
            Ok(())
        }
        None => Ok(()),
    }
}

/// How many cells an object has.
fn cell_count(arena: &Arena, object: ObjId) -> usize
    requires { IsObject arena.now object }
    ensures { result ≡ length (object_at arena.now object).cells }
{
    arena.object(object).cells.len()
}

/// The expired cells of an object hold what was found of them: the cell at a place the value there, if there is one. Where
/// memory runs out it leaves the cells before a place filled, and the others as they were.
pub fn fill(arena: &mut Arena, object: ObjId, found: &[Option<Value>]) -> Result<(), AllocError>
    requires { IsObject arena.old object }
    ensures filled { OnOk result (arena.new ≡ spec.with_filled arena.old object found.now) }
    ensures left { OnErr result
        (spec.IsFilledInPart arena.old object found.now arena.new) }
    ensures keeps { KeepsWith (spec.AreFoundFor (object_at arena.old object).class found.now)
        arena.old arena.new }
{
    let count = cell_count(arena, object);
    for place in 0..count {
        let number = number_of(place)?;
        fill_cell(arena, object, AttrNo(number), found)?;
    }
    Ok(())
}
