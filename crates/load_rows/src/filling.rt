//! The filling of an object's expired cells, noted.

ghost use Rattle.std.specs.Prelude.{◌≡◌, ◌&&◌, is_none, is_some, OnOk};
ghost use Rattle.std.specs.Option.{option_copied};
ghost use Rattle.object_arena.specs.Fit.{KeepsWith};
ghost use Rattle.object_arena.specs.Graph.{IsObject, object_at};
ghost use Rattle.load_filling.specs.Filled.{AreFoundFor};
ghost use Rattle.load_filling.specs.Filled as cells;
ghost use Rattle.load_rows.specs.Loading as spec;

use base_core::{ObjId, Value};
use keeper_core::{Note, Notes};
use load_filling::fill;
use object_arena::{Arena, Cell, Object};
use std::alloc::AllocError;

/// Whether a value was found at a place.
fn is_found(found: &[Option<Value>], place: usize) -> bool
    ensures { result ≡ is_some (cells.value_found found.now place) }
{
    match found.get(place) {
        Some(Some(_value)) => true,
        _ => false,
    }
}

/// Whether a cell is expired, of which a value was found.
fn is_to_fill(found: &[Option<Value>], place: usize, cell: &Cell) -> bool
    ensures { result ≡ spec.is_to_fill found.now (place, cell.now) }
{
    cell.value.is_none() && is_found(found, place)
}

/// Whether an object has such a cell.
fn fills_some(found: &[Option<Value>], object: &Object) -> bool
    ensures { result ≡ spec.fills_some found.now object.now }
{
    let cells = object.cells.as_slice();
    for (place, cell) in cells.iter().enumerate() {
        if is_to_fill(found, place, cell) {
            return true;
        }
    }
    false
}

/// An object is noted, if it is to be.
fn note_if(is_filled: bool, object: ObjId, notes: &mut Notes) -> Result<(), AllocError>
    ensures { OnOk result (notes.new ≡ spec.noted_if is_filled object notes.old) }
{
    if is_filled {
        notes.push(Note::Filled(object))?;
    }
    Ok(())
}

/// The expired cells of an object hold what was found of them: the cell at a place the value there, if there is one. The object
/// is noted where one was filled.
#[tactic(auto, unfolding(crate::specs::Loading::filled))]
pub fn fill_noted(
    arena: &mut Arena,
    object: ObjId,
    found: &[Option<Value>],
    notes: &mut Notes,
) -> Result<(), AllocError>
    requires { IsObject arena.old object }
    ensures filled { OnOk result (spec.loading arena.new notes.new
        ≡ spec.filled object found.now (spec.loading arena.old notes.old)) }
    ensures keeps { KeepsWith (AreFoundFor (object_at arena.old object).class found.now)
        arena.old arena.new }
{
    let is_filled = fills_some(found, arena.object(object));
    fill(arena, object, found)?;
    note_if(is_filled, object, notes)
}
