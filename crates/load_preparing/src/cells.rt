//! Cells whose rows' values are not known, which are to be read again.

ghost use Rattle.std.specs.Prelude.{◌≡◌, is_none, length, OnErr, OnOk};
ghost use Rattle.std.specs.List.{list_any};
ghost use Rattle.class_mapping.specs.Mapped.{Mapped};
ghost use Rattle.object_arena.specs.Every.{classes_of};
ghost use Rattle.object_arena.specs.Fit.{IsFit};
ghost use Rattle.object_arena.specs.Graph.{IsCell, IsObject, cell_at, object_at, with_cell, with_object};
ghost use Rattle.load_rows.specs.Loading.{loading, noted_if};
ghost use Rattle.load_preparing.specs.Preparing as spec;

use base_core::{AttrNo, ObjId};
use class_layouts::number_of;
use keeper_core::{Note, Notes};
use object_arena::{Arena, Cell};
use std::alloc::AllocError;

/// Whether a cell holds a value, and what its row holds is not known.
fn is_unwritten(cell: &Cell) -> bool
    ensures { result ≡ spec.is_unwritten cell.now }
{
    cell.base.is_none() && cell.value.is_some()
}

/// Whether some of these cells are so.
fn lose_value(cells: &[Cell]) -> bool
    ensures { result ≡ list_any spec.is_unwritten cells.now }
{
    cells.iter().any(is_unwritten)
}

/// Whether what a cell's row holds is not known.
fn lacks_base(cell: &Cell) -> bool
    ensures { result ≡ is_none cell.now.base }
{
    cell.base.is_none()
}

/// A cell is to be read again where what its row holds is not known.
fn reread_cell(arena: &mut Arena, object: ObjId, attr: AttrNo)
    requires object { IsObject arena.old object }
    requires attr { IsCell arena.old object attr }
    ensures put { arena.new
        ≡ with_cell arena.old object attr (spec.reread_cell (cell_at arena.old object attr)) }
    ensures fits { (mapped : Mapped) → IsFit mapped arena.old → IsFit mapped arena.new }
    ensures classes { classes_of arena.new ≡ classes_of arena.old }
{
    if lacks_base(arena.object(object).cells.at(attr.0 as usize)) {
        let expired = Cell {
            value: None,
            base: None,
        };
        arena.put_cell(object, attr, expired);
    }
}

/// So many cells of an object, which are all, are to be read again where what their rows hold is not known.
fn reread_cells(arena: &mut Arena, object: ObjId, count: u32)
    requires object { IsObject arena.old object }
    requires count { count ≡ length (object_at arena.old object).cells }
    ensures put { arena.new
        ≡ with_object arena.old object (spec.reread_object (object_at arena.old object)) }
    ensures fits { (mapped : Mapped) → IsFit mapped arena.old → IsFit mapped arena.new }
    ensures classes { classes_of arena.new ≡ classes_of arena.old }
{
    for number in 0..count {
        reread_cell(arena, object, AttrNo(number));
    }
}

/// An object is noted where that is asked for. Where memory runs out it is not.
fn note_if(notes: &mut Notes, asked: bool, object: ObjId) -> Result<(), AllocError>
    ensures ok { OnOk result (notes.new ≡ noted_if asked object notes.old) }
    ensures err { OnErr result (notes.new ≡ notes.old) }
{
    if asked {
        notes.push(Note::Filled(object))?;
    }
    Ok(())
}

/// The cells of an object of whose rows nothing is known are to be read again, and what was put into them is lost. The object is noted
/// where one of them held a value. Where memory runs out nothing changes.
pub(crate) fn reread(arena: &mut Arena, object: ObjId, notes: &mut Notes) -> Result<(), AllocError>
    requires { IsObject arena.old object }
    ensures ok { OnOk result (loading arena.new notes.new
        ≡ spec.reread object (loading arena.old notes.old)) }
    ensures err { OnErr result (loading arena.new notes.new ≡ loading arena.old notes.old) }
    ensures state { (object_at arena.new object).state ≡ (object_at arena.old object).state }
    ensures fits { (mapped : Mapped) → IsFit mapped arena.old → IsFit mapped arena.new }
    ensures classes { classes_of arena.new ≡ classes_of arena.old }
{
    let record = arena.object(object);
    let count = number_of(record.cells.len())?;
    let asked = lose_value(record.cells.as_slice());
    note_if(notes, asked, object)?;
    reread_cells(arena, object, count);
    Ok(())
}
