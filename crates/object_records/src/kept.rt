//! The cells and links of objects, kept and given back.

ghost use Rattle.std.specs.Prelude.{◌≡◌, ◌<◌, Some, length, IfOk, IsTrue};
ghost use Rattle.std.specs.List.{All};
ghost use Rattle.object_arena.specs.Every.{classes_of};
ghost use Rattle.object_arena.specs.Graph.{IsObject, object_at, with_object};
ghost use Rattle.object_arena.specs.Identity.{id_of_place};
ghost use Rattle.object_records.specs.Kept as spec;

use crate::puts::{put_cells, put_links};
use base_core::{Copied, ListOf, ObjId, both};
use object_arena::{Arena, Cell, Link, Object};
use std::alloc::{AllocError, Global};

/// The cells and links of an object.
#[derive(Drop)]
pub struct Held {
    pub cells: ListOf<Cell>,
    pub links: ListOf<Link>,
}

/// Those of each object, by number.
pub type KeptObjects = ListOf<Held>;

/// The cells and links of all objects. The only refusal is out of memory.
pub fn kept_objects(alloc: Global, arena: &Arena) -> Result<KeptObjects, AllocError>
    ensures held { IfOk result (λ kept. kept ≡ spec.held_in arena.now) }
    ensures narrow { IfOk result (All spec.IsNarrow) }
{
    let mut kept = ListOf::new(alloc);
    for number in 0..arena.count() {
        kept.push(held_by(arena.object(ObjId(number + 1)))?)?;
    }
    Ok(kept)
}

/// The cells and links of an object; more than have numbers find no memory.
fn held_by(object: &Object) -> Result<Held, AllocError>
    ensures held { IfOk result (λ held. held ≡ spec.held_by object.now) }
    ensures narrow { IfOk result spec.IsNarrow }
{
    if !is_narrow(object) {
        return Err(AllocError);
    }
    let (cells, links) = both(object.cells.copied(), object.links.copied())?;
    Ok(Held { cells, links })
}

/// Whether an object's cells and links have numbers.
fn is_narrow(object: &Object) -> bool
    ensures { IsTrue result → spec.IsNarrow (spec.held_by object.now) }
{
    object.cells.len() <= u32::MAX as usize && object.links.len() <= u32::MAX as usize
}

/// Gives objects the cells and links that were kept; those that were made since stay as they are. Nothing else changes, and it takes
/// no memory.
pub fn give_back(arena: &mut Arena, kept: KeptObjects)
    requires { spec.CanHoldAll kept arena.old }
    ensures back { arena.new ≡ spec.given_back kept arena.old }
    ensures classes { classes_of arena.new ≡ classes_of arena.old }
{
    let mut left = kept.into_vec();
    while let Some(held) = left.pop() {
        give_at(arena, left.len(), held);
    }
}

/// The object at a place gets other cells and links, as many as it has.
fn give_at(arena: &mut Arena, place: usize, held: Held)
    requires place { place < length arena.old.objects }
    requires holds { spec.CanHold (object_at arena.old (id_of_place place)) held }
    ensures given { arena.new ≡ with_object arena.old (id_of_place place)
        (spec.holding (Some held) (object_at arena.old (id_of_place place))) }
    ensures classes { classes_of arena.new ≡ classes_of arena.old }
{
    // There are no more objects than have numbers.
    let _count = arena.count();
    give_to(arena, ObjId(place as u32 + 1), held);
}

/// An object gets other cells and links, as many as it has.
fn give_to(arena: &mut Arena, object: ObjId, held: Held)
    requires object { IsObject arena.old object }
    requires holds { spec.CanHold (object_at arena.old object) held }
    ensures given { arena.new ≡ with_object arena.old object
        (spec.holding (Some held) (object_at arena.old object)) }
    ensures classes { classes_of arena.new ≡ classes_of arena.old }
{
    let Held { cells, links } = held;
    put_cells(arena, object, cells);
    put_links(arena, object, links);
}
