//! Of which object something is to be read before its rows are deleted.

ghost use Rattle.std.specs.Prelude.{◌≡◌, find, not, IfOk, IfSome};
ghost use Rattle.std.specs.List.{All, enumerate_from, list_all};
ghost use Rattle.object_arena.specs.declared.object.State.TheVariants as state;
ghost use Rattle.object_arena.specs.Fit.{IsFit};
ghost use Rattle.object_arena.specs.Graph.{IsObject, object_at};
ghost use Rattle.object_parts.specs.Links.{is_unloaded};
ghost use Rattle.prepared_objects.specs.Known as spec;

use crate::leaving::{persistent_of, reached};
use base_core::ObjId;
use class_mapping::{Mapping, Relation};
use object_arena::{Arena, Cell, Link, Object};
use pair_rows::link_or;
use std::alloc::{AllocError, Global};

/// Whether what a cell holds and what its row holds are known.
fn is_known(cell: &Cell) -> bool
    ensures { result ≡ spec.is_known cell.now }
{
    cell.value.is_some() && cell.base.is_some()
}

/// Whether all of these cells are known.
fn are_known(cells: &[Cell]) -> bool
    ensures { result ≡ list_all spec.is_known cells.now }
{
    cells.iter().all(is_known)
}

fn is_unloaded(link: &Link) -> bool
    ensures { result ≡ is_unloaded link.now }
{
    matches!(link, Link::Unloaded { .. })
}

/// Whether a link of an object that is to be read, of this number, is not loaded.
pub fn lacks_link(object: &Object, number: usize, relation: &Relation) -> bool
    ensures { result ≡ spec.lacks_link object.now (number, relation.now) }
{
    if !relation.many && !relation.cascade.delete {
        return false;
    }
    let unset = Link::Unset;
    is_unloaded(link_or(object, number, &unset))
}

#[tactic(auto, using(class_layouts::proofs::Steps::steps))]
/// Whether all links of an object that are to be read are loaded.
fn has_links(object: &Object, relations: &[Relation]) -> bool
    ensures { result ≡ spec.has_links object.now (enumerate_from 0 relations.now) }
{
    for (number, relation) in relations.iter().enumerate() {
        if lacks_link(object, number, relation) {
            return false;
        }
    }
    true
}

/// Whether all is known of an object that is to be known before its rows are deleted.
fn is_read(arena: &Arena, mapping: &Mapping, object: ObjId) -> bool
    requires fit { IsFit mapping.now arena.now }
    requires object { IsObject arena.now object }
    ensures { result ≡ spec.is_read mapping.now arena.now object }
{
    let record = arena.object(object);
    are_known(record.cells.as_slice()) && has_links(record, mapping.relations(record.class))
}

/// The first of some objects of which something is to be read.
#[tactic(auto, using(class_layouts::proofs::Steps::steps))]
fn first_unread(arena: &Arena, mapping: &Mapping, objects: &[ObjId]) -> Option<ObjId>
    requires fit { IsFit mapping.now arena.now }
    requires made { All (IsObject arena.now) objects.now }
    requires persistent { All (λ object. (object_at arena.now object).state ≡ state.Persistent) objects.now }
    ensures first { result
        ≡ find (λ object. not (spec.is_read mapping.now arena.now object)) objects.now }
    ensures made { IfSome result (IsObject arena.now) }
    ensures persistent { IfSome result
        (λ object. (object_at arena.now object).state ≡ state.Persistent) }
{
    for object in objects {
        if !is_read(arena, mapping, *object) {
            return Some(*object);
        }
    }
    None
}

/// The object of least number that is to be deleted and of which something is to be read: a cell that is expired or whose row's value is
/// not known, a collection, or a link along which deletes go on. The only refusal is out of memory.
#[tactic(auto, unfolding(crate::specs::Known::next_unread, crate::specs::Leaving::going))]
pub fn next_unread(
    alloc: Global,
    arena: &Arena,
    mapping: &Mapping,
) -> Result<Option<ObjId>, AllocError>
    requires { IsFit mapping.now arena.now }
    ensures next { IfOk result (λ next. next ≡ spec.next_unread mapping.now arena.now) }
    ensures made { IfOk result (λ next. IfSome next (IsObject arena.now)) }
    ensures persistent { IfOk result (λ next. IfSome next
        (λ object. (object_at arena.now object).state ≡ state.Persistent)) }
{
    let reached = reached(alloc, arena, mapping)?;
    let going = persistent_of(alloc, arena, reached.as_slice())?;
    Ok(first_unread(arena, mapping, going.as_slice()))
}
