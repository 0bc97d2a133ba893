//! The four closures of an object, and what calls reach from several objects.

ghost use Rattle.std.specs.Prelude.{◌≡◌, ◌++◌, IfOk, OnOk};
ghost use Rattle.std.specs.List.{All};
ghost use Rattle.object_arena.specs.Graph.{IsObject};
ghost use Rattle.object_arena.specs.Fit.{IsFit};
ghost use Rattle.cascades.specs.declared.closures.Flag.TheVariants.{SaveUpdate, RefreshExpire, Expunge, Delete};
ghost use Rattle.cascades.specs.Closures as spec;
ghost use Rattle.cascades.specs.Reaching as reaching;

use crate::marks::Marks;
use crate::walk::Walk;
use base_core::{ListOf, ObjId, ObjList, ObjSet};
use class_mapping::{Cascade, Mapping, Relation};
use object_arena::{Arena, Link};
use object_parts::add_ends;
use std::alloc::{AllocError, Global};
use std::slice::from_ref;

/// In a graph of so many objects a walk has a mark for each.
const MOST_MARKED: u32 = 8192;

/// The calls that go on along relationships.
#[derive(Clone, Copy, PartialEq, Eq)]
pub enum Flag {
    SaveUpdate,
    RefreshExpire,
    Expunge,
    Delete,
}

/// The objects that are added to the session with an object. The only refusal is out of memory.
pub fn save_closure(
    alloc: Global,
    arena: &Arena,
    mapping: &Mapping,
    object: ObjId,
) -> Result<ObjSet, AllocError>
    requires fit { IsFit mapping.now arena.now }
    requires object { IsObject arena.now object }
    ensures closure { IfOk result (spec.IsClosure SaveUpdate mapping.now arena.now object) }
    ensures is { IfOk result (λ set. set
        ≡ spec.closure_of SaveUpdate mapping.now arena.now object) }
{
    closure(alloc, arena, mapping, Flag::SaveUpdate, object)
}

/// The objects that are deleted with an object. The only refusal is out of memory.
pub fn delete_closure(
    alloc: Global,
    arena: &Arena,
    mapping: &Mapping,
    object: ObjId,
) -> Result<ObjSet, AllocError>
    requires fit { IsFit mapping.now arena.now }
    requires object { IsObject arena.now object }
    ensures closure { IfOk result (spec.IsClosure Delete mapping.now arena.now object) }
    ensures is { IfOk result (λ set. set
        ≡ spec.closure_of Delete mapping.now arena.now object) }
{
    closure(alloc, arena, mapping, Flag::Delete, object)
}

/// The objects that leave the session with an object. The only refusal is out of memory.
pub fn expunge_closure(
    alloc: Global,
    arena: &Arena,
    mapping: &Mapping,
    object: ObjId,
) -> Result<ObjSet, AllocError>
    requires fit { IsFit mapping.now arena.now }
    requires object { IsObject arena.now object }
    ensures closure { IfOk result (spec.IsClosure Expunge mapping.now arena.now object) }
    ensures is { IfOk result (λ set. set
        ≡ spec.closure_of Expunge mapping.now arena.now object) }
{
    closure(alloc, arena, mapping, Flag::Expunge, object)
}

/// The objects that are expired with an object. The only refusal is out of memory.
pub fn expire_closure(
    alloc: Global,
    arena: &Arena,
    mapping: &Mapping,
    object: ObjId,
) -> Result<ObjSet, AllocError>
    requires fit { IsFit mapping.now arena.now }
    requires object { IsObject arena.now object }
    ensures closure { IfOk result (spec.IsClosure RefreshExpire mapping.now arena.now object) }
    ensures is { IfOk result (λ set. set
        ≡ spec.closure_of RefreshExpire mapping.now arena.now object) }
{
    closure(alloc, arena, mapping, Flag::RefreshExpire, object)
}

/// The least closed set that has an object.
fn closure(
    alloc: Global,
    arena: &Arena,
    mapping: &Mapping,
    flag: Flag,
    object: ObjId,
) -> Result<ObjSet, AllocError>
    requires fit { IsFit mapping.now arena.now }
    requires object { IsObject arena.now object }
    ensures { IfOk result (spec.IsClosure flag mapping.now arena.now object) }
{
    reach(alloc, arena, mapping, flag, from_ref(&object))
}

/// All that calls of a kind go on to from some objects, these included. The only refusal is out of memory.
pub fn reached(
    alloc: Global,
    arena: &Arena,
    mapping: &Mapping,
    flag: Flag,
    starts: &[ObjId],
) -> Result<ObjSet, AllocError>
    requires fit { IsFit mapping.now arena.now }
    requires starts { All (IsObject arena.now) starts.now }
    ensures reach { IfOk result (reaching.IsReach flag mapping.now arena.now starts.now) }
    ensures is { IfOk result (λ set. set
        ≡ reaching.reach_of flag mapping.now arena.now starts.now) }
{
    reach(alloc, arena, mapping, flag, starts)
}

/// The least closed set that has some objects.
fn reach(
    alloc: Global,
    arena: &Arena,
    mapping: &Mapping,
    flag: Flag,
    starts: &[ObjId],
) -> Result<ObjSet, AllocError>
    requires fit { IsFit mapping.now arena.now }
    requires starts { All (IsObject arena.now) starts.now }
    ensures { IfOk result (reaching.IsReach flag mapping.now arena.now starts.now) }
{
    if arena.count() <= MOST_MARKED {
        return reach_marked(alloc, arena, mapping, flag, starts);
    }
    reach_kept(alloc, arena, mapping, flag, starts)
}

/// The least closed set that has some objects, by a walk with a mark for each object of the graph: the fastest where there are few.
fn reach_marked(
    alloc: Global,
    arena: &Arena,
    mapping: &Mapping,
    flag: Flag,
    starts: &[ObjId],
) -> Result<ObjSet, AllocError>
    requires fit { IsFit mapping.now arena.now }
    requires starts { All (IsObject arena.now) starts.now }
    ensures { IfOk result (reaching.IsReach flag mapping.now arena.now starts.now) }
{
    let mut walk = Marks::new(alloc, arena.count())?;
    let mut ends = ListOf::new(alloc);
    walk.come_to_all(starts)?;
    while let Some(next) = walk.waiting.pop() {
        ends.clear();
        add_linked(&mut ends, arena, mapping, flag, next)?;
        walk.come_to_all(ends.as_slice())?;
    }
    walk.into_set(alloc)
}

/// The least closed set that has some objects, by a walk whose time grows with that set alone.
fn reach_kept(
    alloc: Global,
    arena: &Arena,
    mapping: &Mapping,
    flag: Flag,
    starts: &[ObjId],
) -> Result<ObjSet, AllocError>
    requires fit { IsFit mapping.now arena.now }
    requires starts { All (IsObject arena.now) starts.now }
    ensures { IfOk result (reaching.IsReach flag mapping.now arena.now starts.now) }
{
    let mut walk = Walk::new(alloc);
    let mut ends = ListOf::new(alloc);
    walk.come_to_all(starts)?;
    while let Some(next) = walk.waiting.pop() {
        ends.clear();
        add_linked(&mut ends, arena, mapping, flag, next)?;
        walk.come_to_all(ends.as_slice())?;
    }
    walk.into_set(alloc)
}

/// The objects to which an object is linked along relationships with the flag go to the end.
#[tactic(auto, unfolding(crate::specs::Closures::linked_objects))]
fn add_linked(
    ends: &mut ObjList,
    arena: &Arena,
    mapping: &Mapping,
    flag: Flag,
    object: ObjId,
) -> Result<(), AllocError>
    requires fit { IsFit mapping.now arena.now }
    requires object { IsObject arena.now object }
    ensures { OnOk result
        (ends.new ≡ ends.old ++ spec.linked_objects flag mapping.now arena.now object) }
{
    let record = arena.object(object);
    let relations = mapping.relations(record.class);
    add_along(ends, flag, relations, record.links.as_slice())
}

/// What the links hold whose relationships have the flag goes to the end.
fn add_along(
    ends: &mut ObjList,
    flag: Flag,
    relations: &[Relation],
    links: &[Link],
) -> Result<(), AllocError>
    ensures { OnOk result (ends.new ≡ ends.old ++ spec.ends_along flag relations.now links.now) }
{
    for place in 0..relations.len().min(links.len()) {
        let goes_on = has_flag(flag, &relations[place].cascade);
        add_ends(ends, goes_on, &links[place])?;
    }
    Ok(())
}

/// Whether calls go on along a relationship with such cascades.
fn has_flag(flag: Flag, cascade: &Cascade) -> bool
    ensures { result ≡ spec.has_flag flag cascade.now }
{
    match flag {
        Flag::SaveUpdate => cascade.save_update,
        Flag::RefreshExpire => cascade.refresh_expire,
        Flag::Expunge => cascade.expunge,
        Flag::Delete => cascade.delete,
    }
}
