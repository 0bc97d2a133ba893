//! What is deleted, and what is new no more. The only refusal is out of memory.

ghost use Rattle.std.specs.Prelude.{◌≡◌, ◌++◌, IfOk, OnOk};
ghost use Rattle.std.specs.List.{All, filter};
ghost use Rattle.object_arena.specs.declared.object.State.TheVariants as state;
ghost use Rattle.object_arena.specs.Fit.{IsFit};
ghost use Rattle.object_arena.specs.Graph.{IsObject, is_pending, is_persistent, object_at};
ghost use Rattle.prepared_objects.specs.Leaving as spec;

use base_core::{ListOf, ObjId, ObjList, ObjSet};
use cascades::Flag;
use class_mapping::Mapping;
use object_arena::{Arena, Object, State};
use object_rows::object_ids;
use std::alloc::{AllocError, Global};

/// Whether an object is persistent, and marked or left by its parent.
fn starts_deletes(object: &Object) -> bool
    ensures { result ≡ spec.starts_deletes object.now }
{
    matches!(object.state, State::Persistent) && (object.marked || object.orphan)
}

/// Whether an object is pending, and its parent has left it.
fn is_new_orphan(object: &Object) -> bool
    ensures { result ≡ spec.is_new_orphan object.now }
{
    matches!(object.state, State::Pending) && object.orphan
}

fn is_persistent(state: State) -> bool
    ensures { result ≡ is_persistent state }
{
    matches!(state, State::Persistent)
}

fn is_pending(state: State) -> bool
    ensures { result ≡ is_pending state }
{
    matches!(state, State::Pending)
}

/// The objects from which deletes go on.
fn delete_starts(alloc: Global, arena: &Arena) -> Result<ObjList, AllocError>
    ensures starts { IfOk result (λ starts. starts ≡ spec.delete_starts arena.now) }
    ensures made { IfOk result (All (IsObject arena.now)) }
{
    let objects = object_ids(alloc, arena)?;
    let mut starts = ListOf::new(alloc);
    for object in &objects {
        if starts_deletes(arena.object(*object)) {
            starts.push(*object)?;
        }
    }
    Ok(starts)
}

/// The pending objects that their parents have left.
fn new_orphans(alloc: Global, arena: &Arena) -> Result<ObjList, AllocError>
    ensures starts { IfOk result (λ starts. starts ≡ spec.new_orphans arena.now) }
    ensures made { IfOk result (All (IsObject arena.now)) }
{
    let objects = object_ids(alloc, arena)?;
    let mut starts = ListOf::new(alloc);
    for object in &objects {
        if is_new_orphan(arena.object(*object)) {
            starts.push(*object)?;
        }
    }
    Ok(starts)
}

/// All that deletes go on to.
#[tactic(auto, unfolding(crate::specs::Leaving::reached))]
pub(crate) fn reached(alloc: Global, arena: &Arena, mapping: &Mapping) -> Result<ObjSet, AllocError>
    requires { IsFit mapping.now arena.now }
    ensures reached { IfOk result (λ set. set ≡ spec.reached mapping.now arena.now) }
    ensures made { IfOk result (All (IsObject arena.now)) }
{
    let starts = delete_starts(alloc, arena)?;
    cascades::reached(alloc, arena, mapping, Flag::Delete, starts.as_slice())
}

/// All that leaves the session with orphans that are new.
#[tactic(auto, unfolding(crate::specs::Leaving::left_with_orphans))]
pub(crate) fn left_with_orphans(
    alloc: Global,
    arena: &Arena,
    mapping: &Mapping,
) -> Result<ObjSet, AllocError>
    requires { IsFit mapping.now arena.now }
    ensures left { IfOk result (λ set. set ≡ spec.left_with_orphans mapping.now arena.now) }
    ensures made { IfOk result (All (IsObject arena.now)) }
{
    let starts = new_orphans(alloc, arena)?;
    cascades::reached(alloc, arena, mapping, Flag::Expunge, starts.as_slice())
}

/// The persistent ones of some objects.
pub(crate) fn persistent_of(
    alloc: Global,
    arena: &Arena,
    objects: &[ObjId],
) -> Result<ObjList, AllocError>
    requires { All (IsObject arena.now) objects.now }
    ensures kept { IfOk result (λ kept. kept
        ≡ filter (λ object. is_persistent (object_at arena.now object).state) objects.now) }
    ensures made { IfOk result (All (IsObject arena.now)) }
    ensures persistent { IfOk result
        (All (λ object. (object_at arena.now object).state ≡ state.Persistent)) }
{
    let mut kept = ListOf::new(alloc);
    for object in objects {
        if is_persistent(arena.state_of(*object)) {
            kept.push(*object)?;
        }
    }
    Ok(kept)
}

/// The pending ones of some objects go to the end.
pub(crate) fn push_pending(
    out: &mut ObjList,
    arena: &Arena,
    objects: &[ObjId],
) -> Result<(), AllocError>
    requires { All (IsObject arena.now) objects.now }
    ensures { OnOk result (out.new ≡ out.old
        ++ filter (λ object. is_pending (object_at arena.now object).state) objects.now) }
{
    for object in objects {
        if is_pending(arena.state_of(*object)) {
            out.push(*object)?;
        }
    }
    Ok(())
}
