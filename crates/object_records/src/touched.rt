//! The touching of objects whose records come to differ.

ghost use Rattle.std.specs.Prelude.{◌≡◌, not, true, Some, OnOk, OnErr};
ghost use Rattle.base_core.specs.Order.{same_value};
ghost use Rattle.object_arena.specs.declared.object.Object.{Object};
ghost use Rattle.object_arena.specs.Graph.{IsCell, IsLink, IsObject, object_at, with_link, with_object, with_value};
ghost use Rattle.object_records.specs.Same.{both_alike, same_object};
ghost use Rattle.object_records.specs.Touched as spec;

use crate::same::{same_bool, same_link};
use base_core::{AttrNo, ObjId, RelNo, Value, compare};
use object_arena::{Arena, Cell, Link};
use savepoints::Frames;
use std::alloc::AllocError;

/// Touches an object in the innermost scope where its record is to differ. Whatever record it is to have, the scopes are then
/// those in which exactly the objects that differ have been touched, as they were. Where memory runs out it changes nothing.
#[tactic(auto, using(crate::proofs::OneObject::changes, crate::proofs::Scopes::kept_scopes), unfolding(crate::specs::Touched::frames_touched_between))]
pub fn touch_if(
    frames: &mut Frames,
    arena: &Arena,
    object: ObjId,
    is_changed: bool,
) -> Result<(), AllocError>
    requires { IsObject arena.now object }
    ensures ok { (new : Object) → is_changed ≡ not (same_object (object_at arena.now object) new)
        → OnOk result (frames.new ≡ spec.frames_touched_between
        arena.now (with_object arena.now object new) frames.old) }
    ensures scopes { frames.new.scopes ≡ frames.old.scopes }
    ensures err { OnErr result (frames.new ≡ frames.old) }
{
    if is_changed {
        return frames.touch(arena, object);
    }
    Ok(())
}

/// Touches an object in the innermost scope where one of its cells is to get a value that it does not hold; its base stays.
/// Where memory runs out it changes nothing.
pub fn touch_for_value(
    frames: &mut Frames,
    arena: &Arena,
    object: ObjId,
    attr: AttrNo,
    value: &Value,
) -> Result<(), AllocError>
    requires object { IsObject arena.now object }
    requires attr { IsCell arena.now object attr }
    ensures ok { OnOk result (frames.new ≡ spec.frames_touched_between
        arena.now (with_value arena.now object attr value.now) frames.old) }
    ensures scopes { frames.new.scopes ≡ frames.old.scopes }
    ensures err { OnErr result (frames.new ≡ frames.old) }
{
    let is_held = holds(arena.object(object).cells.at(attr.0 as usize), value);
    touch_if(frames, arena, object, !is_held)
}

/// Whether a cell holds a value.
fn holds(cell: &Cell, value: &Value) -> bool
    ensures { result ≡ both_alike same_value cell.now.value (Some value.now) }
{
    match &cell.value {
        Some(own) => compare(own, value).is_eq(),
        None => false,
    }
}

/// Touches an object in the innermost scope where one of its links is to be another one. Where memory runs out it changes nothing.
pub fn touch_for_link(
    frames: &mut Frames,
    arena: &Arena,
    object: ObjId,
    relation: RelNo,
    link: &Link,
) -> Result<(), AllocError>
    requires object { IsObject arena.now object }
    requires relation { IsLink arena.now object relation }
    ensures ok { OnOk result (frames.new ≡ spec.frames_touched_between
        arena.now (with_link arena.now object relation link.now) frames.old) }
    ensures scopes { frames.new.scopes ≡ frames.old.scopes }
    ensures err { OnErr result (frames.new ≡ frames.old) }
{
    let is_same = same_link(arena.object(object).links.at(relation.0 as usize), link);
    touch_if(frames, arena, object, !is_same)
}

/// Touches an object in the innermost scope where it is to get a delete mark that it does not have. Where memory runs out it
/// changes nothing.
pub fn touch_for_mark(frames: &mut Frames, arena: &Arena, object: ObjId) -> Result<(), AllocError>
    requires { IsObject arena.now object }
    ensures ok { OnOk result (frames.new ≡ spec.frames_touched_between arena.now
        (with_object arena.now object (record (object_at arena.now object) { marked = true }))
        frames.old) }
    ensures scopes { frames.new.scopes ≡ frames.old.scopes }
    ensures err { OnErr result (frames.new ≡ frames.old) }
{
    let is_marked = arena.object(object).marked;
    touch_if(frames, arena, object, !is_marked)
}

/// Touches an object in the innermost scope where it is to be an orphan and is none, or the other way round. Where memory runs out
/// it changes nothing.
pub fn touch_for_orphan(
    frames: &mut Frames,
    arena: &Arena,
    object: ObjId,
    orphan: bool,
) -> Result<(), AllocError>
    requires { IsObject arena.now object }
    ensures ok { OnOk result (frames.new ≡ spec.frames_touched_between arena.now
        (with_object arena.now object (record (object_at arena.now object) { orphan = orphan }))
        frames.old) }
    ensures scopes { frames.new.scopes ≡ frames.old.scopes }
    ensures err { OnErr result (frames.new ≡ frames.old) }
{
    let is_same = same_bool(arena.object(object).orphan, orphan);
    touch_if(frames, arena, object, !is_same)
}
