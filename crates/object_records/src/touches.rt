//! The touching of all objects whose records come to differ.

ghost use Rattle.std.specs.Prelude.{◌≡◌, length, not, OnOk};
ghost use Rattle.std.specs.Option.{unwrap_or};
ghost use Rattle.object_arena.specs.Graph.{IsObject, object_at};
ghost use Rattle.object_records.specs.Same.{same_object};
ghost use Rattle.object_records.specs.Touched.{frames_touched_between};
ghost use Rattle.object_records.specs.Records.{with_records};
ghost use Rattle.object_records.specs.Way as way;

use crate::same::same_object;
use base_core::ObjId;
use object_arena::{Arena, Object};
use savepoints::Frames;
use std::alloc::AllocError;

#[tactic(auto, using(crate::proofs::TouchSteps::touch_steps))]
/// Each object that is to have another record is touched in the innermost scope.
pub(crate) fn touch_all(
    frames: &mut Frames,
    arena: &Arena,
    records: &[Option<Object>],
) -> Result<(), AllocError>
    requires { length records.now ≡ length arena.now.objects }
    ensures ok { OnOk result (frames.new ≡ frames_touched_between
        arena.now (with_records arena.now records.now) frames.old) }
    ensures scopes { frames.new.scopes ≡ frames.old.scopes }
{
    for number in 0..arena.count() {
        touch_for(frames, arena, ObjId(number + 1), &records[number as usize])?;
    }
    Ok(())
}

#[tactic(auto, using(crate::proofs::TouchSteps::one_touched))]
/// An object that is to have another record, if there is one for it, is touched.
fn touch_for(
    frames: &mut Frames,
    arena: &Arena,
    object: ObjId,
    given: &Option<Object>,
) -> Result<(), AllocError>
    requires { IsObject arena.now object }
    ensures ok { OnOk result (frames.new ≡ way.touched_if
        (not (same_object (object_at arena.now object)
        (unwrap_or given.now (object_at arena.now object)))) arena.now object frames.old) }
    ensures scopes { frames.new.scopes ≡ frames.old.scopes }
{
    match given {
        Some(new) => touch_one(frames, arena, object, new),
        None => Ok(()),
    }
}

#[tactic(auto, using(crate::proofs::Scopes::kept_scopes, crate::proofs::TouchSteps::one_touched))]
/// An object that is to have another record is touched.
fn touch_one(
    frames: &mut Frames,
    arena: &Arena,
    object: ObjId,
    new: &Object,
) -> Result<(), AllocError>
    requires { IsObject arena.now object }
    ensures ok { OnOk result (frames.new ≡ way.touched_if
        (not (same_object (object_at arena.now object) new.now)) arena.now object frames.old) }
    ensures scopes { frames.new.scopes ≡ frames.old.scopes }
{
    if same_object(arena.object(object), new) {
        return Ok(());
    }
    frames.touch(arena, object)
}
