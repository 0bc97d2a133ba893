//! Other records for objects.

ghost use Rattle.std.specs.Prelude.{◌≡◌, length, OnErr, OnOk};
ghost use Rattle.object_arena.specs.Every.{classes_of, each_placed};
ghost use Rattle.object_records.specs.Touched.{frames_touched_between};
ghost use Rattle.object_records.specs.Records as spec;
ghost use Rattle.object_records.specs.Way as way;

use crate::puts::put_all;
use crate::states::step_aside;
use crate::touches::touch_all;
use base_core::ListOf;
use object_arena::{Arena, Object};
use savepoints::Frames;
use std::alloc::AllocError;

/// Each object gets the record at its place, where there is one. Before that each object whose record comes to differ is touched in
/// the innermost scope, and no other. Time grows as the logarithm of the number of objects for each record, and an object that gets
/// none takes no memory.
///
/// # Errors
///
/// Where memory runs out, some objects may have been touched then, and no record has changed.
pub fn put_records(
    arena: &mut Arena,
    frames: &mut Frames,
    records: ListOf<Option<Object>>,
) -> Result<(), AllocError>
    requires long { length records ≡ length arena.old.objects }
    requires follow { spec.CanFollow arena.old (spec.with_records arena.old records).objects }
    ensures ok { OnOk result (arena.new ≡ spec.with_records arena.old records) }
    ensures touched { OnOk result (frames.new ≡ frames_touched_between
        arena.old (spec.with_records arena.old records) frames.old) }
    ensures err { OnErr result (arena.new ≡ arena.old) }
    ensures classes { classes_of arena.new ≡ classes_of arena.old }
    ensures scopes { frames.new.scopes ≡ frames.old.scopes }
{
    touch_all(frames, arena, records.as_slice())?;
    put_in(arena, records);
    Ok(())
}

#[tactic(auto, using(crate::proofs::FreeSteps::frees))]
/// Each object gets the record at its place, where there is one. Takes no memory but for the identities of new persistent objects,
/// without which they are found more slowly.
fn put_in(arena: &mut Arena, records: ListOf<Option<Object>>)
    requires long { length records ≡ length arena.old.objects }
    requires follow { spec.CanFollow arena.old (spec.with_records arena.old records).objects }
    ensures put { arena.new ≡ spec.with_records arena.old records }
    ensures classes { classes_of arena.new ≡ classes_of arena.old }
{
    // There is a root class for each object.
    let _count = arena.count();
    step_aside(arena, records.as_slice());
    put_all(arena, records);
}
