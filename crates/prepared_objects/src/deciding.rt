//! All that a flush decides before it writes.

ghost use Rattle.std.specs.Prelude.{◌≡◌, IfOk};
ghost use Rattle.std.specs.List.{All};
ghost use Rattle.object_arena.specs.Fit.{IsFit};
ghost use Rattle.object_arena.specs.Graph.{IsObject};
ghost use Rattle.object_rows.specs.Seen.{AreMade};
ghost use Rattle.prepared_objects.specs.Leaving as spec;

use crate::clearing::cleared;
use crate::leaving::{left_with_orphans, persistent_of, push_pending, reached};
use base_core::{ListOf, ObjList, ObjSet};
use class_mapping::Mapping;
use object_arena::Arena;
use object_rows::{LinkIndex, ObjIndex, Prepared};
use std::alloc::{AllocError, Global};

/// The pending objects of both sets.
#[tactic(auto, unfolding(crate::specs::Leaving::dropped))]
fn dropped(
    alloc: Global,
    arena: &Arena,
    mapping: &Mapping,
    reached: &ObjSet,
) -> Result<ObjList, AllocError>
    requires fit { IsFit mapping.now arena.now }
    requires reached { reached.now ≡ spec.reached mapping.now arena.now }
    requires made { All (IsObject arena.now) reached.now }
    ensures { IfOk result (λ dropped. dropped ≡ spec.dropped mapping.now arena.now) }
{
    let left = left_with_orphans(alloc, arena, mapping)?;
    let mut dropped = ListOf::new(alloc);
    push_pending(&mut dropped, arena, reached.as_slice())?;
    push_pending(&mut dropped, arena, left.as_slice())?;
    Ok(dropped)
}

/// What a flush decides of the objects before it writes. Persistent objects that are marked or that their parent left are to be
/// deleted, with the persistent objects that deletes go on to from them; pending ones among these, and what leaves the session with
/// pending orphans, are to be transient; members that stay lose their links to deleted owners. The only refusal is out of memory.
#[tactic(auto, unfolding(crate::specs::Leaving::prepared_of, crate::specs::Leaving::going))]
pub fn prepared(alloc: Global, arena: &Arena, mapping: &Mapping) -> Result<Prepared, AllocError>
    requires { IsFit mapping.now arena.now }
    ensures prepared { IfOk result
        (λ prepared. prepared ≡ spec.prepared_of mapping.now arena.now) }
    ensures made { IfOk result (AreMade arena.now) }
{
    let reached = reached(alloc, arena, mapping)?;
    let deleted = ObjIndex::of(alloc, persistent_of(alloc, arena, reached.as_slice())?)?;
    let transient = ObjIndex::of(alloc, dropped(alloc, arena, mapping, &reached)?)?;
    let cleared = LinkIndex::of(alloc, cleared(alloc, arena, mapping, &deleted)?)?;
    Ok(Prepared {
        deleted,
        transient,
        cleared,
    })
}
