//! The objects as success of a flush makes them.

ghost use Rattle.std.specs.Prelude.{◌≡◌, length, IfOk, OnErr, OnOk};
ghost use Rattle.object_arena.specs.Every.{classes_of};
ghost use Rattle.object_arena.specs.Fit.{IsFit};
ghost use Rattle.object_records.specs.Touched.{frames_touched_between};
ghost use Rattle.object_records.specs.Records.{CanFollow, with_records};
ghost use Rattle.graph_flushed.specs.Fitting.{IsFitting};
ghost use Rattle.graph_flushed.specs.Flushed as spec;

use crate::flushing::Flushing;
use base_core::{Key, ListOf};
use class_mapping::Mapping;
use graph_flushed::{key_holders, new_keys};
use object_arena::{Arena, Object};
use object_records::put_records;
use object_rows::{Prepared, new_names};
use object_writes::Projection;
use savepoints::Frames;
use schema_core::RowChanges;
use std::alloc::{AllocError, Global};

/// The records that objects get by success of a flush of a prepared graph whose new rows have these keys.
fn records_flushed(
    alloc: Global,
    arena: &Arena,
    mapping: &Mapping,
    prepared: &Prepared,
    changes: &RowChanges,
    keys: &ListOf<Key>,
) -> Result<ListOf<Option<Object>>, AllocError>
    requires fit { IsFit mapping.now arena.now }
    ensures records { IfOk result (λ records. with_records arena.now records
        ≡ spec.graph_flushed mapping.now prepared.now changes.now keys.now arena.now) }
    ensures long { IfOk result (λ records. length records ≡ length arena.now.objects) }
    ensures follow { IfOk result
        (λ records. CanFollow arena.now (with_records arena.now records).objects) }
{
    let names = new_names(alloc, mapping, arena, prepared)?;
    let projection = Projection {
        names: &names,
        prepared,
        arena,
        mapping,
    };
    let keys = new_keys(alloc, arena, mapping, prepared, changes, keys)?;
    let given = keys.as_slice();
    let holders = key_holders(alloc, arena, given)?;
    // No two persistent objects have one root and one key.
    let _count = arena.count();
    let flushing = Flushing {
        projection: &projection,
        keys: given,
        holders: &holders,
    };
    flushing.records(alloc)
}

#[tactic(auto, using(graph_flushed::proofs::FitSteps::fits))]
/// The objects become what success of a flush makes of them, where its new rows have these keys, in the order of its changes.
/// Before that each object whose record comes to differ is touched in the innermost scope, and no other.
///
/// A pending object is persistent under the key of its row, and one that is to be transient is so. An object that is deleted has
/// this state, and no mark. Every cell holds what was written for it, and outside the key what came through a changed link; its
/// base is its value. An expired cell stays so. Links lose their flags and kept changes, those that the preparation clears are
/// none, and unset ones of objects in the session are to be read. A persistent object whose key a new one has, and that is not
/// deleted, is detached; so are all but the first of several new ones with one key.
///
/// The objects fit the mapping then, where what came through links and the classes'
/// identities fit their attributes, and no collection is cleared.
///
/// # Errors
/// `Memory` alone, also where an object has more cells or links than have numbers: some objects may have been touched then, and
/// none has changed.
pub fn settle(
    alloc: Global,
    arena: &mut Arena,
    frames: &mut Frames,
    mapping: &Mapping,
    prepared: &Prepared,
    changes: &RowChanges,
    keys: &ListOf<Key>,
) -> Result<(), AllocError>
    requires fit { IsFit mapping.now arena.old }
    ensures ok { OnOk result (arena.new
        ≡ spec.graph_flushed mapping.now prepared.now changes.now keys.now arena.old) }
    ensures touched { OnOk result
        (frames.new ≡ frames_touched_between arena.old arena.new frames.old) }
    ensures err { OnErr result (arena.new ≡ arena.old) }
    ensures fits { IsFitting (spec.written_with mapping.now
        prepared.now changes.now keys.now arena.old) → IsFit mapping.now arena.new }
    ensures classes { classes_of arena.new ≡ classes_of arena.old }
    ensures scopes { frames.new.scopes ≡ frames.old.scopes }
{
    let records = records_flushed(alloc, arena, mapping, prepared, changes, keys)?;
    put_records(arena, frames, records)
}
