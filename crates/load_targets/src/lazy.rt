//! The reading of any link.

ghost use Rattle.std.specs.Prelude.{◌≡◌, ◌<◌, length, IfErr};
ghost use Rattle.class_mapping.specs.Mapped.{relations_of};
ghost use Rattle.object_arena.specs.declared.object.State.TheVariants.{Persistent};
ghost use Rattle.object_arena.specs.Fit.{IsFit, relation_of};
ghost use Rattle.object_arena.specs.Graph.{IsObject, object_at};
ghost use Rattle.keeper_core.specs.Beside.{moment_beside};
ghost use Rattle.keeper_core.specs.Moment.{Runs};
ghost use Rattle.load_filling.specs.Growing.{Grows};
ghost use Rattle.load_rows.specs.Loading.{loading};
ghost use Rattle.load_calls.specs.Reading.{IsReady, StaysReady};
ghost use Rattle.load_calls.specs.Refreshing.{IsShownDeleted};
ghost use Rattle.load_calls.specs.Refusals.{CanRefuseLoad};
ghost use Rattle.load_targets.specs.Targets as spec;

use crate::targets::load_target;
use base_core::{ObjId, Refusal, RelNo};
use class_mapping::Mapping;
use keeper_core::{Keeper, Notes};
use load_calls::load_collection;
use load_rows::relation_at;
use object_arena::Arena;
use std::alloc::Global;

/// Loads the link of a persistent object at a place: its members or its end are read where that is needed, and it is filled where
/// it is unloaded.
///
/// # Errors
/// As `load_collection` and `load_target`.
#[tactic(auto, unfolding(crate::specs::Targets::load_lazy))]
pub fn load_lazy<K: Keeper>(
    alloc: Global,
    arena: &mut Arena,
    mapping: &Mapping,
    keeper: &mut K,
    object: ObjId,
    place: RelNo,
    notes: &mut Notes,
) -> Result<(), Refusal>
    requires fit { IsFit mapping.now arena.old }
    requires object { IsObject arena.old object }
    requires persistent { (object_at arena.old object).state ≡ Persistent }
    requires place { place.0 < length (relations_of mapping.now (object_at arena.old object).class) }
    requires ready { IsReady (K.moment keeper.old) }
    ensures step { Runs (moment_beside K.moment) (λ u. u)
        (spec.load_lazy mapping.now object place)
        (loading arena.old notes.old, keeper.old) result
        (loading arena.new notes.new, keeper.new) }
    ensures stays { StaysReady (K.moment keeper.old) result (K.moment keeper.new) }
    ensures grows { Grows arena.old arena.new }
    ensures fits { IsFit mapping.now arena.new }
    ensures refuses { IfErr result (CanRefuseLoad mapping.now arena.new object) }
    ensures shown { IfErr result (IsShownDeleted mapping.now object
        (loading arena.old notes.old, K.moment keeper.old)
        (loading arena.new notes.new, K.moment keeper.new)) }
{
    let relation = relation_at(mapping, arena.object(object).class, place);
    if relation.many {
        return load_collection(alloc, arena, mapping, keeper, object, place, notes);
    }
    load_target(alloc, arena, mapping, keeper, object, place, notes)
}
