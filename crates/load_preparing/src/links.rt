//! Links that are to be read before objects are deleted.

ghost use Rattle.std.specs.Prelude.{◌≡◌, ◌<◌, length, IfErr};
ghost use Rattle.class_mapping.specs.Mapped.{relations_of};
ghost use Rattle.object_arena.specs.Fit.{IsFit};
ghost use Rattle.object_arena.specs.Graph.{IsObject, object_at};
ghost use Rattle.keeper_core.specs.Beside.{moment_beside};
ghost use Rattle.keeper_core.specs.Moment.{Runs};
ghost use Rattle.load_filling.specs.Growing.{Grows};
ghost use Rattle.load_rows.specs.Loading.{loading};
ghost use Rattle.load_calls.specs.Reading.{IsReady, StaysReady};
ghost use Rattle.load_calls.specs.Refusals.{CanRefuseLoad};
ghost use Rattle.load_preparing.specs.Refusals.{IsShownAfter};
ghost use Rattle.load_preparing.specs.Preparing as spec;

use base_core::{ObjId, Refusal, RelNo};
use class_layouts::number_of;
use class_mapping::{Mapping, Relation};
use keeper_core::{Keeper, Notes};
use load_targets::load_lazy;
use object_arena::{Arena, Object, State};
use prepared_objects::lacks_link;
use std::alloc::Global;

/// Whether an object is persistent still, and lacks a link that is to be read, of this number.
fn is_to_load(object: &Object, number: usize, relation: &Relation) -> bool
    ensures { result ≡ spec.is_to_load object.now (number, relation.now) }
{
    matches!(object.state, State::Persistent) && lacks_link(object, number, relation)
}

/// A link of an object that is to be read, of this number, is loaded where it is not.
#[tactic(auto, unfolding(crate::specs::Preparing::read_link))]
fn read_link<K: Keeper>(
    alloc: Global,
    arena: &mut Arena,
    mapping: &Mapping,
    keeper: &mut K,
    object: ObjId,
    number: usize,
    relation: &Relation,
    notes: &mut Notes,
) -> Result<(), Refusal>
    requires fit { IsFit mapping.now arena.old }
    requires object { IsObject arena.old object }
    requires place { number < length (relations_of mapping.now (object_at arena.old object).class) }
    requires ready { IsReady (K.moment keeper.old) }
    ensures step { Runs (moment_beside K.moment) (λ u. u)
        (spec.read_link mapping.now object (number, relation.now) tt)
        (loading arena.old notes.old, keeper.old) result
        (loading arena.new notes.new, keeper.new) }
    ensures stays { StaysReady (K.moment keeper.old) result (K.moment keeper.new) }
    ensures grows { Grows arena.old arena.new }
    ensures fits { IsFit mapping.now arena.new }
    ensures refuses { IfErr result (CanRefuseLoad mapping.now arena.new object) }
    ensures shown { IfErr result (IsShownAfter mapping.now object
        (loading arena.old notes.old, K.moment keeper.old)
        (loading arena.new notes.new, K.moment keeper.new)) }
{
    if !is_to_load(arena.object(object), number, relation) {
        return Ok(());
    }
    let place = number_of(number)?;
    load_lazy(alloc, arena, mapping, keeper, object, RelNo(place), notes)
}

/// The links of an object that are to be read are loaded where they are not, in the order of the relationships.
#[tactic(auto, unfolding(crate::specs::Preparing::read_links))]
pub(crate) fn read_links<K: Keeper>(
    alloc: Global,
    arena: &mut Arena,
    mapping: &Mapping,
    keeper: &mut K,
    object: ObjId,
    notes: &mut Notes,
) -> Result<(), Refusal>
    requires fit { IsFit mapping.now arena.old }
    requires object { IsObject arena.old object }
    requires ready { IsReady (K.moment keeper.old) }
    ensures step { Runs (moment_beside K.moment) (λ u. u)
        (spec.read_links mapping.now object)
        (loading arena.old notes.old, keeper.old) result
        (loading arena.new notes.new, keeper.new) }
    ensures stays { StaysReady (K.moment keeper.old) result (K.moment keeper.new) }
    ensures grows { Grows arena.old arena.new }
    ensures fits { IsFit mapping.now arena.new }
    ensures refuses { IfErr result (CanRefuseLoad mapping.now arena.new object) }
    ensures shown { IfErr result (IsShownAfter mapping.now object
        (loading arena.old notes.old, K.moment keeper.old)
        (loading arena.new notes.new, K.moment keeper.new)) }
{
    let relations = mapping.relations(arena.object(object).class);
    for (number, relation) in relations.iter().enumerate() {
        read_link(
            alloc, arena, mapping, keeper, object, number, relation, notes,
        )?;
    }
    Ok(())
}
