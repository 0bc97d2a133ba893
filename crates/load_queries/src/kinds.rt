//! One link of several objects, by its kind.

ghost use Rattle.std.specs.Prelude.{◌≡◌, ◌<◌, length, slice_get, IfErr};
ghost use Rattle.std.specs.List.{All};
ghost use Rattle.class_mapping.specs.Mapped.{IsClass, relations_of};
ghost use Rattle.class_mapping.specs.Paired.{HasPairs};
ghost use Rattle.class_mapping.specs.Related.{IsRelated};
ghost use Rattle.object_arena.specs.Fit.{IsFit, relation_of};
ghost use Rattle.keeper_core.specs.Beside.{moment_beside};
ghost use Rattle.keeper_core.specs.Moment.{Runs};
ghost use Rattle.load_filling.specs.Growing.{Grows};
ghost use Rattle.load_rows.specs.Loading.{loading};
ghost use Rattle.load_calls.specs.Reading.{IsReady, StaysReady};
ghost use Rattle.load_calls.specs.Refusals.{CanRefuseRows};
ghost use Rattle.load_batches.specs.Batches.{IsOwner};
ghost use Rattle.load_queries.specs.Selectin as spec;

use base_core::{ClassId, ObjId, Refusal, RelNo};
use class_mapping::{Mapping, Relation};
use keeper_core::{Keeper, Notes};
use load_batches::load_members;
use load_ends::load_ends;
use object_arena::Arena;
use std::alloc::Global;

/// The relationship at a place of a class, which has one there, as the class above it has.
pub(crate) fn related(mapping: &Mapping, class: ClassId, place: RelNo) -> &Relation
    requires class { IsClass mapping.now class }
    requires place { HasPairs mapping.now
        → place.0 < length (relations_of mapping.now class) }
    ensures is { result.now ≡ relation_of mapping.now class place }
    ensures related { IsRelated mapping.now result.now }
    ensures paired { HasPairs mapping.now }
{
    &mapping.relations(class)[place.0 as usize]
}

/// Loads the links of persistent owners at the place of a relationship, by its kind: those that are unloaded are read together and
/// filled. There is one select for the keys of each 500 owners of a collection, and one for each 500 keys of a many-to-one
/// relationship's targets that the identity map lacks; none where there is no key.
///
/// # Errors
/// `OperationalError` where a table of the target or the secondary one was not created, `KeeperFault`,
/// `InvalidRequestError(NoSuchIdentity)`, `LimitReached(Objects)`, `Memory`. The links of the batches before the refused one are
/// loaded where they are collections, and the objects of its rows before the refusal stay.
pub fn load_together<K: Keeper>(
    alloc: Global,
    arena: &mut Arena,
    mapping: &Mapping,
    keeper: &mut K,
    relation: &Relation,
    place: RelNo,
    owners: &[ObjId],
    notes: &mut Notes,
) -> Result<(), Refusal>
    requires fit { IsFit mapping.now arena.old }
    requires related { IsRelated mapping.now relation.now }
    requires owners { All (IsOwner mapping.now arena.old relation.now place) owners.now }
    requires ready { IsReady (K.moment keeper.old) }
    ensures step { Runs (moment_beside K.moment) (λ u. u)
        (spec.load_together mapping.now relation.now place owners.now)
        (loading arena.old notes.old, keeper.old) result
        (loading arena.new notes.new, keeper.new) }
    ensures stays { StaysReady (K.moment keeper.old) result (K.moment keeper.new) }
    ensures grows { Grows arena.old arena.new }
    ensures fits { IsFit mapping.now arena.new }
    ensures refuses { IfErr result (CanRefuseRows mapping.now arena.new) }
{
    if relation.many {
        return load_members(
            alloc, arena, mapping, keeper, relation, place, owners, notes,
        );
    }
    load_ends(
        alloc, arena, mapping, keeper, owners, relation, place, notes,
    )
}

fn first_of(owners: &[ObjId]) -> Option<ObjId>
    ensures { result ≡ slice_get owners.now 0 }
{
    match owners.get(0) {
        Some(first) => Some(*first),
        None => None,
    }
}

/// Loads the links of owners at a place. The owners are persistent, of one class that has a relationship at the place or of classes
/// under it, which have the same one there. What an expired cell of a many-to-one link's foreign key holds counts as NULL.
///
/// # Errors
/// As `load_together`.
pub fn load_selectin<K: Keeper>(
    alloc: Global,
    arena: &mut Arena,
    mapping: &Mapping,
    keeper: &mut K,
    owners: &[ObjId],
    place: RelNo,
    notes: &mut Notes,
) -> Result<(), Refusal>
    requires fit { IsFit mapping.now arena.old }
    requires owners { spec.AreOwners mapping.now arena.old place owners.now }
    requires ready { IsReady (K.moment keeper.old) }
    ensures step { Runs (moment_beside K.moment) (λ u. u)
        (spec.load_selectin mapping.now place owners.now)
        (loading arena.old notes.old, keeper.old) result
        (loading arena.new notes.new, keeper.new) }
    ensures stays { StaysReady (K.moment keeper.old) result (K.moment keeper.new) }
    ensures grows { Grows arena.old arena.new }
    ensures fits { IsFit mapping.now arena.new }
    ensures refuses { IfErr result (CanRefuseRows mapping.now arena.new) }
{
    match first_of(owners) {
        Some(first) => {
            let relation = related(mapping, arena.object(first).class, place);
            load_together(
                alloc, arena, mapping, keeper, relation, place, owners, notes,
            )
        }
        None => Ok(()),
    }
}
