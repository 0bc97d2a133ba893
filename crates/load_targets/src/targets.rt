//! The reading of a many-to-one link.

ghost use Rattle.std.specs.Prelude.{◌≡◌, ◌<◌, true, false, None, length, IfErr, IfOk};
ghost use Rattle.schema_core.specs.Tables.{has_null};
ghost use Rattle.class_mapping.specs.Mapped.{IsClass, relations_of, root_of};
ghost use Rattle.object_arena.specs.declared.object.State.TheVariants.{Persistent};
ghost use Rattle.object_arena.specs.Every.{classes_of};
ghost use Rattle.object_arena.specs.Fit.{IsFit, end_fits, key_fits, relation_of};
ghost use Rattle.object_arena.specs.Graph.{IsObject, object_at};
ghost use Rattle.keeper_core.specs.Beside.{moment_beside};
ghost use Rattle.keeper_core.specs.Moment.{Runs};
ghost use Rattle.load_filling.specs.Growing.{Grows};
ghost use Rattle.load_rows.specs.Loading.{loading};
ghost use Rattle.load_calls.specs.Reading.{IsReady, StaysReady};
ghost use Rattle.load_calls.specs.Refreshing.{CanRefuse, IsShownDeleted};
ghost use Rattle.load_calls.specs.Refusals.{CanRefuseLoad, CanRefuseRows};
ghost use Rattle.load_targets.specs.ForeignKeys.{foreign_key};
ghost use Rattle.load_targets.specs.Targets as spec;

use crate::ends::find_or_load;
use crate::keys::{foreign_attrs, is_expired_among, values_at};
use base_core::{Key, ObjId, Refusal, RelNo};
use class_mapping::{Mapping, Relation};
use keeper_core::{Keeper, Notes};
use load_calls::refresh;
use load_rows::{fill_end, relation_at};
use object_arena::Arena;
use std::alloc::{AllocError, Global};

/// The expired cells of an object are read where one of the foreign key is among them.
#[tactic(auto, unfolding(crate::specs::Targets::refresh_key))]
fn refresh_key<K: Keeper>(
    alloc: Global,
    arena: &mut Arena,
    mapping: &Mapping,
    keeper: &mut K,
    relation: &Relation,
    child: ObjId,
    notes: &mut Notes,
) -> Result<(), Refusal>
    requires fit { IsFit mapping.now arena.old }
    requires child { IsObject arena.old child }
    requires persistent { (object_at arena.old child).state ≡ Persistent }
    requires ready { IsReady (K.moment keeper.old) }
    ensures step { Runs (moment_beside K.moment) (λ u. u)
        (spec.refresh_key mapping.now relation.now child)
        (loading arena.old notes.old, keeper.old) result
        (loading arena.new notes.new, keeper.new) }
    ensures stays { StaysReady (K.moment keeper.old) result (K.moment keeper.new) }
    ensures fits { IsFit mapping.now arena.new }
    ensures classes { classes_of arena.new ≡ classes_of arena.old }
    ensures refuses { IfErr result (CanRefuse mapping.now child) }
    ensures shown { IfErr result (IsShownDeleted mapping.now child
        (loading arena.old notes.old, K.moment keeper.old)
        (loading arena.new notes.new, K.moment keeper.new)) }
{
    let record = arena.object(child);
    let attrs = foreign_attrs(alloc, mapping, record.class, relation)?;
    if !is_expired_among(record, attrs.as_slice()) {
        return Ok(());
    }
    refresh(alloc, arena, mapping, keeper, child, notes)
}

/// What the cells of the foreign key of a many-to-one relationship hold, NULL in the place of one that is expired: a key of its
/// target, unless it has a NULL.
pub fn target_key(
    alloc: Global,
    arena: &Arena,
    mapping: &Mapping,
    relation: &Relation,
    child: ObjId,
    place: RelNo,
) -> Result<Key, AllocError>
    requires fit { IsFit mapping.now arena.now }
    requires child { IsObject arena.now child }
    requires place { place.0 < length (relations_of mapping.now (object_at arena.now child).class) }
    requires relation { relation.now
        ≡ relation_of mapping.now (object_at arena.now child).class place }
    requires one { relation.now.many ≡ false }
    ensures key { IfOk result
        (λ key. key ≡ foreign_key mapping.now relation.now (object_at arena.now child)) }
    ensures target { IfOk result (λ _. IsClass mapping.now relation.now.target) }
    ensures fits { IfOk result (λ key. has_null key ≡ false
        → key_fits mapping.now relation.now.target key ≡ true) }
{
    let _ = place;
    let record = arena.object(child);
    let attrs = foreign_attrs(alloc, mapping, record.class, relation)?;
    values_at(alloc, record, attrs.as_slice())
}

/// The object to which the cells of the foreign key lead, found or read.
fn read_target<K: Keeper>(
    alloc: Global,
    arena: &mut Arena,
    mapping: &Mapping,
    keeper: &mut K,
    relation: &Relation,
    child: ObjId,
    place: RelNo,
    notes: &mut Notes,
) -> Result<Option<ObjId>, Refusal>
    requires fit { IsFit mapping.now arena.old }
    requires child { IsObject arena.old child }
    requires place { place.0 < length (relations_of mapping.now (object_at arena.old child).class) }
    requires relation { relation.now
        ≡ relation_of mapping.now (object_at arena.old child).class place }
    requires one { relation.now.many ≡ false }
    requires ready { IsReady (K.moment keeper.old) }
    ensures step { Runs (moment_beside K.moment) (λ end. end)
        (spec.read_target mapping.now relation.now child)
        (loading arena.old notes.old, keeper.old) result
        (loading arena.new notes.new, keeper.new) }
    ensures stays { StaysReady (K.moment keeper.old) result (K.moment keeper.new) }
    ensures of { IfOk result (λ end. end_fits arena.new.roots
        (root_of mapping.now relation.now.target) end ≡ true) }
    ensures grows { Grows arena.old arena.new }
    ensures fits { IsFit mapping.now arena.new }
    ensures refuses { IfErr result (CanRefuseRows mapping.now arena.new) }
{
    let key = target_key(alloc, &*arena, mapping, relation, child, place)?;
    find_or_load(alloc, arena, mapping, keeper, relation.target, &key, notes)
}

/// Loads the many-to-one link of a persistent object at a place; where it is unloaded, it leads to the object that stands for the
/// row of its foreign key then, and the object is noted. The object's expired cells are read first where one of the foreign key is among
/// them. No select is sent for a target that the identity map has, nor for a key with a NULL.
///
/// # Errors
/// `ObjectDeletedError` of the object where its cells are to be read and it has no row, `OperationalError` where a table was not
/// created, `KeeperFault`, `InvalidRequestError(NoSuchIdentity)`, `LimitReached(Objects)`, `Memory`. The link is as it was then.
#[tactic(auto, unfolding(crate::specs::Targets::load_target))]
pub fn load_target<K: Keeper>(
    alloc: Global,
    arena: &mut Arena,
    mapping: &Mapping,
    keeper: &mut K,
    child: ObjId,
    place: RelNo,
    notes: &mut Notes,
) -> Result<(), Refusal>
    requires fit { IsFit mapping.now arena.old }
    requires child { IsObject arena.old child }
    requires persistent { (object_at arena.old child).state ≡ Persistent }
    requires place { place.0 < length (relations_of mapping.now (object_at arena.old child).class) }
    requires one { (relation_of mapping.now (object_at arena.old child).class place).many ≡ false }
    requires ready { IsReady (K.moment keeper.old) }
    ensures step { Runs (moment_beside K.moment) (λ u. u) (spec.load_target mapping.now
        (relation_of mapping.now (object_at arena.old child).class place) child place)
        (loading arena.old notes.old, keeper.old) result
        (loading arena.new notes.new, keeper.new) }
    ensures stays { StaysReady (K.moment keeper.old) result (K.moment keeper.new) }
    ensures grows { Grows arena.old arena.new }
    ensures fits { IsFit mapping.now arena.new }
    ensures refuses { IfErr result (CanRefuseLoad mapping.now arena.new child) }
    ensures shown { IfErr result (IsShownDeleted mapping.now child
        (loading arena.old notes.old, K.moment keeper.old)
        (loading arena.new notes.new, K.moment keeper.new)) }
{
    let relation = relation_at(mapping, arena.object(child).class, place);
    refresh_key(alloc, arena, mapping, keeper, relation, child, notes)?;
    let end = read_target(alloc, arena, mapping, keeper, relation, child, place, notes)?;
    Ok(fill_end(arena, mapping, child, place, end, notes)?)
}
