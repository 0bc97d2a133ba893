//! The reading of a collection.

ghost use Rattle.std.specs.Prelude.{◌≡◌, ◌<◌, true, length, IfErr, IfOk};
ghost use Rattle.std.specs.List.{AllByRecursion};
ghost use Rattle.class_mapping.specs.Configured.{IsConfigured};
ghost use Rattle.class_mapping.specs.Mapped.{relations_of};
ghost use Rattle.class_mapping.specs.Related.{IsRelated};
ghost use Rattle.object_arena.specs.declared.object.State.TheVariants.{Persistent};
ghost use Rattle.object_arena.specs.Fit.{IsFit, relation_of};
ghost use Rattle.object_arena.specs.Graph.{IsObject, object_at};
ghost use Rattle.keeper_core.specs.Beside.{moment_beside};
ghost use Rattle.keeper_core.specs.Moment.{Runs};
ghost use Rattle.sql_semantics.specs.Plain.{IsPlainSelect};
ghost use Rattle.collection_selects.specs.Collections.{members_select};
ghost use Rattle.load_filling.specs.Growing.{Grows};
ghost use Rattle.load_rows.specs.Loading.{loading};
ghost use Rattle.load_rows.specs.Reading.{IsRowOf, identity_key};
ghost use Rattle.load_calls.specs.Refreshing.{CanRefuseCells};
ghost use Rattle.load_calls.specs.Reading.{IsReady, StaysReady};
ghost use Rattle.load_calls.specs.Collections as spec;
ghost use Rattle.load_calls.specs.Refusals.{CanRefuseRows};

use crate::reading::read;
use crate::rows::take_rows;
use base_core::{ObjId, Refusal, RelNo, RowList};
use class_mapping::{Mapping, Relation};
use collection_selects::members_select;
use expr_types::Select;
use keeper_core::{Keeper, Notes};
use load_rows::{fill_collection, identity_key, relation_at};
use object_arena::Arena;
use std::alloc::{AllocError, Global};
use std::mem::drop;

/// The select of the members of a persistent owner.
fn select_of_members(
    alloc: Global,
    arena: &Arena,
    mapping: &Mapping,
    relation: &Relation,
    owner: ObjId,
    place: RelNo,
) -> Result<Select, AllocError>
    requires fit { IsFit mapping.now arena.now }
    requires owner { IsObject arena.now owner }
    requires persistent { (object_at arena.now owner).state ≡ Persistent }
    requires place { place.0 < length (relations_of mapping.now (object_at arena.now owner).class) }
    requires relation { relation.now
        ≡ relation_of mapping.now (object_at arena.now owner).class place }
    requires related { IsRelated mapping.now relation.now }
    requires many { relation.now.many ≡ true }
    ensures select { IfOk result (λ s. s ≡ members_select mapping.now relation.now
        (identity_key arena.now owner)) }
    ensures plain { IfOk result
        (λ s. IsConfigured mapping.now → IsPlainSelect mapping.now.schema s) }
{
    let _ = place;
    let _ = arena.object(owner);
    let key = identity_key(alloc, arena, owner)?;
    members_select(alloc, mapping, relation, &key)
}

/// The rows of the members of a persistent owner.
fn read_members<K: Keeper>(
    alloc: Global,
    arena: &Arena,
    mapping: &Mapping,
    keeper: &mut K,
    relation: &Relation,
    owner: ObjId,
    place: RelNo,
    notes: &mut Notes,
) -> Result<RowList, Refusal>
    requires fit { IsFit mapping.now arena.now }
    requires owner { IsObject arena.now owner }
    requires persistent { (object_at arena.now owner).state ≡ Persistent }
    requires place { place.0 < length (relations_of mapping.now (object_at arena.now owner).class) }
    requires relation { relation.now
        ≡ relation_of mapping.now (object_at arena.now owner).class place }
    requires related { IsRelated mapping.now relation.now }
    requires many { relation.now.many ≡ true }
    requires ready { IsReady (K.moment keeper.old) }
    ensures step { Runs (moment_beside K.moment) (λ rows. rows)
        (spec.read_members mapping.now relation.now owner)
        (loading arena.now notes.old, keeper.old) result
        (loading arena.now notes.new, keeper.new) }
    ensures stays { StaysReady (K.moment keeper.old) result (K.moment keeper.new) }
    ensures rows { IfOk result (AllByRecursion (IsRowOf mapping.now relation.now.target)) }
    ensures refuses { IfErr result (CanRefuseCells mapping.now) }
{
    let wanted = select_of_members(alloc, arena, mapping, relation, owner, place)?;
    let rows = read(alloc, mapping, keeper, &wanted, notes);
    drop(wanted);
    rows
}

/// Reads the collection of a persistent object at the place of a relationship, with or without a secondary table, by one select;
/// where it is unloaded, it holds the members in the order of their keys then, with the changes that were kept for it, and the
/// object is noted. Each member is noted of which a cell was filled.
///
/// # Errors
/// `OperationalError` where a table of the target or the secondary one was not created, `KeeperFault`,
/// `InvalidRequestError(NoSuchIdentity)`, `LimitReached(Objects)`, `Memory`. The members of the rows before the refusal stay, and the collection is as it was.
#[tactic(auto, unfolding(crate::specs::Collections::load_collection))]
pub fn load_collection<K: Keeper>(
    alloc: Global,
    arena: &mut Arena,
    mapping: &Mapping,
    keeper: &mut K,
    owner: ObjId,
    place: RelNo,
    notes: &mut Notes,
) -> Result<(), Refusal>
    requires fit { IsFit mapping.now arena.old }
    requires owner { IsObject arena.old owner }
    requires persistent { (object_at arena.old owner).state ≡ Persistent }
    requires place { place.0 < length (relations_of mapping.now (object_at arena.old owner).class) }
    requires many { (relation_of mapping.now (object_at arena.old owner).class place).many ≡ true }
    requires ready { IsReady (K.moment keeper.old) }
    ensures step { Runs (moment_beside K.moment) (λ u. u) (spec.load_collection mapping.now
        (relation_of mapping.now (object_at arena.old owner).class place) owner place)
        (loading arena.old notes.old, keeper.old) result
        (loading arena.new notes.new, keeper.new) }
    ensures stays { StaysReady (K.moment keeper.old) result (K.moment keeper.new) }
    ensures grows { Grows arena.old arena.new }
    ensures fits { IsFit mapping.now arena.new }
    ensures refuses { IfErr result (CanRefuseRows mapping.now arena.new) }
{
    let relation = relation_at(mapping, arena.object(owner).class, place);
    let rows = read_members(
        alloc, &*arena, mapping, keeper, relation, owner, place, notes,
    )?;
    let members = take_rows(
        alloc,
        arena,
        mapping,
        relation.target,
        rows.as_slice(),
        notes,
    )?;
    Ok(fill_collection(
        alloc,
        arena,
        mapping,
        owner,
        place,
        members.as_slice(),
        notes,
    )?)
}
