//! The reading of collections by batches of keys.

ghost use Rattle.std.specs.Prelude.{◌≡◌, ◌<◌, true, length, IfErr, IfOk};
ghost use Rattle.std.specs.List.{All, AllByRecursion};
ghost use Rattle.class_mapping.specs.Configured.{IsConfigured};
ghost use Rattle.class_mapping.specs.Related.{IsRelated};
ghost use Rattle.object_arena.specs.Fit.{IsFit};
ghost use Rattle.object_arena.specs.Graph.{Graph};
ghost use Rattle.keeper_core.specs.Beside.{moment_beside};
ghost use Rattle.keeper_core.specs.Moment.{Runs};
ghost use Rattle.sql_semantics.specs.Plain.{IsPlainSelect};
ghost use Rattle.collection_selects.specs.Collections.{batch_select};
ghost use Rattle.load_filling.specs.Growing.{Grows};
ghost use Rattle.load_rows.specs.Loading.{loading};
ghost use Rattle.collection_selects.specs.Pairs.{IsMemberRow};
ghost use Rattle.load_calls.specs.Refreshing.{CanRefuseCells};
ghost use Rattle.load_calls.specs.Reading.{IsReady, StaysReady};
ghost use Rattle.load_calls.specs.Refusals.{CanRefuseRows};
ghost use Rattle.load_batches.specs.Batches as spec;

use crate::cuts::batch_at;
use crate::filling::fill_owners;
use crate::members::take_members;
use crate::owners::{Owner, keys_of, unloaded_owners};
use base_core::{ObjId, Refusal, RelNo, RowList};
use class_mapping::{Mapping, Relation};
use collection_selects::batch_select;
use expr_types::Select;
use keeper_core::{Keeper, Notes};
use load_calls::read;
use object_arena::Arena;
use object_parts::batch_starts;
use std::alloc::{AllocError, Global};
use std::mem::drop;

/// The select of the members of owners.
fn select_of_batch(
    alloc: Global,
    mapping: &Mapping,
    relation: &Relation,
    owners: &[Owner],
) -> Result<Select, AllocError>
    requires related { IsRelated mapping.now relation.now }
    requires many { relation.now.many ≡ true }
    requires some { 0 < length owners.now }
    requires keyed { IsConfigured mapping.now
        → All (spec.IsKeyed mapping.now relation.now) owners.now }
    ensures select { IfOk result
        (λ s. s ≡ batch_select mapping.now relation.now (spec.keys_of owners.now)) }
    ensures plain { IfOk result
        (λ s. IsConfigured mapping.now → IsPlainSelect mapping.now.schema s) }
{
    let keys = keys_of(alloc, owners)?;
    batch_select(alloc, mapping, relation, keys.as_slice())
}

/// The rows of the members of owners.
fn read_batch<K: Keeper>(
    alloc: Global,
    mapping: &Mapping,
    keeper: &mut K,
    relation: &Relation,
    owners: &[Owner],
    notes: &mut Notes,
) -> Result<RowList, Refusal>
    requires related { IsRelated mapping.now relation.now }
    requires many { relation.now.many ≡ true }
    requires some { 0 < length owners.now }
    requires keyed { IsConfigured mapping.now
        → All (spec.IsKeyed mapping.now relation.now) owners.now }
    requires ready { IsReady (K.moment keeper.old) }
    ensures step { (graph : Graph) → Runs (moment_beside K.moment) (λ rows. rows)
        (spec.read_batch mapping.now relation.now owners.now)
        (loading graph notes.old, keeper.old) result (loading graph notes.new, keeper.new) }
    ensures stays { StaysReady (K.moment keeper.old) result (K.moment keeper.new) }
    ensures rows { IfOk result (AllByRecursion (IsMemberRow mapping.now relation.now)) }
    ensures refuses { IfErr result (CanRefuseCells mapping.now) }
{
    let wanted = select_of_batch(alloc, mapping, relation, owners)?;
    let rows = read(alloc, mapping, keeper, &wanted, notes);
    drop(wanted);
    rows
}

/// The collections of the owners of a batch are read by one select; where there is no owner, none is sent.
fn load_batch<K: Keeper>(
    alloc: Global,
    arena: &mut Arena,
    mapping: &Mapping,
    keeper: &mut K,
    relation: &Relation,
    place: RelNo,
    owners: &[Owner],
    notes: &mut Notes,
) -> Result<(), Refusal>
    requires fit { IsFit mapping.now arena.old }
    requires related { IsRelated mapping.now relation.now }
    requires many { relation.now.many ≡ true }
    requires owned { All (spec.IsOwned mapping.now arena.old relation.now place) owners.now }
    requires ready { IsReady (K.moment keeper.old) }
    ensures step { Runs (moment_beside K.moment) (λ u. u)
        (spec.load_batch mapping.now relation.now place owners.now)
        (loading arena.old notes.old, keeper.old) result
        (loading arena.new notes.new, keeper.new) }
    ensures stays { StaysReady (K.moment keeper.old) result (K.moment keeper.new) }
    ensures grows { Grows arena.old arena.new }
    ensures fits { IsFit mapping.now arena.new }
    ensures refuses { IfErr result (CanRefuseRows mapping.now arena.new) }
{
    if owners.is_empty() {
        return Ok(());
    }
    let rows = read_batch(alloc, mapping, keeper, relation, owners, notes)?;
    let members = take_members(alloc, arena, mapping, relation, rows.as_slice(), notes)?;
    Ok(fill_owners(
        alloc,
        arena,
        mapping,
        relation,
        place,
        owners,
        members.as_slice(),
        notes,
    )?)
}

/// The collections of the owners of the batches that begin at these places are read, by one select for each.
#[tactic(auto, unfolding(crate::specs::Batches::load_each))]
fn load_each<K: Keeper>(
    alloc: Global,
    arena: &mut Arena,
    mapping: &Mapping,
    keeper: &mut K,
    relation: &Relation,
    place: RelNo,
    owners: &[Owner],
    starts: &[usize],
    notes: &mut Notes,
) -> Result<(), Refusal>
    requires fit { IsFit mapping.now arena.old }
    requires related { IsRelated mapping.now relation.now }
    requires many { relation.now.many ≡ true }
    requires owned { All (spec.IsOwned mapping.now arena.old relation.now place) owners.now }
    requires ready { IsReady (K.moment keeper.old) }
    ensures step { Runs (moment_beside K.moment) (λ u. u)
        (spec.load_each mapping.now relation.now place owners.now starts.now)
        (loading arena.old notes.old, keeper.old) result
        (loading arena.new notes.new, keeper.new) }
    ensures stays { StaysReady (K.moment keeper.old) result (K.moment keeper.new) }
    ensures grows { Grows arena.old arena.new }
    ensures fits { IsFit mapping.now arena.new }
    ensures refuses { IfErr result (CanRefuseRows mapping.now arena.new) }
{
    for start in starts {
        let batch = batch_at(owners, *start);
        load_batch(alloc, arena, mapping, keeper, relation, place, batch, notes)?;
    }
    Ok(())
}

/// The collections of owners are read by one select for each batch.
fn load_batches<K: Keeper>(
    alloc: Global,
    arena: &mut Arena,
    mapping: &Mapping,
    keeper: &mut K,
    relation: &Relation,
    place: RelNo,
    owners: &[Owner],
    notes: &mut Notes,
) -> Result<(), Refusal>
    requires fit { IsFit mapping.now arena.old }
    requires related { IsRelated mapping.now relation.now }
    requires many { relation.now.many ≡ true }
    requires owned { All (spec.IsOwned mapping.now arena.old relation.now place) owners.now }
    requires ready { IsReady (K.moment keeper.old) }
    ensures step { Runs (moment_beside K.moment) (λ u. u)
        (spec.load_batches mapping.now relation.now place owners.now)
        (loading arena.old notes.old, keeper.old) result
        (loading arena.new notes.new, keeper.new) }
    ensures stays { StaysReady (K.moment keeper.old) result (K.moment keeper.new) }
    ensures grows { Grows arena.old arena.new }
    ensures fits { IsFit mapping.now arena.new }
    ensures refuses { IfErr result (CanRefuseRows mapping.now arena.new) }
{
    let starts = batch_starts(alloc, owners.len())?;
    load_each(
        alloc,
        arena,
        mapping,
        keeper,
        relation,
        place,
        owners,
        starts.as_slice(),
        notes,
    )
}

/// Loads the collections of persistent owners at the place of a relationship to many, with a secondary table or without: those that
/// are unloaded are read, by one select for the keys of each 500 owners and none where there is no owner, and hold their members in
/// the order of their keys then, with the changes that were kept for them. Each owner is noted, and each member of which a cell was
/// filled.
///
/// # Errors
/// `OperationalError` where a table of the target, or the secondary one, was not created, `KeeperFault`,
/// `InvalidRequestError(NoSuchIdentity)`, `LimitReached(Objects)`, `Memory`. The collections of the batches before the refused one
/// are loaded; the members of its rows before the refusal stay.
pub fn load_members<K: Keeper>(
    alloc: Global,
    arena: &mut Arena,
    mapping: &Mapping,
    keeper: &mut K,
    relation: &Relation,
    place: RelNo,
    owners: &[ObjId],
    notes: &mut Notes,
) -> Result<(), Refusal>
    requires fit { IsFit mapping.now arena.old }
    requires related { IsRelated mapping.now relation.now }
    requires many { relation.now.many ≡ true }
    requires owners { All (spec.IsOwner mapping.now arena.old relation.now place) owners.now }
    requires ready { IsReady (K.moment keeper.old) }
    ensures step { Runs (moment_beside K.moment) (λ u. u)
        (spec.load_members mapping.now relation.now place owners.now)
        (loading arena.old notes.old, keeper.old) result
        (loading arena.new notes.new, keeper.new) }
    ensures stays { StaysReady (K.moment keeper.old) result (K.moment keeper.new) }
    ensures grows { Grows arena.old arena.new }
    ensures fits { IsFit mapping.now arena.new }
    ensures refuses { IfErr result (CanRefuseRows mapping.now arena.new) }
{
    let unloaded = unloaded_owners(alloc, &*arena, place, owners)?;
    load_batches(
        alloc,
        arena,
        mapping,
        keeper,
        relation,
        place,
        unloaded.as_slice(),
        notes,
    )
}
