//! The reading of targets by batches of keys.

ghost use Rattle.std.specs.Prelude.{◌≡◌, ◌<◌, false, length, IfErr, IfOk};
ghost use Rattle.std.specs.List.{All, AllByRecursion};
ghost use Rattle.class_mapping.specs.Mapped.{IsClass};
ghost use Rattle.class_mapping.specs.Related.{IsRelated};
ghost use Rattle.object_arena.specs.Fit.{IsFit};
ghost use Rattle.object_arena.specs.Graph.{Graph};
ghost use Rattle.keeper_core.specs.Alone.{alone};
ghost use Rattle.keeper_core.specs.Beside.{moment_beside};
ghost use Rattle.keeper_core.specs.Moment.{Runs};
ghost use Rattle.load_selects.specs.Selects.{targets_select};
ghost use Rattle.load_filling.specs.Growing.{Grows};
ghost use Rattle.load_rows.specs.Loading.{loading};
ghost use Rattle.load_rows.specs.Reading.{IsRowOf};
ghost use Rattle.load_calls.specs.Refreshing.{CanRefuseCells};
ghost use Rattle.load_calls.specs.Reading.{IsReady, StaysReady, read};
ghost use Rattle.load_calls.specs.Refusals.{CanRefuseRow, CanRefuseRows};
ghost use Rattle.load_ends.specs.Ends as spec;

use crate::filling::fill_owners;
use crate::keys::wanted_keys;
use crate::owners::unloaded;
use base_core::{ClassId, Key, ObjId, Refusal, RelNo, RowList, RowValues};
use class_mapping::{Mapping, Relation};
use keeper_core::{Keeper, Notes};
use load_batches::batch_at;
use load_calls::{read, take_rows};
use load_selects::targets_select;
use object_arena::Arena;
use object_parts::batch_starts;
use std::alloc::Global;

/// The rows of a class under keys.
fn read_keys<K: Keeper>(
    alloc: Global,
    mapping: &Mapping,
    keeper: &mut K,
    class: ClassId,
    keys: &[Key],
    notes: &mut Notes,
) -> Result<RowList, Refusal>
    requires class { IsClass mapping.now class }
    requires some { 0 < length keys.now }
    requires keys { All (spec.FitsClass mapping.now class) keys.now }
    requires ready { IsReady (K.moment keeper.old) }
    ensures step { (graph : Graph) → Runs (moment_beside K.moment) (λ rows. rows)
        (read mapping.now.schema (targets_select mapping.now class keys.now))
        (loading graph notes.old, keeper.old) result (loading graph notes.new, keeper.new) }
    ensures stays { StaysReady (K.moment keeper.old) result (K.moment keeper.new) }
    ensures rows { IfOk result (AllByRecursion (IsRowOf mapping.now class)) }
    ensures refuses { IfErr result (CanRefuseCells mapping.now) }
{
    let wanted = targets_select(alloc, mapping, class, keys)?;
    read(alloc, mapping, keeper, &wanted, notes)
}

/// The objects of rows are found or made, and filled.
fn take_targets(
    alloc: Global,
    arena: &mut Arena,
    mapping: &Mapping,
    class: ClassId,
    rows: &[RowValues],
    notes: &mut Notes,
) -> Result<(), Refusal>
    requires class { IsClass mapping.now class }
    requires fit { IsFit mapping.now arena.old }
    requires rows { AllByRecursion (IsRowOf mapping.now class) rows.now }
    ensures step { Runs alone (λ u. u) (spec.take_targets mapping.now class rows.now)
        (loading arena.old notes.old) result (loading arena.new notes.new) }
    ensures grows { Grows arena.old arena.new }
    ensures fits { IsFit mapping.now arena.new }
    ensures refuses { IfErr result (CanRefuseRow mapping.now arena.new) }
{
    let _objects = take_rows(alloc, arena, mapping, class, rows, notes)?;
    Ok(())
}

/// The objects of a class under keys are read by one select; where there is no key, none is sent.
fn load_keys<K: Keeper>(
    alloc: Global,
    arena: &mut Arena,
    mapping: &Mapping,
    keeper: &mut K,
    class: ClassId,
    keys: &[Key],
    notes: &mut Notes,
) -> Result<(), Refusal>
    requires fit { IsFit mapping.now arena.old }
    requires class { IsClass mapping.now class }
    requires keys { All (spec.FitsClass mapping.now class) keys.now }
    requires ready { IsReady (K.moment keeper.old) }
    ensures step { Runs (moment_beside K.moment) (λ u. u)
        (spec.load_keys mapping.now class keys.now)
        (loading arena.old notes.old, keeper.old) result
        (loading arena.new notes.new, keeper.new) }
    ensures stays { StaysReady (K.moment keeper.old) result (K.moment keeper.new) }
    ensures grows { Grows arena.old arena.new }
    ensures fits { IsFit mapping.now arena.new }
    ensures refuses { IfErr result (CanRefuseRows mapping.now arena.new) }
{
    if keys.is_empty() {
        return Ok(());
    }
    let rows = read_keys(alloc, mapping, keeper, class, keys, notes)?;
    take_targets(alloc, arena, mapping, class, rows.as_slice(), notes)
}

/// The objects of a class under the keys of the batches that begin at these places are read, by one select for each.
#[tactic(auto, unfolding(crate::specs::Ends::load_each))]
fn load_each<K: Keeper>(
    alloc: Global,
    arena: &mut Arena,
    mapping: &Mapping,
    keeper: &mut K,
    class: ClassId,
    keys: &[Key],
    starts: &[usize],
    notes: &mut Notes,
) -> Result<(), Refusal>
    requires fit { IsFit mapping.now arena.old }
    requires class { IsClass mapping.now class }
    requires keys { All (spec.FitsClass mapping.now class) keys.now }
    requires ready { IsReady (K.moment keeper.old) }
    ensures step { Runs (moment_beside K.moment) (λ u. u)
        (spec.load_each mapping.now class keys.now starts.now)
        (loading arena.old notes.old, keeper.old) result
        (loading arena.new notes.new, keeper.new) }
    ensures stays { StaysReady (K.moment keeper.old) result (K.moment keeper.new) }
    ensures grows { Grows arena.old arena.new }
    ensures fits { IsFit mapping.now arena.new }
    ensures refuses { IfErr result (CanRefuseRows mapping.now arena.new) }
{
    for start in starts {
        let batch = batch_at(keys, *start);
        load_keys(alloc, arena, mapping, keeper, class, batch, notes)?;
    }
    Ok(())
}

/// The objects of a class under keys are read by one select for each batch.
fn load_all<K: Keeper>(
    alloc: Global,
    arena: &mut Arena,
    mapping: &Mapping,
    keeper: &mut K,
    class: ClassId,
    keys: &[Key],
    notes: &mut Notes,
) -> Result<(), Refusal>
    requires fit { IsFit mapping.now arena.old }
    requires class { IsClass mapping.now class }
    requires keys { All (spec.FitsClass mapping.now class) keys.now }
    requires ready { IsReady (K.moment keeper.old) }
    ensures step { Runs (moment_beside K.moment) (λ u. u)
        (spec.load_all mapping.now class keys.now)
        (loading arena.old notes.old, keeper.old) result
        (loading arena.new notes.new, keeper.new) }
    ensures stays { StaysReady (K.moment keeper.old) result (K.moment keeper.new) }
    ensures grows { Grows arena.old arena.new }
    ensures fits { IsFit mapping.now arena.new }
    ensures refuses { IfErr result (CanRefuseRows mapping.now arena.new) }
{
    let starts = batch_starts(alloc, keys.len())?;
    load_each(
        alloc,
        arena,
        mapping,
        keeper,
        class,
        keys,
        starts.as_slice(),
        notes,
    )
}

/// The targets of owners are read where the identity map lacks them, and the links of the owners filled.
fn load_unloaded<K: Keeper>(
    alloc: Global,
    arena: &mut Arena,
    mapping: &Mapping,
    keeper: &mut K,
    owners: &[ObjId],
    relation: &Relation,
    place: RelNo,
    notes: &mut Notes,
) -> Result<(), Refusal>
    requires fit { IsFit mapping.now arena.old }
    requires related { IsRelated mapping.now relation.now }
    requires one { relation.now.many ≡ false }
    requires owners { All (spec.IsChild mapping.now arena.old relation.now place) owners.now }
    requires ready { IsReady (K.moment keeper.old) }
    ensures step { Runs (moment_beside K.moment) (λ u. u)
        (spec.load_unloaded mapping.now relation.now place arena.old owners.now)
        (loading arena.old notes.old, keeper.old) result
        (loading arena.new notes.new, keeper.new) }
    ensures stays { StaysReady (K.moment keeper.old) result (K.moment keeper.new) }
    ensures grows { Grows arena.old arena.new }
    ensures fits { IsFit mapping.now arena.new }
    ensures refuses { IfErr result (CanRefuseRows mapping.now arena.new) }
{
    let keys = wanted_keys(alloc, &*arena, mapping, relation, place, owners)?;
    load_all(
        alloc,
        arena,
        mapping,
        keeper,
        relation.target,
        keys.as_slice(),
        notes,
    )?;
    Ok(fill_owners(alloc, arena, mapping, relation, place, owners, notes)?)
}

/// Loads the links of objects at the place of a many-to-one relationship: those that are unloaded lead to the object of the class,
/// or of one below it, that stands for the row of their foreign key then, or to none. The rows of the keys that the identity map
/// lacks are read, each key once and by one select for each 500 keys; a key with a NULL is not asked for, and the cells of a
/// foreign key that are expired are taken for NULL. Each owner whose link is filled is noted, and each target of which a cell was.
///
/// # Errors
/// `OperationalError` where a table of the target was not created, `KeeperFault`, `InvalidRequestError(NoSuchIdentity)`,
/// `LimitReached(Objects)`, `Memory`. The objects of the rows before the refusal stay, and no link is filled.
pub fn load_ends<K: Keeper>(
    alloc: Global,
    arena: &mut Arena,
    mapping: &Mapping,
    keeper: &mut K,
    owners: &[ObjId],
    relation: &Relation,
    place: RelNo,
    notes: &mut Notes,
) -> Result<(), Refusal>
    requires fit { IsFit mapping.now arena.old }
    requires related { IsRelated mapping.now relation.now }
    requires one { relation.now.many ≡ false }
    requires owners { All (spec.IsChild mapping.now arena.old relation.now place) owners.now }
    requires ready { IsReady (K.moment keeper.old) }
    ensures step { Runs (moment_beside K.moment) (λ u. u)
        (spec.load_ends mapping.now relation.now place owners.now)
        (loading arena.old notes.old, keeper.old) result
        (loading arena.new notes.new, keeper.new) }
    ensures stays { StaysReady (K.moment keeper.old) result (K.moment keeper.new) }
    ensures grows { Grows arena.old arena.new }
    ensures fits { IsFit mapping.now arena.new }
    ensures refuses { IfErr result (CanRefuseRows mapping.now arena.new) }
{
    let unread = unloaded(alloc, &*arena, place, owners)?;
    load_unloaded(
        alloc,
        arena,
        mapping,
        keeper,
        unread.as_slice(),
        relation,
        place,
        notes,
    )
}
