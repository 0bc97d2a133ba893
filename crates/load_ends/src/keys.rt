//! The keys of targets that are to be read.

ghost use Rattle.std.specs.Prelude.{◌≡◌, ◌||◌, List, false, IfOk, OnOk};
ghost use Rattle.std.specs.BTreeSet.{contains};
ghost use Rattle.std.specs.List.{All};
ghost use Rattle.base_core.specs.Order.{values_cmp};
ghost use Rattle.base_core.specs.declared.value.Value.{Value};
ghost use Rattle.schema_core.specs.Tables.{same_values};
ghost use Rattle.class_mapping.specs.Mapped.{IsClass};
ghost use Rattle.object_arena.specs.Fit.{IsFit};
ghost use Rattle.load_ends.specs.Ends as spec;

use base_core::{ClassId, Copied, Key, KeyList, ListOf, ObjId, RelNo};
use class_mapping::{Mapping, Relation};
use load_targets::{has_null, target_key};
use object_arena::Arena;
use std::alloc::{AllocError, Global};
use std::collections::BTreeSet;

/// A key is in a set.
fn enter(seen: &mut BTreeSet<Key>, key: &Key) -> Result<(), AllocError>
    ensures { OnOk result ((other : List Value) → contains values_cmp seen.new other
        ≡ (same_values key.now other || contains values_cmp seen.old other)) }
{
    seen.insert(key.copied()?)?;
    Ok(())
}

/// A key goes behind others, unless it is among them. A set has them too.
fn keep_first(seen: &mut BTreeSet<Key>, keys: &mut KeyList, key: Key) -> Result<(), AllocError>
    requires { spec.HasSeen seen.old keys.old }
    ensures keys { OnOk result (keys.new ≡ spec.with_first keys.old key) }
    ensures seen { OnOk result (spec.HasSeen seen.new keys.new) }
{
    if seen.contains(&key) {
        return Ok(());
    }
    enter(seen, &key)?;
    keys.push(key)
}

/// Whether a key is to be read.
fn is_wanted(arena: &Arena, mapping: &Mapping, class: ClassId, key: &Key) -> bool
    requires { IsClass mapping.now class }
    ensures { result ≡ spec.is_wanted mapping.now class arena.now key.now }
{
    !has_null(key.as_slice()) && arena.find_identity(mapping.root_of(class), key).is_none()
}

/// The key of an owner's target goes behind others, where it is to be read and not among them.
fn push_wanted(
    seen: &mut BTreeSet<Key>,
    keys: &mut KeyList,
    alloc: Global,
    arena: &Arena,
    mapping: &Mapping,
    relation: &Relation,
    owner: ObjId,
    place: RelNo,
) -> Result<(), AllocError>
    requires fit { IsFit mapping.now arena.now }
    requires owner { spec.IsChild mapping.now arena.now relation.now place owner }
    requires one { relation.now.many ≡ false }
    requires seen { spec.HasSeen seen.old keys.old }
    ensures keys { OnOk result
        (keys.new ≡ spec.with_key_of mapping.now relation.now arena.now keys.old owner) }
    ensures seen { OnOk result (spec.HasSeen seen.new keys.new) }
    ensures fits { All (spec.FitsClass mapping.now relation.now.target) keys.old
        → OnOk result (All (spec.FitsClass mapping.now relation.now.target) keys.new) }
{
    let key = target_key(alloc, arena, mapping, relation, owner, place)?;
    if !is_wanted(arena, mapping, relation.target, &key) {
        return Ok(());
    }
    keep_first(seen, keys, key)
}

/// The keys that are to be read for owners, each where it comes first. An ordered set has them too, so that the time grows little
/// faster than their number.
#[tactic(auto, using(class_layouts::proofs::Steps::steps), unfolding(crate::specs::Ends::wanted_keys))]
pub(crate) fn wanted_keys(
    alloc: Global,
    arena: &Arena,
    mapping: &Mapping,
    relation: &Relation,
    place: RelNo,
    owners: &[ObjId],
) -> Result<KeyList, AllocError>
    requires fit { IsFit mapping.now arena.now }
    requires owners { All (spec.IsChild mapping.now arena.now relation.now place) owners.now }
    requires one { relation.now.many ≡ false }
    ensures keys { IfOk result
        (λ keys. keys ≡ spec.wanted_keys mapping.now relation.now arena.now owners.now) }
    ensures fits { IfOk result (All (spec.FitsClass mapping.now relation.now.target)) }
{
    let mut seen = BTreeSet::new(alloc);
    let mut keys = ListOf::new(alloc);
    for owner in owners {
        push_wanted(
            &mut seen, &mut keys, alloc, arena, mapping, relation, *owner, place,
        )?;
    }
    Ok(keys)
}
