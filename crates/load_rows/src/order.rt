//! Objects in the order of their keys.

ghost use Rattle.std.specs.Prelude.{◌≡◌, IfOk, OnOk};
ghost use Rattle.std.specs.List.{All};
ghost use Rattle.std.specs.Map.{values_of};
ghost use Rattle.base_core.specs.declared.ids.ObjId.{ObjId};
ghost use Rattle.object_arena.specs.Graph.{IsObject};
ghost use Rattle.load_rows.specs.Reading.{identity_key};
ghost use Rattle.load_rows.specs.Links as spec;

use base_core::{Copied, Key, ListOf, ObjId, ObjList};
use object_arena::Arena;
use object_parts::enter_under;
use std::alloc::{AllocError, Global};
use std::collections::BTreeMap;

/// The key of an object's row; of an object without an identity it is empty.
pub fn identity_key(alloc: Global, arena: &Arena, object: ObjId) -> Result<Key, AllocError>
    requires { IsObject arena.now object }
    ensures { IfOk result (λ key. key ≡ identity_key arena.now object) }
{
    match &arena.object(object).identity {
        Some(key) => Ok(key.copied()?),
        None => Ok(ListOf::new(alloc)),
    }
}

/// An object goes under its key.
fn enter(
    entries: &mut BTreeMap<Key, ObjId>,
    alloc: Global,
    arena: &Arena,
    object: ObjId,
) -> Result<(), AllocError>
    requires { IsObject arena.now object }
    ensures { OnOk result
        (entries.new.entries ≡ spec.with_key arena.now entries.old.entries object) }
{
    let key = identity_key(alloc, arena, object)?;
    enter_under(entries, key, object)
}

/// The objects that stand under keys, in order.
fn objects_of(alloc: Global, entries: BTreeMap<Key, ObjId>) -> Result<ObjList, AllocError>
    ensures { IfOk result (λ objects. objects ≡ values_of entries.entries) }
{
    Ok(ListOf::from_vec(entries.into_values().collect(alloc)?))
}

/// Objects in the order of their keys, each once. An ordered map has them, so that the time grows little faster than their
/// number.
#[tactic(auto, using(class_layouts::proofs::Steps::steps), unfolding(crate::specs::Links::in_key_order))]
pub(crate) fn in_key_order(
    alloc: Global,
    arena: &Arena,
    objects: &[ObjId],
) -> Result<ObjList, AllocError>
    requires { All (IsObject arena.now) objects.now }
    ensures { IfOk result (λ found. found ≡ spec.in_key_order arena.now objects.now) }
{
    let mut entries = BTreeMap::new(alloc);
    for object in objects {
        enter(&mut entries, alloc, arena, *object)?;
    }
    objects_of(alloc, entries)
}
