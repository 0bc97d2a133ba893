//! Members by the keys of their owners.

ghost use Rattle.std.specs.Prelude.{◌≡◌, [], ◌∷◌, ◌++◌, List, IfOk, OnOk};
ghost use Rattle.std.specs.Option.{unwrap_or};
ghost use Rattle.base_core.specs.declared.value.Value.{Value};
ghost use Rattle.load_batches.specs.Batches as spec;

use crate::members::Member;
use base_core::{Copied, Key, ListOf, ObjId, ObjList};
use std::alloc::{AllocError, Global};
use std::collections::BTreeMap;

/// The members of each owner's key.
pub(crate) type Groups = BTreeMap<Key, ObjList>;

fn objects_of(alloc: Global, found: Option<ObjList>) -> ObjList
    ensures { result ≡ unwrap_or found [] }
{
    match found {
        Some(objects) => objects,
        None => ListOf::new(alloc),
    }
}

/// A member goes behind those of its owner's key.
fn add_member(alloc: Global, groups: &mut Groups, member: &Member) -> Result<(), AllocError>
    ensures { OnOk result ((key : List Value) → spec.objects_at groups.new key
        ≡ spec.objects_at groups.old key ++ spec.members_under (member.now ∷ []) key) }
{
    let mut objects = objects_of(alloc, groups.remove(&member.owner));
    objects.push(member.object)?;
    groups.insert(member.owner.copied()?, objects)?;
    Ok(())
}

/// Members by the keys of their owners, in the order in which they come. An ordered map has them, so that the time grows little
/// faster than their number.
pub(crate) fn groups_of(alloc: Global, members: &[Member]) -> Result<Groups, AllocError>
    ensures { IfOk result (spec.AreGroups members.now) }
{
    let mut groups = BTreeMap::new(alloc);
    for member in members {
        add_member(alloc, &mut groups, member)?;
    }
    Ok(groups)
}

/// The members of the owner of a key.
pub(crate) fn members_under<'x>(groups: &'x Groups, key: &Key) -> &'x [ObjId]
    ensures { result.now ≡ spec.objects_at groups.now key.now }
{
    match groups.get(key) {
        Some(objects) => objects.as_slice(),
        None => &[],
    }
}
