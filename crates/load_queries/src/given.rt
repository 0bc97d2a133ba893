//! What rows give to owners, by the numbers of these.

ghost use Rattle.std.specs.Prelude.{◌≡◌, [], ◌∷◌, ◌++◌, IfOk, OnOk};
ghost use Rattle.std.specs.Option.{unwrap_or};
ghost use Rattle.base_core.specs.declared.ids.ObjId.{ObjId};
ghost use Rattle.joined_rows.specs.Taking.{member_at};
ghost use Rattle.load_queries.specs.Joined as spec;

use base_core::{ListOf, ObjId, ObjList};
use object_parts::Taken;
use std::alloc::{AllocError, Global};
use std::collections::BTreeMap;

/// What each owner was given, under its number.
pub(crate) type Given = BTreeMap<u32, ObjList>;

/// The member of the option of a number.
fn member_at(members: &[Option<ObjId>], number: usize) -> Option<ObjId>
    ensures { result ≡ member_at members.now number }
{
    match members.get(number) {
        Some(member) => *member,
        None => None,
    }
}

fn objects_or_none(alloc: Global, found: Option<ObjList>) -> ObjList
    ensures { result ≡ unwrap_or found [] }
{
    if let Some(objects) = found {
        return objects;
    }
    ListOf::new(alloc)
}

/// What a row gives its owner goes behind what the owner was given before.
fn add_given(alloc: Global, given: &mut Given, number: usize, one: &Taken) -> Result<(), AllocError>
    ensures { OnOk result ((owner : ObjId) → spec.objects_at given.new owner.0
        ≡ spec.objects_at given.old owner.0 ++ spec.given_to number (one.now ∷ []) owner) }
{
    let Some(member) = member_at(one.members.as_slice(), number) else {
        return Ok(());
    };
    let mut objects = objects_or_none(alloc, given.remove(&one.owner.0));
    objects.push(member)?;
    given.insert(one.owner.0, objects)?;
    Ok(())
}

/// What rows give for the option of a number, owner by owner. An ordered map has it, so that the time grows little faster than how many
/// the rows are.
pub(crate) fn given_by_rows(
    alloc: Global,
    number: usize,
    taken: &[Taken],
) -> Result<Given, AllocError>
    ensures { IfOk result (spec.HasGiven number taken.now) }
{
    let mut given = BTreeMap::new(alloc);
    for one in taken {
        add_given(alloc, &mut given, number, one)?;
    }
    Ok(given)
}

/// What an owner was given.
pub(crate) fn objects_at(given: &Given, owner: ObjId) -> &[ObjId]
    ensures { result.now ≡ spec.objects_at given.now owner.0 }
{
    match given.get(&owner.0) {
        Some(objects) => objects.as_slice(),
        None => &[],
    }
}
