//! What collections hold, gained and lost.

ghost use Rattle.std.specs.Prelude.{◌≡◌, IfOk};
ghost use Rattle.pair_rows.specs.Pairs as spec;

use base_core::{Copied, ListOf, ObjId, ObjList};
use object_arena::Link;
use object_rows::ObjIndex;
use std::alloc::{AllocError, Global};

/// The objects of a list that are not among others.
fn outside(alloc: Global, others: &ObjIndex, objects: &ObjList) -> Result<ObjList, AllocError>
    ensures { IfOk result (λ rest. rest ≡ spec.without others.now objects.now) }
{
    let mut rest = ListOf::new(alloc);
    for object in objects.as_slice() {
        if !others.has(*object) {
            rest.push(*object)?;
        }
    }
    Ok(rest)
}

/// The objects of a list that are not in another.
fn without(alloc: Global, others: &ObjList, objects: &ObjList) -> Result<ObjList, AllocError>
    ensures { IfOk result (λ rest. rest ≡ spec.without others.now objects.now) }
{
    let others = ObjIndex::of(alloc, others.copied()?)?;
    outside(alloc, &others, objects)
}

/// The members that a collection was given.
pub fn members_added(alloc: Global, link: &Link) -> Result<ObjList, AllocError>
    ensures { IfOk result (λ members. members ≡ spec.members_added link.now) }
{
    match link {
        Link::Unloaded { added, .. } => Ok(added.copied()?),
        Link::Many { members, base } => without(alloc, base, members),
        Link::Unset | Link::One { .. } => Ok(ListOf::new(alloc)),
    }
}

/// The members that a collection lost.
pub fn members_removed(alloc: Global, link: &Link) -> Result<ObjList, AllocError>
    ensures { IfOk result (λ members. members ≡ spec.members_removed link.now) }
{
    match link {
        Link::Unloaded { removed, .. } => Ok(removed.copied()?),
        Link::Many { members, base } => without(alloc, members, base),
        Link::Unset | Link::One { .. } => Ok(ListOf::new(alloc)),
    }
}

/// The members that a collection had when it was last read or written.
pub(crate) fn members_before(link: &Link) -> &[ObjId]
    ensures { result.now ≡ spec.members_before link.now }
{
    match link {
        Link::Many { base, .. } => base.as_slice(),
        Link::Unset | Link::Unloaded { .. } | Link::One { .. } => &[],
    }
}
