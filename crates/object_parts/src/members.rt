//! The members of a collection, once it is loaded. The only refusal is `Memory`.

ghost use Rattle.std.specs.Prelude.{◌≡◌, ◌++◌, IfOk, OnOk};
ghost use Rattle.object_parts.specs.Members as spec;

use base_core::{ListOf, ObjId, ObjList};
use std::alloc::{AllocError, Global};

/// Whether an object is none of others.
fn is_apart(others: &[ObjId], object: ObjId) -> bool
    ensures { result ≡ spec.is_apart others.now object }
{
    others.iter().all(|other| other.0 != object.0)
}

/// The objects that are none of the others.
fn without(alloc: Global, others: &[ObjId], objects: &[ObjId]) -> Result<ObjList, AllocError>
    ensures { IfOk result (λ left. left ≡ spec.without others.now objects.now) }
{
    let mut left = ListOf::new(alloc);
    for object in objects {
        if is_apart(others, *object) {
            left.push(*object)?;
        }
    }
    Ok(left)
}

/// Objects go behind others.
pub(crate) fn push_objects(out: &mut ObjList, objects: &[ObjId]) -> Result<(), AllocError>
    ensures { OnOk result (out.new ≡ out.old ++ objects.now) }
{
    for object in objects {
        out.push(*object)?;
    }
    Ok(())
}

/// What was read without the kept removes, and behind it the kept adds that are not there already.
pub fn linked(
    alloc: Global,
    added: &[ObjId],
    removed: &[ObjId],
    read: &[ObjId],
) -> Result<ObjList, AllocError>
    ensures { IfOk result
        (λ members. members ≡ spec.linked added.now removed.now read.now) }
{
    let mut members = without(alloc, removed, read)?;
    let more = without(alloc, members.as_slice(), added)?;
    push_objects(&mut members, more.as_slice())?;
    Ok(members)
}
