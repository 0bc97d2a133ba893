//! The objects that rows with joined parts answer.

ghost use Rattle.std.specs.Prelude.{◌≡◌, map, IfOk};
ghost use Rattle.object_parts.specs.Answers as spec;

use crate::lists::firsts;
use base_core::{ListOf, ObjId, ObjList};
use std::alloc::{AllocError, Global};

/// The object of a row, and for each joined option the object of the row's part, if it has one.
#[derive(Drop)]
pub struct Taken {
    pub owner: ObjId,
    pub members: ListOf<Option<ObjId>>,
}

/// The object of each row.
fn objects_of(alloc: Global, taken: &[Taken]) -> Result<ObjList, AllocError>
    ensures { IfOk result (λ objects. objects ≡ map (λ one. one.owner) taken.now) }
{
    let mut objects = ListOf::new(alloc);
    for one in taken {
        objects.push(one.owner)?;
    }
    Ok(objects)
}

/// The objects that rows give, each where it comes first.
pub fn answered(alloc: Global, taken: &[Taken]) -> Result<ObjList, AllocError>
    ensures { IfOk result (λ objects. objects ≡ spec.answered taken.now) }
{
    let objects = objects_of(alloc, taken)?;
    firsts(alloc, objects.as_slice())
}
