//! To which objects a link leads. The only refusal is `Memory`.

ghost use Rattle.std.specs.Prelude.{◌≡◌, ◌++◌, OnOk};
ghost use Rattle.object_parts.specs.Ends as spec;

use crate::members::push_objects;
use base_core::ObjList;
use object_arena::Link;
use std::alloc::AllocError;

/// What a link holds goes to the end, where calls go on along it: of an unloaded collection the kept adds.
pub fn add_ends(ends: &mut ObjList, goes_on: bool, link: &Link) -> Result<(), AllocError>
    ensures { OnOk result (ends.new ≡ ends.old ++ spec.ends_with goes_on link.now) }
{
    if !goes_on {
        return Ok(());
    }
    match link {
        Link::Unset | Link::One { end: None, .. } => Ok(()),
        Link::One { end: Some(end), .. } => ends.push(*end),
        Link::Unloaded { added, .. } => push_objects(ends, added.as_slice()),
        Link::Many { members, .. } => push_objects(ends, members.as_slice()),
    }
}
