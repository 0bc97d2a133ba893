//! What a collection holds, once it is loaded. The only refusal is `Memory`.

ghost use Rattle.std.specs.Prelude.{◌≡◌, IfOk};
ghost use Rattle.load_rows.specs.Links as spec;

use base_core::ObjList;
use object_arena::Link;
use object_parts::linked;
use std::alloc::{AllocError, Global};

/// An unloaded collection is loaded with what was read and the kept changes; a loaded link stays.
pub(crate) fn collection_of(
    alloc: Global,
    link: &Link,
    read: ObjList,
) -> Result<Option<Link>, AllocError>
    ensures { IfOk result (λ new. new ≡ spec.collection_of read link.now) }
{
    match link {
        Link::Unloaded { added, removed } => {
            let members = linked(alloc, added.as_slice(), removed.as_slice(), read.as_slice())?;
            Ok(Some(Link::Many {
                members,
                base: read,
            }))
        }
        Link::Unset | Link::One { .. } | Link::Many { .. } => Ok(None),
    }
}
