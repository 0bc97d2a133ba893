//! What is known, changed and kept of a link.

ghost use Rattle.std.specs.Prelude.{◌≡◌, IfOk};
ghost use Rattle.object_parts.specs.Links as spec;

use base_core::{Copied, ListOf, ObjId};
use object_arena::Link;
use std::alloc::{AllocError, Global};

/// Whether a link is to be read.
pub fn is_unloaded(link: &Link) -> bool
    ensures { result ≡ spec.is_unloaded link.now }
{
    match link {
        Link::Unloaded { .. } => true,
        Link::Unset | Link::One { .. } | Link::Many { .. } => false,
    }
}

/// The end of a many-to-one link that was changed.
pub fn changed_end(link: &Link) -> Option<Option<ObjId>>
    ensures { result ≡ spec.changed_end link.now }
{
    match link {
        Link::One { end, changed } => { if *changed { Some(*end) } else { None } }
        Link::Unset | Link::Unloaded { .. } | Link::Many { .. } => None,
    }
}

/// A link without flags and kept changes.
pub fn kept_link(alloc: Global, link: &Link) -> Result<Link, AllocError>
    ensures { IfOk result (λ kept. kept ≡ spec.kept_link link.now) }
{
    match link {
        Link::Unset | Link::Unloaded { .. } => Ok(Link::Unloaded {
            added: ListOf::new(alloc),
            removed: ListOf::new(alloc),
        }),
        Link::One { end, .. } => Ok(Link::One {
            end: *end,
            changed: false,
        }),
        Link::Many { members, .. } => Ok(Link::Many {
            members: members.copied()?,
            base: members.copied()?,
        }),
    }
}
