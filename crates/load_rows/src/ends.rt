//! The filling of many-to-one links, noted.

ghost use Rattle.std.specs.Prelude.{◌≡◌, ◌<◌, true, false, length, OnOk};
ghost use Rattle.class_mapping.specs.Mapped.{relations_of, root_of};
ghost use Rattle.object_arena.specs.Every.{classes_of};
ghost use Rattle.object_arena.specs.Fit.{IsFit, end_fits, relation_of};
ghost use Rattle.object_arena.specs.Graph.{IsObject, object_at};
ghost use Rattle.load_rows.specs.Loading.{loading};
ghost use Rattle.load_rows.specs.Links as spec;

use crate::collections::{has_link, link_at};
use base_core::{ObjId, RelNo};
use class_mapping::Mapping;
use keeper_core::{Note, Notes};
use object_arena::{Arena, Link};
use std::alloc::AllocError;

/// An unloaded many-to-one link leads to what was found; a loaded one stays.
fn end_of(link: &Link, end: Option<ObjId>) -> Option<Link>
    ensures { result ≡ spec.end_of end link.now }
{
    match link {
        Link::Unloaded { .. } => Some(Link::One {
            end,
            changed: false,
        }),
        Link::Unset | Link::One { .. } | Link::Many { .. } => None,
    }
}

/// An unloaded many-to-one link of an object leads to what was found, which is none or of the target's hierarchy; the object is
/// noted then. A loaded one stays. Where memory runs out it leaves the objects as they were.
#[tactic(auto, unfolding(crate::specs::Links::end_filled))]
pub fn fill_end(
    arena: &mut Arena,
    mapping: &Mapping,
    owner: ObjId,
    place: RelNo,
    end: Option<ObjId>,
    notes: &mut Notes,
) -> Result<(), AllocError>
    requires fit { IsFit mapping.now arena.old }
    requires owner { IsObject arena.old owner }
    requires place { place.0 < length (relations_of mapping.now (object_at arena.old owner).class) }
    requires one { (relation_of mapping.now (object_at arena.old owner).class place).many ≡ false }
    requires end { end_fits arena.old.roots (root_of mapping.now
        (relation_of mapping.now (object_at arena.old owner).class place).target) end ≡ true }
    ensures filled { OnOk result (loading arena.new notes.new
        ≡ spec.end_filled owner place end (loading arena.old notes.old)) }
    ensures fits { IsFit mapping.now arena.new }
    ensures classes { classes_of arena.new ≡ classes_of arena.old }
{
    has_link(&*arena, mapping, owner, place);
    let Some(link) = end_of(link_at(&*arena, owner, place), end) else {
        return Ok(());
    };
    notes.push(Note::Filled(owner))?;
    arena.put_link(owner, place, link);
    Ok(())
}
