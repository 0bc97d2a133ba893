//! The filling of collections, noted.

ghost use Rattle.std.specs.Prelude.{◌≡◌, ◌<◌, true, length, OnOk};
ghost use Rattle.std.specs.List.{All};
ghost use Rattle.class_mapping.specs.Mapped.{IsClass, relations_of, root_of};
ghost use Rattle.class_mapping.specs.Paired.{HasPairs};
ghost use Rattle.class_mapping.specs.Related.{AreRelated};
ghost use Rattle.object_arena.specs.Every.{classes_of};
ghost use Rattle.object_arena.specs.Fit.{IsFit, is_of_root, link_fits, relation_of};
ghost use Rattle.object_arena.specs.Graph.{IsLink, IsObject, object_at};
ghost use Rattle.load_rows.specs.Loading.{loading};
ghost use Rattle.load_rows.specs.Links as spec;

use crate::members::collection_of;
use crate::order::in_key_order;
use base_core::{ClassId, ObjId, RelNo};
use class_mapping::{Mapping, Relation};
use keeper_core::{Note, Notes};
use object_arena::{Arena, Link};
use std::alloc::{AllocError, Global};

/// The relationship at a place of a class. As all relationships it has a partner that leads back, and its keys.
pub fn relation_at(mapping: &Mapping, class: ClassId, place: RelNo) -> &Relation
    requires class { IsClass mapping.now class }
    requires place { place.0 < length (relations_of mapping.now class) }
    ensures is { result.now ≡ relation_of mapping.now class place }
    ensures paired { HasPairs mapping.now }
    ensures related { AreRelated mapping.now }
{
    &mapping.relations(class)[place.0 as usize]
}

/// The link of an object at a place.
pub(crate) fn link_at(arena: &Arena, object: ObjId, place: RelNo) -> &Link
    requires object { IsObject arena.now object }
    requires place { IsLink arena.now object place }
    ensures { result.now ≡ spec.link_at arena.now object place }
{
    arena.object(object).links.at(place.0 as usize)
}

/// An object has a link for a relationship of its class. It does nothing when it runs.
pub(crate) fn has_link(arena: &Arena, mapping: &Mapping, object: ObjId, place: RelNo)
    requires fit { IsFit mapping.now arena.now }
    requires object { IsObject arena.now object }
    requires place { place.0 < length (relations_of mapping.now (object_at arena.now object).class) }
    ensures link { IsLink arena.now object place }
    ensures fits { link_fits mapping.now arena.now.roots
        (relation_of mapping.now (object_at arena.now object).class place)
        (spec.link_at arena.now object place) ≡ true }
{
    let _ = arena.object(object);
    let _ = place;
}

/// An unloaded collection of an object holds what was read, in the order of keys and with the changes that were kept for it;
/// its owner is noted then. A loaded one stays. Where memory runs out it leaves the objects as they were.
#[tactic(auto, unfolding(crate::specs::Links::collection_filled))]
pub fn fill_collection(
    alloc: Global,
    arena: &mut Arena,
    mapping: &Mapping,
    owner: ObjId,
    place: RelNo,
    read: &[ObjId],
    notes: &mut Notes,
) -> Result<(), AllocError>
    requires fit { IsFit mapping.now arena.old }
    requires owner { IsObject arena.old owner }
    requires place { place.0 < length (relations_of mapping.now (object_at arena.old owner).class) }
    requires many { (relation_of mapping.now (object_at arena.old owner).class place).many ≡ true }
    requires read { All (λ object. is_of_root arena.old.roots (root_of mapping.now
        (relation_of mapping.now (object_at arena.old owner).class place).target) object ≡ true)
        read.now }
    ensures filled { OnOk result (loading arena.new notes.new
        ≡ spec.collection_filled owner place read.now (loading arena.old notes.old)) }
    ensures fits { IsFit mapping.now arena.new }
    ensures classes { classes_of arena.new ≡ classes_of arena.old }
{
    has_link(&*arena, mapping, owner, place);
    let ordered = in_key_order(alloc, &*arena, read)?;
    let Some(link) = collection_of(alloc, link_at(&*arena, owner, place), ordered)? else {
        return Ok(());
    };
    notes.push(Note::Filled(owner))?;
    arena.put_link(owner, place, link);
    Ok(())
}
