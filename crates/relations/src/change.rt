//! Links that a change puts in.

ghost use Rattle.std.specs.Prelude.{◌≡◌, Some, IfOk};
ghost use Rattle.class_mapping.specs.Mapped.{Mapped};
ghost use Rattle.object_arena.specs.Every.{classes_of};
ghost use Rattle.object_arena.specs.Fit.{IsFit, Keeps, KeepsWith};
ghost use Rattle.object_arena.specs.Graph.{IsObject};
ghost use Rattle.relations.specs.Fits.{ChangeFits, PutFits};
ghost use Rattle.relations.specs.Mirror as spec;
ghost use Rattle.relations.specs.Places.{HasPlaces, IsPlaced, IsPutIn};

use base_core::{ObjId, RelNo};
use object_arena::{Arena, Link};
use object_parts::{joined, left};
use std::alloc::{AllocError, Global};

/// A link of an object as it is to be.
#[derive(Drop)]
pub struct LinkPut {
    pub object: ObjId,
    pub relation: RelNo,
    pub link: Link,
}

/// What a change of one link makes of the objects on both sides, at most three.
#[derive(Drop)]
pub struct Change {
    /// The collection that a member leaves.
    pub left: Option<LinkPut>,
    /// The collection that it joins.
    pub joined: Option<LinkPut>,
    /// The link of the other side.
    pub own: Option<LinkPut>,
    /// Whether the object is an orphan then, where that changes.
    pub orphan: Option<bool>,
}

/// The collection of an owner without a member that leaves it.
pub(crate) fn leaving(
    alloc: Global,
    arena: &Arena,
    owner: ObjId,
    place: RelNo,
    member: ObjId,
) -> Result<Option<LinkPut>, AllocError>
    requires { IsObject arena.now owner }
    ensures put { IfOk result (λ put. put ≡ spec.put_without_member arena.now owner place member) }
    ensures placed { IfOk result (IsPutIn arena.now) }
{
    match arena.object(owner).links.get(place.0 as usize) {
        None => Ok(None),
        Some(link) => {
            let link = left(alloc, link, member)?;
            Ok(put_of(owner, place, link))
        }
    }
}

/// The collection of an owner with a member that joins it.
pub(crate) fn joining(
    alloc: Global,
    arena: &Arena,
    owner: ObjId,
    place: RelNo,
    member: ObjId,
) -> Result<Option<LinkPut>, AllocError>
    requires { IsObject arena.now owner }
    ensures put { IfOk result (λ put. put ≡ spec.put_with_member arena.now owner place member) }
    ensures placed { IfOk result (IsPutIn arena.now) }
{
    match arena.object(owner).links.get(place.0 as usize) {
        None => Ok(None),
        Some(link) => {
            let link = joined(alloc, link, member)?;
            Ok(put_of(owner, place, link))
        }
    }
}

/// A link that leads to an end, and has been changed.
pub(crate) fn leading(
    arena: &Arena,
    child: ObjId,
    place: RelNo,
    end: Option<ObjId>,
) -> Option<LinkPut>
    requires { IsObject arena.now child }
    ensures put { result ≡ spec.put_to_end arena.now child place end }
    ensures placed { IsPutIn arena.now result }
{
    match arena.object(child).links.get(place.0 as usize) {
        None => None,
        Some(_) => put_of(child, place, Link::One { end, changed: true }),
    }
}

/// A link that led to the end already, loaded.
pub(crate) fn loading(
    arena: &Arena,
    child: ObjId,
    place: RelNo,
    end: Option<ObjId>,
) -> Option<LinkPut>
    requires { IsObject arena.now child }
    ensures put { result ≡ spec.put_as_loaded arena.now child place end }
    ensures placed { IsPutIn arena.now result }
{
    match arena.object(child).links.get(place.0 as usize) {
        None => None,
        Some(link) => put_of(child, place, loaded_to(end, link)),
    }
}

fn loaded_to(end: Option<ObjId>, link: &Link) -> Link
    ensures { result ≡ spec.loaded_to end link.now }
{
    match link {
        Link::One { end, changed } => Link::One {
            end: *end,
            changed: *changed,
        },
        Link::Unset | Link::Unloaded { .. } | Link::Many { .. } => Link::One {
            end,
            changed: false,
        },
    }
}

fn put_of(object: ObjId, relation: RelNo, link: Link) -> Option<LinkPut>
    ensures { result ≡ Some (spec.put_of object relation link) }
{
    Some(LinkPut {
        object,
        relation,
        link,
    })
}

/// Puts the links in, one after another. Takes no memory.
#[tactic(auto, unfolding(crate::specs::Mirror::with_change))]
pub(crate) fn apply(arena: &mut Arena, child: ObjId, change: Change)
    requires child { IsObject arena.old child }
    requires placed { IsPlaced arena.old change }
    ensures changed { arena.new ≡ spec.with_change arena.old child change }
    ensures keeps { (mapped : Mapped) → ChangeFits mapped arena.old change
        → IsFit mapped arena.old → IsFit mapped arena.new }
    ensures classes { classes_of arena.new ≡ classes_of arena.old }
{
    let Change {
        left,
        joined,
        own,
        orphan,
    } = change;
    orphan_in(arena, child, orphan);
    put_in(arena, left);
    put_in(arena, joined);
    put_in(arena, own);
}

fn put_in(arena: &mut Arena, put: Option<LinkPut>)
    requires { IsPutIn arena.old put }
    ensures put { arena.new ≡ spec.with_put arena.old put }
    ensures keeps { (mapped : Mapped) → PutFits mapped arena.old put
        → IsFit mapped arena.old → IsFit mapped arena.new }
    ensures places { HasPlaces arena.old arena.new }
    ensures classes { classes_of arena.new ≡ classes_of arena.old }
{
    match put {
        None => {}
        Some(put) => put_link(arena, put),
    }
}

/// A link is put in the place of another. Takes no memory.
pub fn put_link(arena: &mut Arena, put: LinkPut)
    requires { IsPutIn arena.old (Some put) }
    ensures put { arena.new ≡ spec.with_put arena.old (Some put) }
    ensures keeps { KeepsWith (λ mapped. PutFits mapped arena.old (Some put)) arena.old arena.new }
    ensures places { HasPlaces arena.old arena.new }
{
    arena.put_link(put.object, put.relation, put.link);
}

fn orphan_in(arena: &mut Arena, object: ObjId, orphan: Option<bool>)
    requires { IsObject arena.old object }
    ensures put { arena.new ≡ spec.with_orphan arena.old object orphan }
    ensures keeps { (mapped : Mapped) → IsFit mapped arena.old → IsFit mapped arena.new }
    ensures places { HasPlaces arena.old arena.new }
    ensures classes { classes_of arena.new ≡ classes_of arena.old }
{
    match orphan {
        None => {}
        Some(orphan) => put_orphan(arena, object, orphan),
    }
}

/// An object is an orphan then, or is none. Takes no memory.
pub fn put_orphan(arena: &mut Arena, object: ObjId, orphan: bool)
    requires { IsObject arena.old object }
    ensures put { arena.new ≡ spec.with_orphan arena.old object (Some orphan) }
    ensures keeps { Keeps arena.old arena.new }
    ensures places { HasPlaces arena.old arena.new }
{
    let record = arena.object(object);
    let (added, marked) = (record.added, record.marked);
    arena.put_marks(object, added, marked, orphan);
}
