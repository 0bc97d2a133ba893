//! What the change of one link makes of the links on both sides.

ghost use Rattle.std.specs.Prelude.{◌≡◌, true, slice_get, IfOk};
ghost use Rattle.std.specs.Option.{option_copied};
ghost use Rattle.class_mapping.specs.Mapped.{IsClass, partner_of};
ghost use Rattle.object_arena.specs.Graph.{IsObject, object_at};
ghost use Rattle.relations.specs.Keys.{IsEnd};
ghost use Rattle.relations.specs.Mirror as spec;
ghost use Rattle.relations.specs.Parents.{IsMade};
ghost use Rattle.relations.specs.Places.{IsPlaced, IsPutIn};

use crate::OldParent;
use crate::change::{Change, LinkPut, joining, leading, leaving, loading};
use base_core::{ClassId, ObjId, Refusal, RelNo, RequestKind};
use class_layouts::has_class;
use class_mapping::{Mapping, Relation};
use object_arena::{Arena, Link, State};
use object_parts::is_among;
use std::alloc::{AllocError, Global};

/// Why an owner's link takes no part in a change, or leads to no such object.
pub(crate) fn end_fault(
    arena: &Arena,
    mapping: &Mapping,
    owner: ObjId,
    target: ClassId,
    end: Option<ObjId>,
) -> Option<Refusal>
    requires owner { IsObject arena.now owner }
    requires end { IsEnd arena.now end }
    ensures { result ≡ spec.end_fault arena.now mapping.now owner target end }
{
    if is_gone(arena.state_of(owner)) {
        return Some(Refusal::InvalidRequestError(RequestKind::BadOwner));
    }
    if is_bad_end(arena, mapping, target, end) {
        return Some(Refusal::InvalidRequestError(RequestKind::BadMember));
    }
    None
}

fn is_gone(state: State) -> bool
    ensures { result ≡ spec.is_gone state }
{
    match state {
        State::Deleted | State::Detached => true,
        State::Transient | State::Pending | State::Persistent => false,
    }
}

fn is_bad_end(arena: &Arena, mapping: &Mapping, target: ClassId, end: Option<ObjId>) -> bool
    requires { IsEnd arena.now end }
    ensures { result ≡ spec.is_bad_end arena.now mapping.now target end }
{
    match end {
        None => false,
        Some(end) => is_gone(arena.state_of(end)) || !is_of(arena, mapping, target, end),
    }
}

/// Whether an object is of a class at or under the class.
fn is_of(arena: &Arena, mapping: &Mapping, class: ClassId, object: ObjId) -> bool
    requires { IsObject arena.now object }
    ensures { result ≡ spec.is_of arena.now mapping.now class object }
{
    has_class(mapping.line_of(arena.class_of(object)), class.0 as usize)
}

/// Whether the owner's collection has the member.
pub(crate) fn has_member(arena: &Arena, owner: ObjId, place: RelNo, member: ObjId) -> bool
    requires { IsObject arena.now owner }
    ensures { result ≡ spec.has_member arena.now owner place member }
{
    match arena.object(owner).links.get(place.0 as usize) {
        Some(Link::Many { members, .. }) => is_among(members.as_slice(), member),
        Some(Link::Unset) | Some(Link::Unloaded { .. }) | Some(Link::One { .. }) | None => false,
    }
}

/// What the setting of a link makes of both sides.
pub(crate) fn set_change(
    alloc: Global,
    arena: &Arena,
    mapping: &Mapping,
    child: ObjId,
    place: RelNo,
    relation: &Relation,
    old: OldParent,
    parent: Option<ObjId>,
) -> Result<Change, AllocError>
    requires child { IsObject arena.now child }
    requires parent { IsEnd arena.now parent }
    requires old { IsMade arena.now old }
    ensures change { IfOk result (λ change. change
        ≡ spec.set_change arena.now mapping.now child place relation.now old parent) }
    ensures placed { IfOk result (IsPlaced arena.now) }
{
    if old.is_known_as(parent) {
        return Ok(Change {
            left: None,
            joined: None,
            own: loading(arena, child, place, parent),
            orphan: None,
        });
    }
    let left = left_behind(alloc, arena, mapping, child, relation, old)?;
    let joined = joined_to(alloc, arena, child, relation, parent)?;
    Ok(Change {
        left,
        joined,
        own: leading(arena, child, place, parent),
        orphan: orphan_by(has_orphans(mapping.partner_of(relation)), parent),
    })
}

/// The collection that a child leaves: that of its old parent, where this is known and is of the target.
fn left_behind(
    alloc: Global,
    arena: &Arena,
    mapping: &Mapping,
    child: ObjId,
    relation: &Relation,
    old: OldParent,
) -> Result<Option<LinkPut>, AllocError>
    requires { IsMade arena.now old }
    ensures put { IfOk result (λ put. put
        ≡ spec.left_behind arena.now mapping.now child relation.now old) }
    ensures placed { IfOk result (IsPutIn arena.now) }
{
    match old {
        OldParent::Known(Some(old)) => {
            if is_of(arena, mapping, relation.target, old) {
                leaving(alloc, arena, old, relation.partner, child)
            } else {
                Ok(None)
            }
        }
        OldParent::Known(None) | OldParent::NotKnown => Ok(None),
    }
}

/// The collection that a child joins: that of its new parent.
fn joined_to(
    alloc: Global,
    arena: &Arena,
    child: ObjId,
    relation: &Relation,
    parent: Option<ObjId>,
) -> Result<Option<LinkPut>, AllocError>
    requires { IsEnd arena.now parent }
    ensures put { IfOk result (λ put. put
        ≡ spec.joined_to arena.now child relation.now parent) }
    ensures placed { IfOk result (IsPutIn arena.now) }
{
    match parent {
        None => Ok(None),
        Some(parent) => joining(alloc, arena, parent, relation.partner, child),
    }
}

/// Whether a child without a parent is an orphan.
fn has_orphans(many: Option<&Relation>) -> bool
    ensures { result ≡ spec.has_orphans (option_copied many.entry) }
{
    match many {
        None => false,
        Some(many) => many.cascade.delete_orphan,
    }
}

/// Whether a child is an orphan where its link leads to a parent or to none.
fn orphan_by(orphans: bool, parent: Option<ObjId>) -> Option<bool>
    ensures { result ≡ spec.orphan_by orphans parent }
{
    if orphans {
        Some(parent.is_none())
    } else {
        None
    }
}

/// Of many-to-many, each joins the collection of the other.
pub(crate) fn join_change(
    alloc: Global,
    arena: &Arena,
    owner: ObjId,
    place: RelNo,
    relation: &Relation,
    member: ObjId,
) -> Result<Change, AllocError>
    requires owner { IsObject arena.now owner }
    requires member { IsObject arena.now member }
    ensures change { IfOk result (λ change. change
        ≡ spec.join_change arena.now owner place relation.now member) }
    ensures placed { IfOk result (IsPlaced arena.now) }
{
    let joined = joining(alloc, arena, owner, place, member)?;
    let own = joining(alloc, arena, member, relation.partner, owner)?;
    Ok(Change {
        left: None,
        joined,
        own,
        orphan: None,
    })
}

/// What the removal of a member makes of both sides.
pub(crate) fn remove_change(
    alloc: Global,
    arena: &Arena,
    owner: ObjId,
    place: RelNo,
    relation: &Relation,
    member: ObjId,
) -> Result<Change, AllocError>
    requires owner { IsObject arena.now owner }
    requires member { IsObject arena.now member }
    ensures change { IfOk result (λ change. change
        ≡ spec.remove_change arena.now owner place relation.now member) }
    ensures placed { IfOk result (IsPlaced arena.now) }
{
    let left = leaving(alloc, arena, owner, place, member)?;
    if relation.far.is_some() {
        let own = leaving(alloc, arena, member, relation.partner, owner)?;
        return Ok(Change {
            left,
            joined: None,
            own,
            orphan: None,
        });
    }
    if leads_elsewhere(arena, member, relation.partner, owner) {
        return Ok(Change {
            left,
            joined: None,
            own: None,
            orphan: None,
        });
    }
    Ok(Change {
        left,
        joined: None,
        own: leading(arena, member, relation.partner, None),
        orphan: orphan_by(relation.cascade.delete_orphan, None),
    })
}

/// Whether a link is loaded and leads to another object than the owner.
fn leads_elsewhere(arena: &Arena, member: ObjId, place: RelNo, owner: ObjId) -> bool
    requires { IsObject arena.now member }
    ensures { result ≡ spec.leads_elsewhere (spec.link_at arena.now member place) owner }
{
    match arena.object(member).links.get(place.0 as usize) {
        Some(Link::One { end: Some(end), .. }) => end.0 != owner.0,
        _ => false,
    }
}
