//! What is asked of one link of an object, which links change then, and the change of them.

ghost use Rattle.std.specs.Prelude.{◌≡◌, ◌<◌, Some, length, true, false, IfOk};
ghost use Rattle.base_core.specs.Answers.{Gives, Takes};
ghost use Rattle.class_mapping.specs.Mapped.{Mapped, relations_of};
ghost use Rattle.class_mapping.specs.Paired.{HasPairs, IsAt};
ghost use Rattle.object_arena.specs.Every.{classes_of};
ghost use Rattle.object_arena.specs.Fit.{IsFit, relation_of};
ghost use Rattle.object_arena.specs.Graph.{IsObject, object_at};
ghost use Rattle.relations.specs.Calls as spec;
ghost use Rattle.relations.specs.Fits.{ChangeFits, IsEndOf, IsManyAt, IsOneAt};
ghost use Rattle.relations.specs.Keys.{IsEnd};
ghost use Rattle.relations.specs.Mirror as mirror;
ghost use Rattle.relations.specs.Places.{IsPlaced};

use crate::change::{Change, apply};
use crate::keys::changes_key;
use crate::mirror::{end_fault, has_member, join_change, remove_change, set_change};
use crate::parents::parent_before;
use base_core::{ObjId, Refusal, RelNo, RequestKind};
use class_mapping::{Mapping, Relation};
use object_arena::{Arena, Link};
use std::alloc::Global;

/// What is asked of one link of an object.
#[derive(Clone, Copy)]
pub enum LinkCall {
    /// A many-to-one link is set to an object, or to none.
    Set(Option<ObjId>),
    /// A member is appended to a collection.
    Append(ObjId),
    /// A member is taken out of a collection.
    Remove(ObjId),
}

impl LinkCall {
    /// The object that is named, if there is one.
    pub fn end(self) -> Option<ObjId>
        ensures { result ≡ spec.end_of self }
    {
        match self {
            LinkCall::Set(parent) => parent,
            LinkCall::Append(member) | LinkCall::Remove(member) => Some(member),
        }
    }

    /// The object that a change of its parent may make an orphan: the owner of a many-to-one link, else the member.
    pub fn child(self, owner: ObjId) -> ObjId
        ensures { result ≡ spec.child_of owner self }
    {
        match self {
            LinkCall::Set(_parent) => owner,
            LinkCall::Append(member) | LinkCall::Remove(member) => member,
        }
    }
}

/// Sets a many-to-one link of a child to a parent, or to none.
///
/// Where the link's old parent is known to be the one that it is set to, the link is loaded and nothing else happens. Else
/// the child leaves the collection of its old parent, where that is known and of the link's target, and joins the end of
/// the new one's; the link leads to the new one then, and is changed. Where the collections of its parents have
/// delete-orphan, the child is an orphan if it has no parent then, and is none if it has one.
///
/// # Errors
/// `InvalidRequestError` with the first that holds: `BadOwner` (the child is deleted or detached), `BadMember` (the parent
/// is, or is of no class at or under the link's target), `KeyChange` (the child is persistent, the foreign key has columns
/// of its primary key, and the parent is no known old parent and has no identity that gives these columns the values that
/// they have). A refusal changes nothing.
pub fn set_one(
    alloc: Global,
    arena: &mut Arena,
    mapping: &Mapping,
    child: ObjId,
    relation: RelNo,
    parent: Option<ObjId>,
) -> Result<(), Refusal>
    requires fit { IsFit mapping.now arena.old }
    requires child { IsObject arena.old child }
    requires relation { relation.0
        < length (relations_of mapping.now (object_at arena.old child).class) }
    requires one { (relation_of mapping.now (object_at arena.old child).class relation).many
        ≡ false }
    requires parent { IsEnd arena.old parent }
    ensures step { Takes (λ _. tt)
        (spec.set_one arena.old mapping.now child relation parent) arena.old result arena.new }
    ensures fits { IsFit mapping.now arena.new }
    ensures classes { classes_of arena.new ≡ classes_of arena.old }
{
    let call = LinkCall::Set(parent);
    change_links(alloc, arena, mapping, child, relation, call)
}

/// Appends a member to a collection that is not unloaded.
///
/// A member that is there already stays where it is, and nothing changes. Of one-to-many the member's link is set to the
/// owner, as [`set_one`] does; of many-to-many each joins the collection of the other.
///
/// # Errors
/// `InvalidRequestError` with the first that holds: `BadOwner` (the owner is deleted or detached), `BadMember` (the member
/// is, or is of no class at or under the collection's target), `KeyChange` as [`set_one`] has it for the member's link. A
/// refusal changes nothing.
pub fn append(
    alloc: Global,
    arena: &mut Arena,
    mapping: &Mapping,
    owner: ObjId,
    relation: RelNo,
    member: ObjId,
) -> Result<(), Refusal>
    requires fit { IsFit mapping.now arena.old }
    requires owner { IsObject arena.old owner }
    requires relation { relation.0
        < length (relations_of mapping.now (object_at arena.old owner).class) }
    requires many { (relation_of mapping.now (object_at arena.old owner).class relation).many
        ≡ true }
    requires member { IsObject arena.old member }
    requires loaded { mirror.is_unloaded (mirror.link_at arena.old owner relation) ≡ false }
    ensures step { Takes (λ _. tt)
        (spec.append arena.old mapping.now owner relation member) arena.old result arena.new }
    ensures fits { IsFit mapping.now arena.new }
    ensures classes { classes_of arena.new ≡ classes_of arena.old }
{
    let call = LinkCall::Append(member);
    change_links(alloc, arena, mapping, owner, relation, call)
}

/// Takes a member out of a collection that is not unloaded.
///
/// Of one-to-many the member's link leads to none then, unless it is loaded and leads to another object, and the member is
/// an orphan where the collection has delete-orphan. Of many-to-many each leaves the collection of the other.
///
/// # Errors
/// `InvalidRequestError` with the first that holds: `BadOwner` (the owner is deleted or detached), `BadMember` (the member
/// is, or is of no class at or under the collection's target), `NotAMember` (the collection lacks the member). A refusal
/// changes nothing.
pub fn remove(
    alloc: Global,
    arena: &mut Arena,
    mapping: &Mapping,
    owner: ObjId,
    relation: RelNo,
    member: ObjId,
) -> Result<(), Refusal>
    requires fit { IsFit mapping.now arena.old }
    requires owner { IsObject arena.old owner }
    requires relation { relation.0
        < length (relations_of mapping.now (object_at arena.old owner).class) }
    requires many { (relation_of mapping.now (object_at arena.old owner).class relation).many
        ≡ true }
    requires member { IsObject arena.old member }
    requires loaded { mirror.is_unloaded (mirror.link_at arena.old owner relation) ≡ false }
    ensures step { Takes (λ _. tt)
        (spec.remove arena.old mapping.now owner relation member) arena.old result arena.new }
    ensures fits { IsFit mapping.now arena.new }
    ensures classes { classes_of arena.new ≡ classes_of arena.old }
{
    let call = LinkCall::Remove(member);
    change_links(alloc, arena, mapping, owner, relation, call)
}

/// Links change by a call, on both sides at once.
fn change_links(
    alloc: Global,
    arena: &mut Arena,
    mapping: &Mapping,
    owner: ObjId,
    relation: RelNo,
    call: LinkCall,
) -> Result<(), Refusal>
    requires fit { IsFit mapping.now arena.old }
    requires owner { IsObject arena.old owner }
    requires relation { relation.0
        < length (relations_of mapping.now (object_at arena.old owner).class) }
    requires form { (relation_of mapping.now (object_at arena.old owner).class relation).many
        ≡ spec.is_of_collection call }
    requires end { IsEnd arena.old (spec.end_of call) }
    ensures step { Takes (λ _. tt)
        (spec.link_changed arena.old mapping.now owner relation call) arena.old result arena.new }
    ensures fits { IsFit mapping.now arena.new }
    ensures classes { classes_of arena.new ≡ classes_of arena.old }
{
    let change = link_change(alloc, arena, mapping, owner, relation, call)?;
    apply(arena, call.child(owner), change);
    Ok(())
}

/// Which links change on both sides by a call. An unloaded collection is taken as if the member joined it or left it unread.
///
/// # Errors
/// `InvalidRequestError` with the first that holds: `BadOwner` (the owner is deleted or detached), `BadMember` (the object that is
/// named is, or is of no class at or under the link's target), `KeyChange` (a link over key columns of a persistent object would
/// lead to an object that is no known old parent and does not keep the key), `NotAMember` (a loaded or unset collection lacks the
/// object that is to be taken out). `Memory`.
#[tactic(auto, unfolding(crate::specs::Calls::link_change))]
pub fn link_change(
    alloc: Global,
    arena: &Arena,
    mapping: &Mapping,
    owner: ObjId,
    relation: RelNo,
    call: LinkCall,
) -> Result<Change, Refusal>
    requires fit { IsFit mapping.now arena.now }
    requires owner { IsObject arena.now owner }
    requires relation { relation.0
        < length (relations_of mapping.now (object_at arena.now owner).class) }
    requires form { (relation_of mapping.now (object_at arena.now owner).class relation).many
        ≡ spec.is_of_collection call }
    requires end { IsEnd arena.now (spec.end_of call) }
    ensures change { Gives (λ change. change) result
        (spec.link_change arena.now mapping.now owner relation call) }
    ensures placed { IfOk result (IsPlaced arena.now) }
    ensures fits { IfOk result (ChangeFits mapping.now arena.now) }
{
    let found = &mapping.relations(arena.object(owner).class)[relation.0 as usize];
    match end_fault(arena, mapping, owner, found.target, call.end()) {
        Some(fault) => Err(fault),
        None => links_by(alloc, arena, mapping, owner, relation, found, call),
    }
}

/// Which links change by a call, where both sides can take part.
fn links_by(
    alloc: Global,
    arena: &Arena,
    mapping: &Mapping,
    owner: ObjId,
    place: RelNo,
    relation: &Relation,
    call: LinkCall,
) -> Result<Change, Refusal>
    requires fit { IsFit mapping.now arena.now }
    requires owner { IsObject arena.now owner }
    requires end { IsEnd arena.now (spec.end_of call) }
    ensures change { Gives (λ change. change) result
        (spec.links_by arena.now mapping.now owner place relation.now call) }
    ensures placed { IfOk result (IsPlaced arena.now) }
    ensures fits { HasPairs mapping.now
        → IsAt mapping.now (object_at arena.now owner).class place.0 relation.now
        → relation.now.many ≡ spec.is_of_collection call
        → IsEndOf arena.now mapping.now relation.now.target (spec.end_of call)
        → IfOk result (ChangeFits mapping.now arena.now) }
{
    match call {
        LinkCall::Set(parent) => links_set(alloc, arena, mapping, owner, place, relation, parent),
        LinkCall::Append(member) => links_appended(
            alloc, arena, mapping, owner, place, relation, member,
        ),
        LinkCall::Remove(member) => links_removed(alloc, arena, owner, place, relation, member),
    }
}

/// Which links change where a many-to-one link is set.
#[tactic(auto, unfolding(crate::specs::Calls::links_set))]
fn links_set(
    alloc: Global,
    arena: &Arena,
    mapping: &Mapping,
    child: ObjId,
    place: RelNo,
    relation: &Relation,
    parent: Option<ObjId>,
) -> Result<Change, Refusal>
    requires fit { IsFit mapping.now arena.now }
    requires child { IsObject arena.now child }
    requires parent { IsEnd arena.now parent }
    ensures change { Gives (λ change. change) result
        (spec.links_set arena.now mapping.now child place relation.now parent) }
    ensures placed { IfOk result (IsPlaced arena.now) }
    ensures fits { HasPairs mapping.now
        → IsOneAt arena.now mapping.now child place relation.now
        → IsEndOf arena.now mapping.now relation.now.target parent
        → IfOk result (ChangeFits mapping.now arena.now) }
{
    let old = parent_before(alloc, arena, mapping, child, place, relation)?;
    if changes_key(arena, mapping, child, relation, old, parent) {
        return Err(Refusal::InvalidRequestError(RequestKind::KeyChange));
    }
    Ok(set_change(alloc, arena, mapping, child, place, relation, old, parent)?)
}

/// Which links change where a member is appended to a collection.
fn links_appended(
    alloc: Global,
    arena: &Arena,
    mapping: &Mapping,
    owner: ObjId,
    place: RelNo,
    relation: &Relation,
    member: ObjId,
) -> Result<Change, Refusal>
    requires fit { IsFit mapping.now arena.now }
    requires owner { IsObject arena.now owner }
    requires member { IsObject arena.now member }
    ensures change { Gives (λ change. change) result
        (spec.links_appended arena.now mapping.now owner place relation.now member) }
    ensures placed { IfOk result (IsPlaced arena.now) }
    ensures fits { HasPairs mapping.now
        → IsManyAt arena.now mapping.now owner place relation.now
        → IsEndOf arena.now mapping.now relation.now.target (Some member)
        → IfOk result (ChangeFits mapping.now arena.now) }
{
    if has_member(arena, owner, place, member) {
        return Ok(no_change());
    }
    if relation.far.is_some() {
        return Ok(join_change(alloc, arena, owner, place, relation, member)?);
    }
    match mapping.partner_of(relation) {
        None => Ok(no_change()),
        Some(link) => links_set(
            alloc,
            arena,
            mapping,
            member,
            relation.partner,
            link,
            Some(owner),
        ),
    }
}

/// Which links change where a member is taken out of a collection.
fn links_removed(
    alloc: Global,
    arena: &Arena,
    owner: ObjId,
    place: RelNo,
    relation: &Relation,
    member: ObjId,
) -> Result<Change, Refusal>
    requires owner { IsObject arena.now owner }
    requires member { IsObject arena.now member }
    ensures change { Gives (λ change. change) result
        (spec.links_removed arena.now owner place relation.now member) }
    ensures placed { IfOk result (IsPlaced arena.now) }
    ensures fits { (mapped : Mapped) → HasPairs mapped → IsFit mapped arena.now
        → IsManyAt arena.now mapped owner place relation.now
        → IsEndOf arena.now mapped relation.now.target (Some member)
        → IfOk result (ChangeFits mapped arena.now) }
{
    if lacks_member(arena, owner, place, member) {
        return Err(Refusal::InvalidRequestError(RequestKind::NotAMember));
    }
    Ok(remove_change(alloc, arena, owner, place, relation, member)?)
}

/// Whether the members of a collection are known, and an object is none of them.
fn lacks_member(arena: &Arena, owner: ObjId, place: RelNo, member: ObjId) -> bool
    requires { IsObject arena.now owner }
    ensures { result ≡ spec.lacks_member arena.now owner place member }
{
    !(is_unloaded(arena, owner, place) || has_member(arena, owner, place, member))
}

/// Whether a link is to be read first.
pub fn is_unloaded(arena: &Arena, owner: ObjId, place: RelNo) -> bool
    requires { IsObject arena.now owner }
    ensures { result ≡ mirror.is_unloaded (mirror.link_at arena.now owner place) }
{
    match arena.object(owner).links.get(place.0 as usize) {
        Some(Link::Unloaded { .. }) => true,
        Some(Link::Unset) | Some(Link::One { .. }) | Some(Link::Many { .. }) | None => false,
    }
}

/// No link changes.
fn no_change() -> Change
    ensures { result ≡ spec.no_change }
{
    Change {
        left: None,
        joined: None,
        own: None,
        orphan: None,
    }
}
