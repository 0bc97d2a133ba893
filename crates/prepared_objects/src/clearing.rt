//! Which links become none where objects are deleted.

ghost use Rattle.std.specs.Prelude.{◌≡◌, ◌++◌, IfOk, OnOk};
ghost use Rattle.std.specs.List.{All};
ghost use Rattle.object_arena.specs.Fit.{IsFit};
ghost use Rattle.object_arena.specs.Graph.{IsObject, object_at};
ghost use Rattle.object_rows.specs.Seen.{link_of};
ghost use Rattle.relations.specs.Mirror.{is_of};
ghost use Rattle.prepared_objects.specs.Leaving as spec;

use base_core::{ClassId, ListOf, ObjId, RelNo};
use class_layouts::has_class;
use class_mapping::{Mapping, Relation};
use object_arena::{Arena, Link, State};
use object_parts::add_ends;
use object_rows::ObjIndex;
use pair_rows::link_or;
use std::alloc::{AllocError, Global};

/// Links that become none.
type Cleared = ListOf<(ObjId, RelNo)>;

/// Whether a relationship is a one-to-many collection whose members stay where its owner is deleted.
fn keeps_members(relation: &Relation) -> bool
    ensures { result ≡ spec.keeps_members relation.now }
{
    relation.many && relation.far.is_none() && !relation.cascade.delete
}

/// Whether a link is known, and names an object other than the owner.
fn leads_elsewhere(owner: ObjId, link: &Link) -> bool
    ensures { result ≡ spec.leads_elsewhere owner link.now }
{
    match link {
        Link::One { end: Some(end), .. } => end.0 != owner.0,
        Link::One { end: None, .. } => false,
        Link::Unset | Link::Unloaded { .. } | Link::Many { .. } => false,
    }
}

/// Whether an object in this state loses links; deleted and detached ones keep theirs.
fn loses_links(state: State) -> bool
    ensures { result ≡ spec.loses_links state }
{
    match state {
        State::Transient | State::Pending | State::Persistent => true,
        State::Deleted | State::Detached => false,
    }
}

/// Whether an object is of a class at or under the class.
fn is_of(arena: &Arena, mapping: &Mapping, class: ClassId, object: ObjId) -> bool
    requires { IsObject arena.now object }
    ensures { result ≡ is_of arena.now mapping.now class object }
{
    has_class(mapping.line_of(arena.class_of(object)), class.0 as usize)
}

/// Whether the link of a member at a place leads elsewhere than to the owner.
fn member_elsewhere(arena: &Arena, owner: ObjId, member: ObjId, place: RelNo) -> bool
    requires { IsObject arena.now member }
    ensures { result
        ≡ spec.leads_elsewhere owner (link_of (object_at arena.now member) place) }
{
    let unset = Link::Unset;
    leads_elsewhere(
        owner,
        link_or(arena.object(member), place.0 as usize, &unset),
    )
}

/// Whether the link of a member of the owner's collection becomes none, where these objects are deleted.
fn loses_link(
    arena: &Arena,
    mapping: &Mapping,
    gone: &ObjIndex,
    owner: ObjId,
    relation: &Relation,
    member: ObjId,
) -> bool
    requires member { IsObject arena.now member }
    ensures { result
        ≡ spec.loses_link mapping.now arena.now gone.now owner relation.now member }
{
    !gone.has(member)
        && is_of(arena, mapping, relation.target, member)
        && loses_links(arena.state_of(member))
        && !member_elsewhere(arena, owner, member, relation.partner)
}

/// The links of these members that become none go to the end.
fn push_cleared(
    out: &mut Cleared,
    arena: &Arena,
    mapping: &Mapping,
    gone: &ObjIndex,
    owner: ObjId,
    relation: &Relation,
    members: &[ObjId],
) -> Result<(), AllocError>
    requires { All (IsObject arena.now) members.now }
    ensures { OnOk result (out.new ≡ out.old
        ++ spec.cleared_from mapping.now arena.now gone.now owner relation.now members.now) }
{
    for member in members {
        if loses_link(arena, mapping, gone, owner, relation, *member) {
            out.push((*member, relation.partner))?;
        }
    }
    Ok(())
}

/// Those for the owner's collection of this number go to the end.
fn push_cleared_by(
    out: &mut Cleared,
    alloc: Global,
    arena: &Arena,
    mapping: &Mapping,
    gone: &ObjIndex,
    owner: ObjId,
    number: usize,
    relation: &Relation,
) -> Result<(), AllocError>
    requires fit { IsFit mapping.now arena.now }
    requires owner { IsObject arena.now owner }
    ensures { OnOk result (out.new ≡ out.old
        ++ spec.cleared_by mapping.now arena.now gone.now owner (number, relation.now)) }
{
    if !keeps_members(relation) {
        return Ok(());
    }
    let unset = Link::Unset;
    let mut members = ListOf::new(alloc);
    add_ends(
        &mut members,
        true,
        link_or(arena.object(owner), number, &unset),
    )?;
    push_cleared(
        out,
        arena,
        mapping,
        gone,
        owner,
        relation,
        members.as_slice(),
    )
}

#[tactic(auto, using(class_layouts::proofs::Steps::steps, object_arena::proofs::FitLemmas::fit_class))]
/// Those where the owner is deleted go to the end.
fn push_cleared_of(
    out: &mut Cleared,
    alloc: Global,
    arena: &Arena,
    mapping: &Mapping,
    gone: &ObjIndex,
    owner: ObjId,
) -> Result<(), AllocError>
    requires fit { IsFit mapping.now arena.now }
    requires owner { IsObject arena.now owner }
    ensures { OnOk result (out.new ≡ out.old
        ++ spec.cleared_of mapping.now arena.now gone.now owner) }
{
    let relations = mapping.relations(arena.object(owner).class);
    for (number, relation) in relations.iter().enumerate() {
        push_cleared_by(out, alloc, arena, mapping, gone, owner, number, relation)?;
    }
    Ok(())
}

#[tactic(auto, using(class_layouts::proofs::Steps::steps), unfolding(crate::specs::Leaving::cleared))]
/// The links that become none where objects are deleted. The only refusal is out of memory.
pub(crate) fn cleared(
    alloc: Global,
    arena: &Arena,
    mapping: &Mapping,
    gone: &ObjIndex,
) -> Result<Cleared, AllocError>
    requires fit { IsFit mapping.now arena.now }
    requires made { All (IsObject arena.now) gone.now }
    ensures { IfOk result
        (λ cleared. cleared ≡ spec.cleared mapping.now arena.now gone.now) }
{
    let mut cleared = ListOf::new(alloc);
    for owner in gone.as_slice() {
        push_cleared_of(&mut cleared, alloc, arena, mapping, gone, *owner)?;
    }
    Ok(cleared)
}
