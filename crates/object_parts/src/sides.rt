//! Links that a member leaves or joins.

ghost use Rattle.std.specs.Prelude.{◌≡◌, IfOk};
ghost use Rattle.object_arena.specs.Graph.{is_among};
ghost use Rattle.object_parts.specs.Sides as spec;

use base_core::{Copied, ListOf, ObjId, ObjList};
use object_arena::Link;
use std::alloc::{AllocError, Global};

/// What a link becomes where a member leaves it. The only refusal is out of memory.
pub fn left(alloc: Global, link: &Link, member: ObjId) -> Result<Link, AllocError>
    ensures { IfOk result (λ new. new ≡ spec.left_by link.now member) }
{
    match link {
        Link::Unset => Ok(Link::Unset),
        Link::One { end, changed } => Ok(Link::One {
            end: *end,
            changed: *changed,
        }),
        Link::Unloaded { added, removed } => left_unloaded(alloc, added, removed, member),
        Link::Many { members, base } => {
            let members = without(alloc, members.as_slice(), member)?;
            let base = base.copied()?;
            Ok(Link::Many { members, base })
        }
    }
}

/// What an unloaded collection becomes where a member leaves it.
fn left_unloaded(
    alloc: Global,
    added: &ObjList,
    removed: &ObjList,
    member: ObjId,
) -> Result<Link, AllocError>
    ensures { IfOk result
        (λ new. new ≡ spec.left_unloaded
        (is_among added.now member) added.now removed.now member) }
{
    if is_among(added.as_slice(), member) {
        let added = without(alloc, added.as_slice(), member)?;
        let removed = removed.copied()?;
        return Ok(Link::Unloaded { added, removed });
    }
    let added = added.copied()?;
    let removed = added_to(removed, member)?;
    Ok(Link::Unloaded { added, removed })
}

/// What a link becomes where a member joins it. The only refusal is out of memory.
pub fn joined(alloc: Global, link: &Link, member: ObjId) -> Result<Link, AllocError>
    ensures { IfOk result (λ new. new ≡ spec.joined_by link.now member) }
{
    match link {
        Link::Unset => first(alloc, member),
        Link::One { end, changed } => Ok(Link::One {
            end: *end,
            changed: *changed,
        }),
        Link::Unloaded { added, removed } => joined_unloaded(alloc, added, removed, member),
        Link::Many { members, base } => {
            let members = added_to(members, member)?;
            let base = base.copied()?;
            Ok(Link::Many { members, base })
        }
    }
}

/// A collection of one member.
fn first(alloc: Global, member: ObjId) -> Result<Link, AllocError>
    ensures { IfOk result (λ new. new ≡ spec.joined_by Link.Unset member) }
{
    let mut members = ListOf::new(alloc);
    members.push(member)?;
    Ok(Link::Many {
        members,
        base: ListOf::new(alloc),
    })
}

/// What an unloaded collection becomes where a member joins it.
fn joined_unloaded(
    alloc: Global,
    added: &ObjList,
    removed: &ObjList,
    member: ObjId,
) -> Result<Link, AllocError>
    ensures { IfOk result
        (λ new. new ≡ spec.joined_unloaded
        (is_among removed.now member) added.now removed.now member) }
{
    if is_among(removed.as_slice(), member) {
        let added = added.copied()?;
        let removed = without(alloc, removed.as_slice(), member)?;
        return Ok(Link::Unloaded { added, removed });
    }
    let added = added_to(added, member)?;
    let removed = removed.copied()?;
    Ok(Link::Unloaded { added, removed })
}

/// Whether an object is among others.
pub fn is_among(objects: &[ObjId], object: ObjId) -> bool
    ensures { result ≡ is_among objects.now object }
{
    objects.iter().any(|other| other.0 == object.0)
}

/// The objects but for one.
fn without(alloc: Global, objects: &[ObjId], object: ObjId) -> Result<ObjList, AllocError>
    ensures { IfOk result (λ rest. rest ≡ spec.without objects.now object) }
{
    let mut rest = ListOf::new(alloc);
    for other in objects {
        if other.0 != object.0 {
            rest.push(*other)?;
        }
    }
    Ok(rest)
}

/// The objects with one behind them, unless it is among them.
fn added_to(objects: &ObjList, object: ObjId) -> Result<ObjList, AllocError>
    ensures { IfOk result (λ all. all
        ≡ spec.added_unless (is_among objects.now object) objects.now object) }
{
    let mut all = objects.copied()?;
    if !is_among(objects.as_slice(), object) {
        all.push(object)?;
    }
    Ok(all)
}
