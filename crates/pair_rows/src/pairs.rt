//! The rows of secondary tables that are made and taken away.

ghost use Rattle.std.specs.Prelude.{◌≡◌, ◌++◌, ◌∷◌, [], fold, map, slice_index_or, IfOk, OnOk};
ghost use Rattle.std.specs.BTreeSet.{insert_key};
ghost use Rattle.std.specs.List.{All, filter, flat_map};
ghost use Rattle.object_arena.specs.Fit.{IsFit};
ghost use Rattle.object_arena.specs.Graph.{IsObject, object_at};
ghost use Rattle.pair_rows.specs.Pairs as spec;

use crate::members::{members_added, members_before, members_removed};
use crate::standing::{has_key, is_leaving, link_or};
use base_core::{ObjId, TableId};
use class_mapping::{Mapping, Relation};
use object_arena::{Arena, Link};
use object_rows::{Prepared, is_in_session, object_ids};
use std::alloc::{AllocError, Global};
use std::collections::BTreeSet;

/// A secondary table, the object of its first foreign key and that of its second.
pub(crate) type Pair = (TableId, (ObjId, ObjId));

/// An object and a member of its collection.
fn pair_of(relation: &Relation, object: ObjId, member: ObjId) -> Pair
    ensures { result ≡ spec.pair_of relation.now object member }
{
    if relation.foreign.1 == 0 {
        return (relation.foreign.0, (object, member));
    }
    (relation.foreign.0, (member, object))
}

/// Whether a pair that was added is made.
fn is_made(arena: &Arena, prepared: &Prepared, object: ObjId, member: ObjId) -> bool
    ensures { result ≡ spec.is_made arena.now prepared.now object member }
{
    is_in_session(arena, prepared, member)
        && !(is_leaving(prepared, object) || is_leaving(prepared, member))
}

/// Whether a pair that was removed is taken away, as far as one of both objects tells.
fn is_parted(arena: &Arena, prepared: &Prepared, member: ObjId) -> bool
    ensures { result ≡ spec.is_parted arena.now prepared.now member }
{
    is_in_session(arena, prepared, member) && has_key(arena, member)
}

/// Whether a pair that stood is taken away.
fn is_lost(arena: &Arena, prepared: &Prepared, object: ObjId, member: ObjId) -> bool
    ensures { result ≡ spec.is_lost arena.now prepared.now object member }
{
    (is_leaving(prepared, object) || is_leaving(prepared, member)) && has_key(arena, member)
}

/// Pairs of an object that are made with these members go behind others.
fn push_made(
    out: &mut Vec<Pair>,
    arena: &Arena,
    prepared: &Prepared,
    object: ObjId,
    relation: &Relation,
    members: &[ObjId],
) -> Result<(), AllocError>
    ensures { OnOk result (out.new.items ≡ out.old.items
        ++ map (spec.pair_of relation.now object)
        (filter (spec.is_made arena.now prepared.now object) members.now)) }
{
    for member in members {
        if is_made(arena, prepared, object, *member) {
            out.push(pair_of(relation, object, *member))?;
        }
    }
    Ok(())
}

/// Pairs of an object that stood with these members and are taken away go behind others.
fn push_lost(
    out: &mut Vec<Pair>,
    arena: &Arena,
    prepared: &Prepared,
    object: ObjId,
    relation: &Relation,
    members: &[ObjId],
) -> Result<(), AllocError>
    ensures { OnOk result (out.new.items ≡ out.old.items
        ++ map (spec.pair_of relation.now object)
        (filter (spec.is_lost arena.now prepared.now object) members.now)) }
{
    for member in members {
        if is_lost(arena, prepared, object, *member) {
            out.push(pair_of(relation, object, *member))?;
        }
    }
    Ok(())
}

/// Pairs of an object that lost these members and are taken away go behind others.
fn push_parted(
    out: &mut Vec<Pair>,
    arena: &Arena,
    prepared: &Prepared,
    object: ObjId,
    relation: &Relation,
    members: &[ObjId],
) -> Result<(), AllocError>
    ensures { OnOk result (out.new.items ≡ out.old.items
        ++ map (spec.pair_of relation.now object)
        (filter (spec.is_parted arena.now prepared.now) members.now)) }
{
    for member in members {
        if is_parted(arena, prepared, *member) {
            out.push(pair_of(relation, object, *member))?;
        }
    }
    Ok(())
}

/// The pairs that are made of a collection go behind others.
fn push_made_from(
    out: &mut Vec<Pair>,
    alloc: Global,
    arena: &Arena,
    prepared: &Prepared,
    object: ObjId,
    relation: &Relation,
    link: &Link,
) -> Result<(), AllocError>
    ensures { OnOk result (out.new.items ≡ out.old.items
        ++ spec.made_from arena.now prepared.now object relation.now link.now) }
{
    let members = members_added(alloc, link)?;
    push_made(out, arena, prepared, object, relation, members.as_slice())
}

/// The pairs that are taken away of a collection go behind others.
fn push_lost_from(
    out: &mut Vec<Pair>,
    alloc: Global,
    arena: &Arena,
    prepared: &Prepared,
    object: ObjId,
    relation: &Relation,
    link: &Link,
) -> Result<(), AllocError>
    ensures { OnOk result (out.new.items ≡ out.old.items
        ++ spec.lost_from arena.now prepared.now object relation.now link.now) }
{
    let removed = members_removed(alloc, link)?;
    push_lost(out, arena, prepared, object, relation, members_before(link))?;
    push_parted(out, arena, prepared, object, relation, removed.as_slice())
}

/// The pairs that are made of an object's collection, of this number, go behind others.
fn push_made_by(
    out: &mut Vec<Pair>,
    alloc: Global,
    arena: &Arena,
    prepared: &Prepared,
    object: ObjId,
    number: usize,
    relation: &Relation,
) -> Result<(), AllocError>
    requires object { IsObject arena.now object }
    ensures { OnOk result (out.new.items ≡ out.old.items
        ++ spec.made_by arena.now prepared.now object (number, relation.now)) }
{
    if relation.far.is_none() {
        return Ok(());
    }
    let unset = Link::Unset;
    let link = link_or(arena.object(object), number, &unset);
    push_made_from(out, alloc, arena, prepared, object, relation, link)
}

/// The pairs that are taken away of an object's collection, of this number, go behind others.
fn push_lost_by(
    out: &mut Vec<Pair>,
    alloc: Global,
    arena: &Arena,
    prepared: &Prepared,
    object: ObjId,
    number: usize,
    relation: &Relation,
) -> Result<(), AllocError>
    requires object { IsObject arena.now object }
    ensures { OnOk result (out.new.items ≡ out.old.items
        ++ spec.lost_by arena.now prepared.now object (number, relation.now)) }
{
    if relation.far.is_none() {
        return Ok(());
    }
    let unset = Link::Unset;
    let link = link_or(arena.object(object), number, &unset);
    push_lost_from(out, alloc, arena, prepared, object, relation, link)
}

#[tactic(auto, using(class_layouts::proofs::Steps::steps, object_arena::proofs::FitLemmas::fit_class))]
/// The pairs that are made of an object's collections go behind others.
fn push_made_of(
    out: &mut Vec<Pair>,
    alloc: Global,
    mapping: &Mapping,
    arena: &Arena,
    prepared: &Prepared,
    object: ObjId,
) -> Result<(), AllocError>
    requires fit { IsFit mapping.now arena.now }
    requires object { IsObject arena.now object }
    ensures { OnOk result (out.new.items ≡ out.old.items
        ++ spec.made_of mapping.now arena.now prepared.now object) }
{
    if !is_in_session(arena, prepared, object) {
        return Ok(());
    }
    let relations = mapping.relations(arena.object(object).class);
    for (number, relation) in relations.iter().enumerate() {
        push_made_by(out, alloc, arena, prepared, object, number, relation)?;
    }
    Ok(())
}

#[tactic(auto, using(class_layouts::proofs::Steps::steps, object_arena::proofs::FitLemmas::fit_class))]
/// The pairs that are taken away of an object's collections go behind others.
fn push_lost_of(
    out: &mut Vec<Pair>,
    alloc: Global,
    mapping: &Mapping,
    arena: &Arena,
    prepared: &Prepared,
    object: ObjId,
) -> Result<(), AllocError>
    requires fit { IsFit mapping.now arena.now }
    requires object { IsObject arena.now object }
    ensures { OnOk result (out.new.items ≡ out.old.items
        ++ spec.lost_of mapping.now arena.now prepared.now object) }
{
    if !is_parted(arena, prepared, object) {
        return Ok(());
    }
    let relations = mapping.relations(arena.object(object).class);
    for (number, relation) in relations.iter().enumerate() {
        push_lost_by(out, alloc, arena, prepared, object, number, relation)?;
    }
    Ok(())
}

/// A pair is one of a set.
fn enter(set: &mut BTreeSet<Pair>, pair: Pair) -> Result<(), AllocError>
    ensures { OnOk result (set.new.keys ≡ insert_key spec.pair_cmp set.old.keys pair) }
{
    set.insert(pair)?;
    Ok(())
}

#[tactic(auto, using(class_layouts::proofs::Steps::steps))]
/// Pairs as a set, ascending.
fn as_set(alloc: Global, pairs: &[Pair]) -> Result<Vec<Pair>, AllocError>
    ensures { IfOk result (λ set. set.items ≡ spec.as_set pairs.now) }
{
    let mut set = BTreeSet::new(alloc);
    for pair in pairs {
        enter(&mut set, *pair)?;
    }
    Ok(set.into_iter().collect(alloc)?)
}

#[tactic(auto, using(class_layouts::proofs::Steps::steps), unfolding(crate::specs::Pairs::made_pairs))]
/// The pairs that are made, by table and objects.
pub(crate) fn made_pairs(
    alloc: Global,
    mapping: &Mapping,
    arena: &Arena,
    prepared: &Prepared,
) -> Result<Vec<Pair>, AllocError>
    requires fit { IsFit mapping.now arena.now }
    ensures { IfOk result
        (λ pairs. pairs.items ≡ spec.made_pairs mapping.now arena.now prepared.now) }
{
    let objects = object_ids(alloc, arena)?;
    let mut pairs = Vec::new(alloc);
    for object in &objects {
        push_made_of(&mut pairs, alloc, mapping, arena, prepared, *object)?;
    }
    as_set(alloc, pairs.as_slice())
}

#[tactic(auto, using(class_layouts::proofs::Steps::steps), unfolding(crate::specs::Pairs::lost_pairs))]
/// The pairs that are taken away, by table and objects.
pub(crate) fn lost_pairs(
    alloc: Global,
    mapping: &Mapping,
    arena: &Arena,
    prepared: &Prepared,
) -> Result<Vec<Pair>, AllocError>
    requires fit { IsFit mapping.now arena.now }
    ensures { IfOk result
        (λ pairs. pairs.items ≡ spec.lost_pairs mapping.now arena.now prepared.now) }
{
    let objects = object_ids(alloc, arena)?;
    let mut pairs = Vec::new(alloc);
    for object in &objects {
        push_lost_of(&mut pairs, alloc, mapping, arena, prepared, *object)?;
    }
    as_set(alloc, pairs.as_slice())
}
