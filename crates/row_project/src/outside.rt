//! The objects outside the session that changed links name.

ghost use Rattle.std.specs.Prelude.{◌≡◌, ◌++◌, ◌∷◌, [], not, map, filter, IfOk, OnOk};
ghost use Rattle.std.specs.List.{All, enumerate_from, flat_map};
ghost use Rattle.object_arena.specs.Fit.{IsFit};
ghost use Rattle.object_arena.specs.Graph.{IsObject};
ghost use Rattle.object_rows.specs.Seen.{object_ids as all_ids};
ghost use Rattle.row_project.specs.Warnings as spec;

use base_core::{ListOf, ObjId, ObjList, RelNo, Warning};
use class_layouts::number_of;
use class_mapping::{Mapping, Relation};
use object_arena::{Arena, Link};
use object_rows::{Prepared, end_put, is_in_session, is_new, keeps_rows, object_ids};
use pair_rows::{is_leaving, link_or, members_added, members_removed};
use std::alloc::{AllocError, Global};
use std::collections::BTreeSet;

/// The members that were removed and are not to be deleted go behind others, where that takes a pair away.
fn push_parted(
    out: &mut ObjList,
    alloc: Global,
    prepared: &Prepared,
    relation: &Relation,
    link: &Link,
) -> Result<(), AllocError>
    ensures { OnOk result
        (out.new ≡ out.old ++ spec.parted_named prepared.now relation.now link.now) }
{
    if relation.far.is_none() {
        return Ok(());
    }
    let removed = members_removed(alloc, link)?;
    for member in removed.as_slice() {
        if !is_leaving(prepared, *member) {
            out.push(*member)?;
        }
    }
    Ok(())
}

/// The members of which a collection tells.
fn members_named(
    alloc: Global,
    prepared: &Prepared,
    relation: &Relation,
    link: &Link,
) -> Result<ObjList, AllocError>
    ensures { IfOk result
        (λ members. members ≡ spec.members_named prepared.now relation.now link.now) }
{
    let mut members = members_added(alloc, link)?;
    push_parted(&mut members, alloc, prepared, relation, link)?;
    Ok(members)
}

/// The end of a link, where there is one.
fn end_list(alloc: Global, put: Option<Option<ObjId>>) -> Result<ObjList, AllocError>
    ensures { IfOk result (λ ends. ends ≡ spec.end_list put) }
{
    let mut ends = ListOf::new(alloc);
    if let Some(Some(end)) = put {
        ends.push(end)?;
    }
    Ok(ends)
}

/// The objects of which a changed link of an object, of this number, tells.
fn named_by(
    alloc: Global,
    arena: &Arena,
    prepared: &Prepared,
    object: ObjId,
    number: usize,
    relation: &Relation,
) -> Result<ObjList, AllocError>
    requires { IsObject arena.now object }
    ensures { IfOk result
        (λ named. named ≡ spec.named_by arena.now prepared.now object (number, relation.now)) }
{
    if !relation.many {
        let link = RelNo(number_of(number)?);
        return end_list(alloc, end_put(arena, prepared, object, link));
    }
    let unset = Link::Unset;
    let link = link_or(arena.object(object), number, &unset);
    members_named(alloc, prepared, relation, link)
}

#[tactic(auto, using(class_layouts::proofs::Steps::steps))]
/// Those outside the session, as a set, ascending.
fn outside(
    alloc: Global,
    arena: &Arena,
    prepared: &Prepared,
    objects: &[ObjId],
) -> Result<Vec<ObjId>, AllocError>
    ensures { IfOk result
        (λ outside. outside.items ≡ spec.outside arena.now prepared.now objects.now) }
{
    let mut set = BTreeSet::new(alloc);
    for object in objects {
        if !is_in_session(arena, prepared, *object) {
            set.insert(*object)?;
        }
    }
    Ok(set.into_iter().collect(alloc)?)
}

/// The warnings of a changed link of an object, of this number, go behind others.
fn push_warned_by(
    out: &mut ListOf<Warning>,
    alloc: Global,
    arena: &Arena,
    prepared: &Prepared,
    object: ObjId,
    number: usize,
    relation: &Relation,
) -> Result<(), AllocError>
    requires { IsObject arena.now object }
    ensures { OnOk result (out.new ≡ out.old
        ++ spec.warned_by arena.now prepared.now object (number, relation.now)) }
{
    let named = named_by(alloc, arena, prepared, object, number, relation)?;
    let outside = outside(alloc, arena, prepared, named.as_slice())?;
    push_warnings(out, number_of(number)?, relation, outside.as_slice())
}

/// The warnings of these objects go behind others.
fn push_warnings(
    out: &mut ListOf<Warning>,
    number: u32,
    relation: &Relation,
    objects: &[ObjId],
) -> Result<(), AllocError>
    ensures { OnOk result (out.new ≡ out.old
        ++ map (spec.warning_of (number, relation.now)) objects.now) }
{
    for object in objects {
        out.push(Warning {
            object: *object,
            class: relation.class,
            relation: RelNo(number),
        })?;
    }
    Ok(())
}

#[tactic(auto, using(class_layouts::proofs::Steps::steps))]
/// The warnings of an object's links, which have these relationships, go behind others.
fn push_warned_of(
    out: &mut ListOf<Warning>,
    alloc: Global,
    arena: &Arena,
    prepared: &Prepared,
    object: ObjId,
    relations: &[Relation],
) -> Result<(), AllocError>
    requires { IsObject arena.now object }
    ensures { OnOk result (out.new ≡ out.old ++ flat_map
        (spec.warned_by arena.now prepared.now object) (enumerate_from 0 relations.now)) }
{
    for (number, relation) in relations.iter().enumerate() {
        push_warned_by(out, alloc, arena, prepared, object, number, relation)?;
    }
    Ok(())
}

/// Whether an object is in the session, and is not to be deleted.
fn is_written(arena: &Arena, prepared: &Prepared, object: ObjId) -> bool
    ensures { result ≡ spec.is_written arena.now prepared.now object }
{
    is_new(arena, prepared, object) || keeps_rows(arena, prepared, object)
}

/// The objects in the session that are not to be deleted.
fn written_list(alloc: Global, arena: &Arena, prepared: &Prepared) -> Result<Vec<ObjId>, AllocError>
    ensures { IfOk result (λ objects. objects.items
        ≡ filter (spec.is_written arena.now prepared.now) (all_ids arena.now)) }
{
    let ids = object_ids(alloc, arena)?;
    let mut written = Vec::new(alloc);
    for object in &ids {
        if is_written(arena, prepared, *object) {
            written.push(*object)?;
        }
    }
    Ok(written)
}

/// These objects, which have been made.
fn written_objects(
    alloc: Global,
    arena: &Arena,
    prepared: &Prepared,
) -> Result<Vec<ObjId>, AllocError>
    ensures objects { IfOk result (λ objects. objects.items
        ≡ filter (spec.is_written arena.now prepared.now) (all_ids arena.now)) }
    ensures made { IfOk result (λ objects. All (IsObject arena.now) objects.items) }
{
    let objects = written_list(alloc, arena, prepared)?;
    Ok(objects)
}

#[tactic(auto, using(class_layouts::proofs::Steps::steps, object_arena::proofs::FitLemmas::fit_class), unfolding(crate::specs::Warnings::warnings))]
/// The objects outside the session that a flush meets in changed links and skips, by owner, relationship and member.
pub(crate) fn warnings(
    alloc: Global,
    arena: &Arena,
    mapping: &Mapping,
    prepared: &Prepared,
) -> Result<ListOf<Warning>, AllocError>
    requires fit { IsFit mapping.now arena.now }
    ensures { IfOk result
        (λ warnings. warnings ≡ spec.warnings mapping.now arena.now prepared.now) }
{
    let objects = written_objects(alloc, arena, prepared)?;
    let mut warnings = ListOf::new(alloc);
    for object in &objects {
        let relations = mapping.relations(arena.object(*object).class);
        push_warned_of(&mut warnings, alloc, arena, prepared, *object, relations)?;
    }
    Ok(warnings)
}
