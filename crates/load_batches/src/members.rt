//! Members with the keys of their owners.

ghost use Rattle.std.specs.Prelude.{◌≡◌, true, map, IfErr, IfOk, OnOk};
ghost use Rattle.std.specs.List.{All, AllByRecursion};
ghost use Rattle.class_mapping.specs.Mapped.{IsClass, root_of};
ghost use Rattle.object_arena.specs.Fit.{IsFit, is_of_root};
ghost use Rattle.keeper_core.specs.Alone.{alone};
ghost use Rattle.keeper_core.specs.Moment.{Runs};
ghost use Rattle.load_filling.specs.Growing.{Grows};
ghost use Rattle.load_filling.specs.Rows.{value_in};
ghost use Rattle.load_rows.specs.Loading.{loading};
ghost use Rattle.load_calls.specs.Refusals.{CanRefuseRow};
ghost use Rattle.collection_selects.specs.Pairs as member_rows;
ghost use Rattle.load_batches.specs.Batches as spec;

use crate::cuts::rest_from;
use base_core::{AttrNo, Copied, Key, ListOf, ObjId, Refusal, RowValues, Value};
use class_layouts::number_of;
use class_mapping::{Mapping, Relation};
use keeper_core::Notes;
use load_columns::foreign_numbers;
use load_rows::take_row;
use load_targets::foreign_attrs;
use object_arena::Arena;
use std::alloc::{AllocError, Global};

/// An object that a row gave, and the key of its owner.
#[derive(Drop)]
pub struct Member {
    pub owner: Key,
    pub object: ObjId,
}

/// What a row has at the place of an attribute; where there is nothing, NULL.
fn value_in(row: &[Value], attr: AttrNo) -> Result<Value, AllocError>
    ensures { IfOk result (λ value. value ≡ value_in row.now attr) }
{
    match row.get(attr.0 as usize) {
        Some(value) => Ok(value.copied()?),
        None => Ok(Value::Null),
    }
}

/// What a row has for attributes.
fn values_in(alloc: Global, attrs: &[AttrNo], row: &[Value]) -> Result<Key, AllocError>
    ensures { IfOk result (λ values. values ≡ map (value_in row.now) attrs.now) }
{
    let mut values = ListOf::new(alloc);
    for attr in attrs {
        values.push(value_in(row, *attr)?)?;
    }
    Ok(values)
}

/// How many values of a member's row stand before those of the target.
fn owner_width(alloc: Global, mapping: &Mapping, relation: &Relation) -> Result<u32, AllocError>
    ensures { IfOk result (λ width. width ≡ member_rows.owner_width mapping.now relation.now) }
{
    match relation.far {
        Some(_far) => number_of(foreign_numbers(alloc, mapping, relation.foreign)?.len()),
        None => Ok(0),
    }
}

/// The first places of a row.
#[tactic(auto, using(load_selects::proofs::Steps::number_steps))]
fn first_places(alloc: Global, count: u32) -> Result<ListOf<AttrNo>, AllocError>
    ensures { IfOk result (λ places. places ≡ spec.first_places count) }
{
    let mut places = ListOf::new(alloc);
    for number in 0..count {
        places.push(AttrNo(number))?;
    }
    Ok(places)
}

/// Where in a member's row the key of its owner stands, where so many values stand before those of the target.
fn owner_places(
    alloc: Global,
    mapping: &Mapping,
    relation: &Relation,
    width: u32,
) -> Result<ListOf<AttrNo>, AllocError>
    requires target { IsClass mapping.now relation.now.target }
    requires width { width ≡ member_rows.owner_width mapping.now relation.now }
    ensures { IfOk result
        (λ places. places ≡ spec.owner_places mapping.now relation.now) }
{
    match relation.far {
        Some(_far) => first_places(alloc, width),
        None => foreign_attrs(alloc, mapping, relation.target, relation),
    }
}

/// The object of a member's row goes behind those of the rows before, with the key of its owner.
fn take_member(
    alloc: Global,
    arena: &mut Arena,
    mapping: &Mapping,
    relation: &Relation,
    places: &[AttrNo],
    width: u32,
    row: &[Value],
    members: &mut ListOf<Member>,
    notes: &mut Notes,
) -> Result<(), Refusal>
    requires target { IsClass mapping.now relation.now.target }
    requires fit { IsFit mapping.now arena.old }
    requires row { member_rows.IsMemberRow mapping.now relation.now row.now }
    requires places { places.now ≡ spec.owner_places mapping.now relation.now }
    requires width { width ≡ member_rows.owner_width mapping.now relation.now }
    ensures step { Runs alone (λ _. members.new)
        (spec.take_member mapping.now relation.now row.now members.old)
        (loading arena.old notes.old) result (loading arena.new notes.new) }
    ensures of { All (λ object. is_of_root arena.old.roots
        (root_of mapping.now relation.now.target) object ≡ true) (spec.objects_in members.old)
        → OnOk result (All (λ object. is_of_root arena.new.roots
        (root_of mapping.now relation.now.target) object ≡ true) (spec.objects_in members.new)) }
    ensures grows { Grows arena.old arena.new }
    ensures fits { IsFit mapping.now arena.new }
    ensures refuses { IfErr result (CanRefuseRow mapping.now arena.new) }
{
    let owner = values_in(alloc, places, row)?;
    let values = rest_from(row, width as usize);
    let object = take_row(alloc, arena, mapping, relation.target, values, notes)?;
    Ok(members.push(Member { owner, object })?)
}

/// The objects of the rows of a relationship's members, in order and each filled by its row, with the keys of their owners.
///
/// # Errors
/// `InvalidRequestError(NoSuchIdentity)`, `LimitReached(Objects)`, `Memory`. The objects of the rows before stay.
#[tactic(auto, unfolding(crate::specs::Batches::take_members))]
pub(crate) fn take_members(
    alloc: Global,
    arena: &mut Arena,
    mapping: &Mapping,
    relation: &Relation,
    rows: &[RowValues],
    notes: &mut Notes,
) -> Result<ListOf<Member>, Refusal>
    requires target { IsClass mapping.now relation.now.target }
    requires fit { IsFit mapping.now arena.old }
    requires rows { AllByRecursion (member_rows.IsMemberRow mapping.now relation.now) rows.now }
    ensures step { Runs alone (λ members. members)
        (spec.take_members mapping.now relation.now rows.now)
        (loading arena.old notes.old) result (loading arena.new notes.new) }
    ensures of { IfOk result (λ members. All (λ object. is_of_root arena.new.roots
        (root_of mapping.now relation.now.target) object ≡ true) (spec.objects_in members)) }
    ensures grows { Grows arena.old arena.new }
    ensures fits { IsFit mapping.now arena.new }
    ensures refuses { IfErr result (CanRefuseRow mapping.now arena.new) }
{
    let width = owner_width(alloc, mapping, relation)?;
    let places = owner_places(alloc, mapping, relation, width)?;
    let mut members = ListOf::new(alloc);
    for row in rows {
        take_member(
            alloc,
            arena,
            mapping,
            relation,
            places.as_slice(),
            width,
            row.as_slice(),
            &mut members,
            notes,
        )?;
    }
    Ok(members)
}
