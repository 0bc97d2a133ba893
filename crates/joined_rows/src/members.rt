//! The objects of the parts of a row.

ghost use Rattle.std.specs.Prelude.{◌++◌, ◌∷◌, [], length, IfErr, IfOk, OnOk};
ghost use Rattle.std.specs.List.{All, AllByRecursion};
ghost use Rattle.base_core.specs.declared.refusal.Refusal.TheVariants.{Memory};
ghost use Rattle.class_mapping.specs.Mapped.{IsClass};
ghost use Rattle.object_arena.specs.Fit.{IsFit};
ghost use Rattle.keeper_core.specs.Alone.{alone};
ghost use Rattle.keeper_core.specs.Moment.{Runs};
ghost use Rattle.load_filling.specs.Growing.{Grows};
ghost use Rattle.load_rows.specs.Loading.{loading};
ghost use Rattle.load_calls.specs.Refusals.{CanRefuseRow};
ghost use Rattle.joined_rows.specs.Taking as spec;

use crate::Part;
use crate::parting::{has_target, values_from};
use base_core::{ListOf, ObjId, Refusal, Value};
use class_mapping::Mapping;
use keeper_core::Notes;
use load_rows::take_row;
use object_arena::Arena;
use std::alloc::Global;

/// The object of an option's part of a row, if the row has one.
#[tactic(auto, unfolding(crate::specs::Taking::take_member))]
fn take_member(
    alloc: Global,
    arena: &mut Arena,
    mapping: &Mapping,
    row: &[Value],
    part: Part,
    notes: &mut Notes,
) -> Result<Option<ObjId>, Refusal>
    requires target { IsClass mapping.now part.target }
    requires fit { IsFit mapping.now arena.old }
    requires row { spec.IsRowAt mapping.now row.now part }
    ensures step { Runs alone (λ member. member) (spec.take_member mapping.now row.now part)
        (loading arena.old notes.old) result (loading arena.new notes.new) }
    ensures of { IfOk result (spec.IsMember mapping.now arena.new.roots part) }
    ensures grows { Grows arena.old arena.new }
    ensures fits { IsFit mapping.now arena.new }
    ensures refuses { IfErr result (CanRefuseRow mapping.now arena.new) }
{
    let is_there = has_target(alloc, mapping, part, row)?;
    if !is_there {
        return Ok(None);
    }
    let values = values_from(part, row);
    let object = take_row(alloc, arena, mapping, part.target, values, notes)?;
    Ok(Some(object))
}

/// The object of an option's part goes behind those of the options before.
fn take_next(
    alloc: Global,
    arena: &mut Arena,
    mapping: &Mapping,
    row: &[Value],
    part: Part,
    members: &mut ListOf<Option<ObjId>>,
    notes: &mut Notes,
) -> Result<(), Refusal>
    requires target { IsClass mapping.now part.target }
    requires fit { IsFit mapping.now arena.old }
    requires row { spec.IsRowAt mapping.now row.now part }
    ensures step { Runs alone (λ _. members.new) (spec.take_next mapping.now row.now part members.old)
        (loading arena.old notes.old) result (loading arena.new notes.new) }
    ensures of { OnOk result (spec.IsOneMore mapping.now arena.new.roots part members.old members.new) }
    ensures grows { Grows arena.old arena.new }
    ensures fits { IsFit mapping.now arena.new }
    ensures refuses { IfErr result (CanRefuseRow mapping.now arena.new) }
{
    let member = take_member(alloc, arena, mapping, row, part, notes)?;
    Ok(members.push(member)?)
}

/// The objects of the parts that a row has of joined options, one for each.
#[tactic(auto, unfolding(crate::specs::Taking::take_members))]
pub(crate) fn take_members(
    alloc: Global,
    arena: &mut Arena,
    mapping: &Mapping,
    row: &[Value],
    parts: &[Part],
    notes: &mut Notes,
) -> Result<ListOf<Option<ObjId>>, Refusal>
    requires targets { All (λ part. IsClass mapping.now part.target) parts.now }
    requires fit { IsFit mapping.now arena.old }
    requires rows { AllByRecursion (spec.IsRowAt mapping.now row.now) parts.now }
    ensures step { Runs alone (λ members. members) (spec.take_members mapping.now parts.now row.now)
        (loading arena.old notes.old) result (loading arena.new notes.new) }
    ensures of { IfOk result (spec.AreMembers mapping.now arena.new.roots parts.now) }
    ensures grows { Grows arena.old arena.new }
    ensures fits { IsFit mapping.now arena.new }
    ensures refuses { IfErr result (CanRefuseRow mapping.now arena.new) }
{
    let mut members = ListOf::new(alloc);
    for part in parts {
        take_next(alloc, arena, mapping, row, *part, &mut members, notes)?;
    }
    Ok(members)
}
