//! The objects of rows.

ghost use Rattle.std.specs.Prelude.{IfErr, IfOk, OnOk};
ghost use Rattle.std.specs.List.{All, AllByRecursion};
ghost use Rattle.class_mapping.specs.Mapped.{IsClass};
ghost use Rattle.object_arena.specs.Fit.{IsFit};
ghost use Rattle.keeper_core.specs.Alone.{alone};
ghost use Rattle.keeper_core.specs.Moment.{Runs};
ghost use Rattle.load_filling.specs.Growing.{Grows};
ghost use Rattle.load_rows.specs.Loading.{loading};
ghost use Rattle.load_calls.specs.Refusals.{CanRefuseRow};
ghost use Rattle.joined_rows.specs.Taking.{IsJoinedRow};
ghost use Rattle.joined_rows.specs.Taking as spec;

use crate::Part;
use crate::members::take_members;
use crate::parting::own_values;
use base_core::{ClassId, ListOf, ObjId, Refusal, RowValues, Value};
use class_mapping::Mapping;
use keeper_core::Notes;
use load_rows::take_row;
use object_arena::Arena;
use object_parts::Taken;
use std::alloc::Global;

/// The object of a row, with those of its parts.
fn take_owner(
    alloc: Global,
    arena: &mut Arena,
    mapping: &Mapping,
    class: ClassId,
    parts: &[Part],
    row: &[Value],
    notes: &mut Notes,
) -> Result<Taken, Refusal>
    requires class { IsClass mapping.now class }
    requires targets { All (λ part. IsClass mapping.now part.target) parts.now }
    requires fit { IsFit mapping.now arena.old }
    requires row { IsJoinedRow mapping.now class parts.now row.now }
    ensures step { Runs alone (λ taken. taken) (spec.take_owner mapping.now class parts.now row.now)
        (loading arena.old notes.old) result (loading arena.new notes.new) }
    ensures of { IfOk result (spec.IsTaken mapping.now arena.new.roots class parts.now) }
    ensures grows { Grows arena.old arena.new }
    ensures fits { IsFit mapping.now arena.new }
    ensures refuses { IfErr result (CanRefuseRow mapping.now arena.new) }
{
    let values = own_values(mapping, class, row);
    let owner = take_row(alloc, arena, mapping, class, values, notes)?;
    let members = take_members(alloc, arena, mapping, row, parts, notes)?;
    Ok(Taken { owner, members })
}

/// The objects of a row go behind those of the rows before.
fn take_one(
    alloc: Global,
    arena: &mut Arena,
    mapping: &Mapping,
    class: ClassId,
    parts: &[Part],
    row: &[Value],
    taken: &mut ListOf<Taken>,
    notes: &mut Notes,
) -> Result<(), Refusal>
    requires class { IsClass mapping.now class }
    requires targets { All (λ part. IsClass mapping.now part.target) parts.now }
    requires fit { IsFit mapping.now arena.old }
    requires row { IsJoinedRow mapping.now class parts.now row.now }
    ensures step { Runs alone (λ _. taken.new) (spec.take_one mapping.now class parts.now row.now taken.old)
        (loading arena.old notes.old) result (loading arena.new notes.new) }
    ensures of { All (spec.IsTaken mapping.now arena.old.roots class parts.now) taken.old
        → OnOk result (All (spec.IsTaken mapping.now arena.new.roots class parts.now) taken.new) }
    ensures grows { Grows arena.old arena.new }
    ensures fits { IsFit mapping.now arena.new }
    ensures refuses { IfErr result (CanRefuseRow mapping.now arena.new) }
{
    let one = take_owner(alloc, arena, mapping, class, parts, row, notes)?;
    Ok(taken.push(one)?)
}

/// The objects of the rows of a main select, in order, each with those of its parts; expired cells are filled by the rows, and each
/// object of which one was filled is noted.
///
/// # Errors
/// `InvalidRequestError(NoSuchIdentity)`, `LimitReached(Objects)`, `Memory`. The objects that were taken before stay.
#[tactic(auto, unfolding(crate::specs::Taking::take_joined))]
pub fn take_joined(
    alloc: Global,
    arena: &mut Arena,
    mapping: &Mapping,
    class: ClassId,
    parts: &[Part],
    rows: &[RowValues],
    notes: &mut Notes,
) -> Result<ListOf<Taken>, Refusal>
    requires class { IsClass mapping.now class }
    requires targets { All (λ part. IsClass mapping.now part.target) parts.now }
    requires fit { IsFit mapping.now arena.old }
    requires rows { AllByRecursion (IsJoinedRow mapping.now class parts.now) rows.now }
    ensures step { Runs alone (λ taken. taken) (spec.take_joined mapping.now class parts.now rows.now)
        (loading arena.old notes.old) result (loading arena.new notes.new) }
    ensures of { IfOk result (All (spec.IsTaken mapping.now arena.new.roots class parts.now)) }
    ensures grows { Grows arena.old arena.new }
    ensures fits { IsFit mapping.now arena.new }
    ensures refuses { IfErr result (CanRefuseRow mapping.now arena.new) }
{
    let mut taken = ListOf::new(alloc);
    for row in rows {
        take_one(
            alloc,
            arena,
            mapping,
            class,
            parts,
            row.as_slice(),
            &mut taken,
            notes,
        )?;
    }
    Ok(taken)
}
