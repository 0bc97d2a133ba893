//! The objects of rows.

ghost use Rattle.std.specs.Prelude.{◌≡◌, true, IfErr, IfOk, OnOk};
ghost use Rattle.std.specs.List.{All, AllByRecursion};
ghost use Rattle.class_mapping.specs.Mapped.{IsClass, root_of};
ghost use Rattle.object_arena.specs.Fit.{IsFit, is_of_root};
ghost use Rattle.keeper_core.specs.Alone.{alone};
ghost use Rattle.keeper_core.specs.Moment.{Runs};
ghost use Rattle.load_filling.specs.Growing.{Grows};
ghost use Rattle.load_rows.specs.Loading.{loading};
ghost use Rattle.load_rows.specs.Reading.{IsRowOf};
ghost use Rattle.load_calls.specs.Collections as spec;
ghost use Rattle.load_calls.specs.Refusals.{CanRefuseRow};

use base_core::{ClassId, ListOf, ObjList, Refusal, RowValues, Value};
use class_mapping::Mapping;
use keeper_core::Notes;
use load_rows::take_row;
use object_arena::Arena;
use std::alloc::Global;

/// The object of a row goes behind those of the rows before.
fn take_next(
    alloc: Global,
    arena: &mut Arena,
    mapping: &Mapping,
    class: ClassId,
    values: &[Value],
    objects: &mut ObjList,
    notes: &mut Notes,
) -> Result<(), Refusal>
    requires class { IsClass mapping.now class }
    requires fit { IsFit mapping.now arena.old }
    requires row { IsRowOf mapping.now class values.now }
    ensures step { Runs alone (λ _. objects.new)
        (spec.take_next mapping.now class values.now objects.old)
        (loading arena.old notes.old) result (loading arena.new notes.new) }
    ensures of { All (λ object. is_of_root arena.old.roots (root_of mapping.now class) object
        ≡ true) objects.old → OnOk result (All
        (λ object. is_of_root arena.new.roots (root_of mapping.now class) object ≡ true)
        objects.new) }
    ensures grows { Grows arena.old arena.new }
    ensures fits { IsFit mapping.now arena.new }
    ensures refuses { IfErr result (CanRefuseRow mapping.now arena.new) }
{
    let object = take_row(alloc, arena, mapping, class, values, notes)?;
    Ok(objects.push(object)?)
}

/// The objects of rows, in order, each filled by its row.
///
/// # Errors
/// `InvalidRequestError(NoSuchIdentity)`, `LimitReached(Objects)`, `Memory`. The objects of the rows before stay.
#[tactic(auto, unfolding(crate::specs::Collections::take_rows))]
pub fn take_rows(
    alloc: Global,
    arena: &mut Arena,
    mapping: &Mapping,
    class: ClassId,
    rows: &[RowValues],
    notes: &mut Notes,
) -> Result<ObjList, Refusal>
    requires class { IsClass mapping.now class }
    requires fit { IsFit mapping.now arena.old }
    requires rows { AllByRecursion (IsRowOf mapping.now class) rows.now }
    ensures step { Runs alone (λ objects. objects) (spec.take_rows mapping.now class rows.now)
        (loading arena.old notes.old) result (loading arena.new notes.new) }
    ensures of { IfOk result (All
        (λ object. is_of_root arena.new.roots (root_of mapping.now class) object ≡ true)) }
    ensures grows { Grows arena.old arena.new }
    ensures fits { IsFit mapping.now arena.new }
    ensures refuses { IfErr result (CanRefuseRow mapping.now arena.new) }
{
    let mut objects = ListOf::new(alloc);
    for row in rows {
        take_next(
            alloc,
            arena,
            mapping,
            class,
            row.as_slice(),
            &mut objects,
            notes,
        )?;
    }
    Ok(objects)
}
