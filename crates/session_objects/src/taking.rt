//! What becomes of an object that comes in.

ghost use Rattle.std.specs.Prelude.{◌≡◌, ◌++◌, ℕ, [], IfOk, OnOk, not, true};
ghost use Rattle.object_arena.specs.declared.object.State.TheVariants.{Detached, Transient};
ghost use Rattle.class_mapping.specs.Mapped.{Mapped};
ghost use Rattle.object_arena.specs.Every.{classes_of};
ghost use Rattle.object_arena.specs.Fit.{IsFit, Keeps};
ghost use Rattle.object_arena.specs.Graph.{IsObject, object_at, with_object};
ghost use Rattle.object_arena.specs.Identity.{IsFree};
ghost use Rattle.session_parts.specs.Ends.{object_unmarked};
ghost use Rattle.object_records.specs.Same.{same_object};
ghost use Rattle.object_records.specs.Touched.{frames_touched_between};
ghost use Rattle.session_objects.specs.Taking as spec;

use base_core::{AttrNo, Copied, ObjId, Value, compare};
use class_mapping::Mapping;
use object_arena::{Arena, Cell, Object, State};
use object_records::touch_if;
use savepoints::Frames;
use session_parts::unmark;
use session_scopes::{Given, ObjectStep, put_given};
use std::alloc::{AllocError, Global};

/// An object comes in, under an add number where it is transient.
#[derive(Drop)]
pub(crate) struct TakeIn {
    pub(crate) alloc: Global,
    pub(crate) object: ObjId,
    pub(crate) number: u64,
}

impl ObjectStep for TakeIn {
    ghost use Rattle.object_arena.specs.Graph.{IsObject, object_at, with_object};
    ghost use Rattle.session_objects.specs.Taking.{MayReturn, taken_under};

    ghost is_ready = { λ step mapped graph. IsObject graph step.object × MayReturn graph step.object };

    ghost after = { λ step mapped graph. with_object graph step.object (taken_under step.number (object_at graph step.object)) };

    fn take(
        self,
        mapping: &Mapping,
        arena: &mut Arena,
        frames: &mut Frames,
    ) -> Result<(), AllocError> {
        let TakeIn {
            alloc,
            object,
            number,
        } = self;
        Ok(take_in(alloc, mapping, arena, frames, object, number)?)
    }
}

/// An object's delete mark is taken away.
#[derive(Drop)]
pub(crate) struct Unmark {
    pub(crate) object: ObjId,
}

impl ObjectStep for Unmark {
    ghost use Rattle.object_arena.specs.Graph.{IsObject};
    ghost use Rattle.session_objects.specs.Taking.{unmarked};

    ghost is_ready = { λ step mapped graph. IsObject graph step.object };

    ghost after = { λ step mapped graph. unmarked graph step.object };

    fn take(
        self,
        mapping: &Mapping,
        arena: &mut Arena,
        frames: &mut Frames,
    ) -> Result<(), AllocError> {
        take_mark(arena, frames, self.object)
    }
}

/// A delete mark is taken away; the object is touched in the innermost scope where it had one.
fn take_mark(arena: &mut Arena, frames: &mut Frames, object: ObjId) -> Result<(), AllocError>
    requires { IsObject arena.old object }
    ensures ok { OnOk result (arena.new ≡ spec.unmarked arena.old object) }
    ensures touched { OnOk result (frames.new
        ≡ frames_touched_between arena.old arena.new frames.old) }
    ensures keeps { (mapped : Mapped) → IsFit mapped arena.old → IsFit mapped arena.new }
    ensures classes { classes_of arena.new ≡ classes_of arena.old }
    ensures scopes { frames.new.scopes ≡ frames.old.scopes }
{
    let is_marked = is_marked(arena.object(object));
    touch_if(frames, arena, object, is_marked)?;
    unmark(arena, object);
    Ok(())
}

/// Whether an object has a delete mark, without which it would differ.
fn is_marked(object: &Object) -> bool
    ensures { result ≡ not (same_object object.now (object_unmarked object.now)) }
{
    object.marked
}

/// An object comes in; it is touched in the innermost scope where its record comes to differ.
fn take_in(
    alloc: Global,
    mapping: &Mapping,
    arena: &mut Arena,
    frames: &mut Frames,
    object: ObjId,
    number: u64,
) -> Result<(), AllocError>
    requires fit { IsFit mapping.now arena.old }
    requires object { IsObject arena.old object }
    requires free { spec.MayReturn arena.old object }
    ensures ok { OnOk result (arena.new ≡ with_object arena.old object
        (spec.taken_under number (object_at arena.old object))) }
    ensures touched { OnOk result (frames.new
        ≡ frames_touched_between arena.old arena.new frames.old) }
    ensures fits { IsFit mapping.now arena.new }
    ensures classes { classes_of arena.new ≡ classes_of arena.old }
    ensures scopes { frames.new.scopes ≡ frames.old.scopes }
{
    let differs = comes_to_differ(arena.object(object));
    touch_if(frames, arena, object, differs)?;
    put_in(alloc, mapping, arena, object, number)
}

/// Whether an object that comes in comes to differ.
fn comes_to_differ(object: &Object) -> bool
    ensures { (number : ℕ) → result ≡ not (same_object object.now (spec.taken_under number object.now)) }
{
    match object.state {
        State::Transient => true,
        State::Detached => true,
        State::Pending => false,
        State::Persistent => false,
        State::Deleted => false,
    }
}

/// An object comes in.
fn put_in(
    alloc: Global,
    mapping: &Mapping,
    arena: &mut Arena,
    object: ObjId,
    number: u64,
) -> Result<(), AllocError>
    requires fit { IsFit mapping.now arena.old }
    requires object { IsObject arena.old object }
    requires free { spec.MayReturn arena.old object }
    ensures ok { OnOk result (arena.new ≡ with_object arena.old object
        (spec.taken_under number (object_at arena.old object))) }
    ensures fits { IsFit mapping.now arena.new }
    ensures classes { classes_of arena.new ≡ classes_of arena.old }
{
    match arena.object(object).state {
        State::Transient => {
            put_pending(arena, object, number);
            Ok(())
        }
        State::Detached => put_returned(alloc, mapping, arena, object),
        State::Pending => Ok(()),
        State::Persistent => Ok(()),
        State::Deleted => Ok(()),
    }
}

/// A transient object becomes pending under an add number.
fn put_pending(arena: &mut Arena, object: ObjId, number: u64)
    requires object { IsObject arena.old object }
    requires transient { (object_at arena.old object).state ≡ Transient }
    ensures taken { arena.new ≡ with_object arena.old object
        (spec.taken_under number (object_at arena.old object)) }
    ensures keeps { Keeps arena.old arena.new }
{
    let (is_marked, is_orphan) = {
        let record = arena.object(object);
        (record.marked, record.orphan)
    };
    arena.put_marks(object, number, is_marked, is_orphan);
    arena.put_state(object, State::Pending);
}

/// A detached object becomes persistent again, without a delete mark: what was changed in it stays, and the rest is expired.
fn put_returned(
    alloc: Global,
    mapping: &Mapping,
    arena: &mut Arena,
    object: ObjId,
) -> Result<(), AllocError>
    requires fit { IsFit mapping.now arena.old }
    requires object { IsObject arena.old object }
    requires detached { (object_at arena.old object).state ≡ Detached }
    requires free { IsFree arena.old object (object_at arena.old object).identity }
    ensures ok { OnOk result (arena.new ≡ with_object arena.old object
        (spec.returned_object (object_at arena.old object))) }
    ensures fits { IsFit mapping.now arena.new }
    ensures classes { classes_of arena.new ≡ classes_of arena.old }
{
    let values = changed_values(alloc, arena.object(object).cells.as_slice())?;
    arena.stand(object, State::Persistent);
    arena.expire(object);
    put_given(arena, mapping, object, values);
    Ok(())
}

/// The values of cells that were changed since they were read or written, by their places. A place past 32 bits is refused as
/// for want of memory.
#[tactic(auto, using(crate::proofs::TakingLemmas::changes))]
fn changed_values(alloc: Global, cells: &[Cell]) -> Result<Given, AllocError>
    ensures { IfOk result (λ values. values.items ≡ spec.changed_values 0 cells.now) }
{
    let mut values = Vec::new(alloc);
    for (place, cell) in cells.iter().enumerate() {
        push_changed(&mut values, place, cell)?;
    }
    Ok(values)
}

/// The value of a cell at a place goes behind others, if it was changed.
fn push_changed(values: &mut Given, place: usize, cell: &Cell) -> Result<(), AllocError>
    ensures { OnOk result (values.new.items
        ≡ values.old.items ++ spec.with_changed place cell.now.value cell.now.base []) }
{
    let Some(value) = &cell.value else {
        return Ok(());
    };
    if !is_changed(value, &cell.base) {
        return Ok(());
    }
    let Ok(attr) = u32::try_from(place) else {
        return Err(AllocError);
    };
    let copy = value.copied()?;
    values.push((AttrNo(attr), copy))?;
    Ok(())
}

/// Whether a value is another than that of its row, or its row's is not known.
fn is_changed(value: &Value, base: &Option<Value>) -> bool
    ensures { result ≡ spec.is_value_changed value.now base.now }
{
    match base {
        Some(base) => !compare(value, base).is_eq(),
        None => true,
    }
}
