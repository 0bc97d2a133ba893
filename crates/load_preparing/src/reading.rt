//! The reading of all that is to be known of the objects that are to be deleted.

ghost use Rattle.std.specs.Prelude.{◌≡◌, ◌⊎◌, IfErr};
ghost use Rattle.base_core.specs.declared.refusal.Refusal.TheVariants.{Memory};
ghost use Rattle.object_arena.specs.declared.object.State.TheVariants as state;
ghost use Rattle.object_arena.specs.Fit.{IsFit};
ghost use Rattle.object_arena.specs.Graph.{IsObject, object_at};
ghost use Rattle.keeper_core.specs.Beside.{moment_beside};
ghost use Rattle.keeper_core.specs.Moment.{Runs};
ghost use Rattle.load_filling.specs.Growing.{Grows};
ghost use Rattle.load_rows.specs.Loading.{loading};
ghost use Rattle.load_calls.specs.Reading.{IsReady, StaysReady};
ghost use Rattle.load_calls.specs.Refusals.{CanRefuseLoad};
ghost use Rattle.load_preparing.specs.Refusals as refusals;
ghost use Rattle.load_preparing.specs.Preparing as spec;

use crate::cells::reread;
use crate::links::read_links;
use base_core::{ObjId, Refusal};
use class_mapping::Mapping;
use keeper_core::{Keeper, Notes};
use load_calls::refresh;
use object_arena::Arena;
use prepared_objects::next_unread;
use std::alloc::Global;

/// How many objects there are at most.
const OBJECT_LIMIT: u32 = 1_000_000;

/// What is not known of a persistent object is read: its cells by one select, and then its links.
#[tactic(auto, unfolding(crate::specs::Preparing::read_object))]
fn read_object<K: Keeper>(
    alloc: Global,
    arena: &mut Arena,
    mapping: &Mapping,
    keeper: &mut K,
    object: ObjId,
    notes: &mut Notes,
) -> Result<(), Refusal>
    requires fit { IsFit mapping.now arena.old }
    requires object { IsObject arena.old object }
    requires persistent { (object_at arena.old object).state ≡ state.Persistent }
    requires ready { IsReady (K.moment keeper.old) }
    ensures step { Runs (moment_beside K.moment) (λ u. u) (spec.read_object mapping.now object)
        (loading arena.old notes.old, keeper.old) result
        (loading arena.new notes.new, keeper.new) }
    ensures stays { StaysReady (K.moment keeper.old) result (K.moment keeper.new) }
    ensures grows { Grows arena.old arena.new }
    ensures fits { IsFit mapping.now arena.new }
    ensures refuses { IfErr result (CanRefuseLoad mapping.now arena.new object) }
    ensures shown { IfErr result (refusals.IsShownAfter mapping.now object
        (loading arena.old notes.old, K.moment keeper.old)
        (loading arena.new notes.new, K.moment keeper.new)) }
{
    reread(arena, object, notes)?;
    refresh(alloc, arena, mapping, keeper, object, notes)?;
    read_links(alloc, arena, mapping, keeper, object, notes)
}

/// Reads all that is to be known of the objects that are to be deleted, without a flush: again and again the object of least number that
/// is to be deleted and of which something is not known. What was put into cells whose rows' values are not known is lost.
///
/// # Errors
/// `ObjectDeletedError` of an object without a row, `OperationalError` where a table was not created, `KeeperFault`,
/// `InvalidRequestError(NoSuchIdentity)`, `LimitReached(Objects)`, `Memory`. What was read until then stays.
#[tactic(auto, unfolding(crate::specs::Preparing::read_going))]
pub fn read_going<K: Keeper>(
    alloc: Global,
    arena: &mut Arena,
    mapping: &Mapping,
    keeper: &mut K,
    notes: &mut Notes,
) -> Result<(), Refusal>
    requires fit { IsFit mapping.now arena.old }
    requires ready { IsReady (K.moment keeper.old) }
    ensures step { Runs (moment_beside K.moment) (λ u. u) (spec.read_going mapping.now)
        (loading arena.old notes.old, keeper.old) result
        (loading arena.new notes.new, keeper.new) }
    ensures stays { StaysReady (K.moment keeper.old) result (K.moment keeper.new) }
    ensures grows { Grows arena.old arena.new }
    ensures fits { IsFit mapping.now arena.new }
    ensures refuses { IfErr result
        (λ e. (e ≡ Memory) ⊎ refusals.CanRefuseReading mapping.now arena.new e) }
    ensures shown { IfErr result (λ e. (e ≡ Memory) ⊎ refusals.IsShownReading mapping.now
        (loading arena.old notes.old, K.moment keeper.old)
        (loading arena.new notes.new, K.moment keeper.new) e) }
{
    let mut turns = OBJECT_LIMIT;
    while turns > 0 {
        let next = next_unread(alloc, &*arena, mapping)?;
        match next {
            Some(object) => read_object(alloc, arena, mapping, keeper, object, notes)?,
            None => return Ok(()),
        }
        turns -= 1;
    }
    Ok(())
}
