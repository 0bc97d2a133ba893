//! The values of cells.

ghost use Rattle.std.specs.Prelude.{◌≡◌, ◌<◌, true, length, IfErr, IfOk};
ghost use Rattle.class_mapping.specs.Mapped.{IsAttribute};
ghost use Rattle.object_arena.specs.declared.object.State.TheVariants.{Persistent};
ghost use Rattle.object_arena.specs.Graph.{IsObject, object_at};
ghost use Rattle.session_scopes.specs.SessionState.{IsInStep};
ghost use Rattle.session_calls.specs.Calling.{IsSessionCall};
ghost use Rattle.session_calls.specs.Steps.{pending_fault};
ghost use Rattle.session_loads.specs.Asking as asking;
ghost use Rattle.session_loads.specs.Reads as steps;
ghost use Rattle.session_loads.specs.Refusals.{IsRefusedCells, IsRefusedHere, IsRefusedReading};

use crate::asking::{cell_fault, is_expired};
use crate::loads::{RefreshCells, load};
use base_core::{AttrNo, Copied, ObjId, Refusal, Value};
use keeper_core::Keeper;
use session_calls::enter;
use session_scopes::Session;
use std::alloc::AllocError;

/// The value of a cell. Where it is expired, all expired cells of its object are read by one select, and nothing is written before
/// that.
///
/// # Errors
/// `PendingRollbackError` while a failed flush waits for its rollback; then, in the transaction, `DetachedInstanceError` for an expired
/// cell of an object that is not persistent; then what the keeper refuses of the select, and `ObjectDeletedError` where it answered
/// no row.
pub fn read_cell<K: Keeper>(
    session: &mut Session,
    keeper: &mut K,
    object: ObjId,
    attr: AttrNo,
) -> Result<Value, Refusal>
    requires in_step { IsInStep session.old (K.moment keeper.old) }
    requires object { IsObject session.old.graph object }
    requires attr { IsAttribute session.old.mapping
        (object_at session.old.graph object).class attr }
    ensures call { IsSessionCall K.moment (λ value. value) (steps.read_cell object attr)
        (session.old, keeper.old) result (session.new, keeper.new) }
    ensures refused { IfErr result (λ e. IsRefusedReading (pending_fault session.old)
        (asking.cell_fault object attr session.old) (IsRefusedCells object)
        session.old (K.moment keeper.old) e session.new (K.moment keeper.new)) }
{
    enter(session, keeper)?;
    tell_cell(session, keeper, object, attr)
}

/// The value of a cell, in the transaction.
fn tell_cell<K: Keeper>(
    session: &mut Session,
    keeper: &mut K,
    object: ObjId,
    attr: AttrNo,
) -> Result<Value, Refusal>
    requires in_step { IsInStep session.old (K.moment keeper.old) }
    requires inside { 0 < length session.old.frames.scopes }
    requires object { IsObject session.old.graph object }
    requires attr { IsAttribute session.old.mapping
        (object_at session.old.graph object).class attr }
    ensures call { IsSessionCall K.moment (λ value. value) (steps.tell_cell object attr)
        (session.old, keeper.old) result (session.new, keeper.new) }
    ensures refused { IfErr result (λ e. IsRefusedHere
        (asking.cell_fault object attr session.old) (IsRefusedCells object)
        session.old (K.moment keeper.old) e session.new (K.moment keeper.new)) }
{
    if let Some(fault) = cell_fault(session, object, attr) {
        return Err(fault);
    }
    fill_cell(session, keeper, object, attr)?;
    Ok(value_in(session, object, attr)?)
}

/// Reads the expired cells of an object where this cell is one of them.
#[tactic(auto, unfolding(crate::specs::Reads::fill_cell))]
fn fill_cell<K: Keeper>(
    session: &mut Session,
    keeper: &mut K,
    object: ObjId,
    attr: AttrNo,
) -> Result<(), Refusal>
    requires in_step { IsInStep session.old (K.moment keeper.old) }
    requires inside { 0 < length session.old.frames.scopes }
    requires object { IsObject session.old.graph object }
    requires attr { IsAttribute session.old.mapping
        (object_at session.old.graph object).class attr }
    requires held { asking.is_expired_in object attr session.old ≡ true
        → (object_at session.old.graph object).state ≡ Persistent }
    ensures call { IsSessionCall K.moment (λ u. u) (steps.fill_cell object attr)
        (session.old, keeper.old) result (session.new, keeper.new) }
    ensures refused { IfErr result (λ e. IsRefusedCells object
        session.old (K.moment keeper.old) e session.new (K.moment keeper.new)) }
{
    if !is_expired(session, object, attr) {
        return Ok(());
    }
    load(session, keeper, RefreshCells { object })
}

/// What a cell holds, NULL where it is expired.
fn value_in(session: &Session, object: ObjId, attr: AttrNo) -> Result<Value, AllocError>
    requires object { IsObject session.now.graph object }
    requires attr { IsAttribute session.now.mapping (object_at session.now.graph object).class attr }
    ensures { IfOk result (λ value. value ≡ steps.value_in object attr session.now) }
{
    let record = session.object(object);
    match &record.cells.at(attr.0 as usize).value {
        Some(value) => Ok(value.copied()?),
        None => Ok(Value::Null),
    }
}
