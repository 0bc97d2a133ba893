//! The calls on single objects.

ghost use Rattle.std.specs.Prelude.{◌≡◌, None, IfErr, IfSome};
ghost use Rattle.class_mapping.specs.Mapped.{IsAttribute};
ghost use Rattle.object_arena.specs.Graph.{IsObject, object_at, value_fault};
ghost use Rattle.keeper_core.specs.Alone.{IsOwn};
ghost use Rattle.session_scopes.specs.SessionState.{IsInStep};
ghost use Rattle.session_calls.specs.Calling.{IsSessionCall};
ghost use Rattle.session_calls.specs.Refusals.{IsRefused, kept_fault, mark_fault, set_fault};
ghost use Rattle.session_calls.specs.Steps as steps;

use crate::scopes::enter;
use base_core::{AttrNo, ObjId, Refusal, Value};
use keeper_core::Keeper;
use schema_core::{kind_of_value, same_kind};
use session_scopes::Session;

/// Gives a cell a value. The object is touched in the innermost scope where its record comes to differ.
///
/// # Errors
/// `TypeMismatch` where the value is not NULL and of another kind than the attribute; `PendingRollbackError` while a failed flush
/// waits for its rollback; then, in the transaction, `InvalidRequestError(KeyChange)` for a cell of the key of an object with an
/// identity.
pub fn set_cell<K: Keeper>(
    session: &mut Session,
    keeper: &mut K,
    object: ObjId,
    attr: AttrNo,
    value: Value,
) -> Result<(), Refusal>
    requires in_step { IsInStep session.old (K.moment keeper.old) }
    requires object { IsObject session.old.graph object }
    requires attr { IsAttribute session.old.mapping
        (object_at session.old.graph object).class attr }
    ensures call { IsSessionCall K.moment (λ u. u) (steps.set_cell object attr value)
        (session.old, keeper.old) result (session.new, keeper.new) }
    ensures refused { IfErr result (λ e. IsRefused
        (set_fault object attr value session.old)
        (kept_fault object attr session.old) session.old e session.new) }
{
    match value_fault(session, object, attr, &value) {
        Some(fault) => Err(fault),
        None => set_fitting(session, keeper, object, attr, value),
    }
}

/// Gives a cell a value of its attribute's kind, or NULL.
fn set_fitting<K: Keeper>(
    session: &mut Session,
    keeper: &mut K,
    object: ObjId,
    attr: AttrNo,
    value: Value,
) -> Result<(), Refusal>
    requires in_step { IsInStep session.old (K.moment keeper.old) }
    requires object { IsObject session.old.graph object }
    requires attr { IsAttribute session.old.mapping
        (object_at session.old.graph object).class attr }
    requires fits { value_fault session.old.mapping
        (object_at session.old.graph object) attr value ≡ None }
    ensures call { IsSessionCall K.moment (λ u. u)
        (steps.set_fitting object attr value)
        (session.old, keeper.old) result (session.new, keeper.new) }
    ensures refused { IfErr result (λ e. IsRefused (steps.pending_fault session.old)
        (kept_fault object attr session.old) session.old e session.new) }
{
    enter(session, keeper)?;
    session.put_value(object, attr, value)
}

/// Why a value is not taken for an attribute of an object: it is not NULL, and of another kind.
pub fn value_fault(session: &Session, object: ObjId, attr: AttrNo, value: &Value) -> Option<Refusal>
    requires object { IsObject session.now.graph object }
    requires attr { IsAttribute session.now.mapping
        (object_at session.now.graph object).class attr }
    ensures fault { result ≡ value_fault session.now.mapping
        (object_at session.now.graph object) attr value.now }
    ensures own { IfSome result IsOwn }
{
    let attributes = session.mapping().attributes(session.object(object).class);
    let wanted = attributes[attr.0 as usize].kind;
    let found = kind_of_value(value)?;
    if same_kind(wanted, found) {
        return None;
    }
    Some(Refusal::TypeMismatch(wanted, found))
}

/// The next flush deletes a persistent object, with the objects that deletes go on to from it then. It is touched in the innermost
/// scope where its record comes to differ.
///
/// # Errors
/// `PendingRollbackError` while a failed flush waits for its rollback; then, in the transaction, `InvalidRequestError(NotPersistent)`.
pub fn delete<K: Keeper>(
    session: &mut Session,
    keeper: &mut K,
    object: ObjId,
) -> Result<(), Refusal>
    requires in_step { IsInStep session.old (K.moment keeper.old) }
    requires object { IsObject session.old.graph object }
    ensures call { IsSessionCall K.moment (λ u. u) (steps.delete object)
        (session.old, keeper.old) result (session.new, keeper.new) }
    ensures refused { IfErr result (λ e. IsRefused (steps.pending_fault session.old)
        (mark_fault object session.old) session.old e session.new) }
{
    enter(session, keeper)?;
    session.mark_deletion(object)
}
