//! Objects are read anew.

ghost use Rattle.std.specs.Prelude.{◌≡◌, ◌<◌, None, false, length, IfErr};
ghost use Rattle.object_arena.specs.declared.object.State.TheVariants.{Persistent};
ghost use Rattle.object_arena.specs.Graph.{IsObject, object_at};
ghost use Rattle.session_scopes.specs.SessionState.{IsInStep};
ghost use Rattle.session_calls.specs.Calling.{IsSessionCall};
ghost use Rattle.session_calls.specs.Steps.{pending_fault};
ghost use Rattle.session_loads.specs.Asking as asking;
ghost use Rattle.session_loads.specs.Reads as steps;
ghost use Rattle.session_loads.specs.Refusals.{IsRefusedHere, IsRefusedLoading, IsRefusedWhole, IsRefusedWriting};

use crate::asking::persistence_fault;
use crate::expiring::expire_along;
use crate::loads::load;
use crate::rows::{FillRow, ReadRow};
use base_core::{ObjId, Refusal};
use keeper_core::Keeper;
use session_acts::flush;
use session_calls::enter;
use session_scopes::Session;

/// Reads a persistent object anew, once all is written: its row is read by one select, the object is expired, and along refresh-expire
/// those that hang on it, and then its cells hold what its row has.
///
/// # Errors
/// `PendingRollbackError` while a failed flush waits for its rollback; then, in the transaction, `InvalidRequestError(NotPersistent)`;
/// what a flush is refused for; `InvalidRequestError(NotPersistent)` where the object left the session by that; then what the keeper
/// refuses of the select, and `ObjectDeletedError` where it answered no row. These last leave the session as the flush left it.
pub fn refresh<K: Keeper>(
    session: &mut Session,
    keeper: &mut K,
    object: ObjId,
) -> Result<(), Refusal>
    requires in_step { IsInStep session.old (K.moment keeper.old) }
    requires object { IsObject session.old.graph object }
    ensures call { IsSessionCall K.moment (λ u. u) (steps.refresh object)
        (session.old, keeper.old) result (session.new, keeper.new) }
    ensures refused { IfErr result (λ e. IsRefusedLoading (pending_fault session.old)
        (asking.persistence_fault object session.old) (asking.persistence_fault object)
        (IsRefusedWhole object)
        session.old (K.moment keeper.old) e session.new (K.moment keeper.new)) }
{
    enter(session, keeper)?;
    refresh_inside(session, keeper, object)
}

/// What is done in the transaction.
fn refresh_inside<K: Keeper>(
    session: &mut Session,
    keeper: &mut K,
    object: ObjId,
) -> Result<(), Refusal>
    requires in_step { IsInStep session.old (K.moment keeper.old) }
    requires inside { 0 < length session.old.frames.scopes }
    requires well { session.old.failed ≡ false }
    requires object { IsObject session.old.graph object }
    ensures call { IsSessionCall K.moment (λ u. u) (steps.refresh_inside object)
        (session.old, keeper.old) result (session.new, keeper.new) }
    ensures refused { IfErr result (λ e. IsRefusedHere (asking.persistence_fault object session.old)
        (IsRefusedWriting (asking.persistence_fault object) (IsRefusedWhole object))
        session.old (K.moment keeper.old) e session.new (K.moment keeper.new)) }
{
    if let Some(fault) = persistence_fault(session, object) {
        return Err(fault);
    }
    flush(session, keeper)?;
    refresh_written(session, keeper, object)
}

/// What is done once all is written.
fn refresh_written<K: Keeper>(
    session: &mut Session,
    keeper: &mut K,
    object: ObjId,
) -> Result<(), Refusal>
    requires in_step { IsInStep session.old (K.moment keeper.old) }
    requires inside { 0 < length session.old.frames.scopes }
    requires object { IsObject session.old.graph object }
    ensures call { IsSessionCall K.moment (λ u. u) (steps.refresh_written object)
        (session.old, keeper.old) result (session.new, keeper.new) }
    ensures refused { IfErr result (λ e. IsRefusedHere (asking.persistence_fault object session.old)
        (IsRefusedWhole object)
        session.old (K.moment keeper.old) e session.new (K.moment keeper.new)) }
{
    match persistence_fault(session, object) {
        Some(fault) => Err(fault),
        None => read_anew(session, keeper, object),
    }
}

/// Reads the row of an object, and then expires it with those that hang on it, and fills it.
fn read_anew<K: Keeper>(session: &mut Session, keeper: &mut K, object: ObjId) -> Result<(), Refusal>
    requires in_step { IsInStep session.old (K.moment keeper.old) }
    requires inside { 0 < length session.old.frames.scopes }
    requires object { IsObject session.old.graph object }
    requires persistent { (object_at session.old.graph object).state ≡ Persistent }
    ensures call { IsSessionCall K.moment (λ u. u) (steps.read_anew object)
        (session.old, keeper.old) result (session.new, keeper.new) }
    ensures refused { IfErr result (λ e. IsRefusedHere None (IsRefusedWhole object)
        session.old (K.moment keeper.old) e session.new (K.moment keeper.new)) }
{
    let rows = load(session, keeper, ReadRow { object })?;
    expire_along(session, object)?;
    load(
        session,
        keeper,
        FillRow {
            object,
            rows: &rows,
        },
    )
}
