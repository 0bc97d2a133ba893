//! Savepoints begin and end.

ghost use Rattle.std.specs.Prelude.{◌<◌, ◌≤◌, None, IfErr, IfOk};
ghost use Rattle.object_arena.specs.Graph.{either_fault};
ghost use Rattle.session_scopes.specs.SessionState.{IsInStep};
ghost use Rattle.session_calls.specs.Calling.{IsSessionCall};
ghost use Rattle.session_calls.specs.Refusals.{entered};
ghost use Rattle.session_calls.specs.Steps.{pending_fault};
ghost use Rattle.session_acts.specs.Savepoints.{handle_fault, limit_fault};
ghost use Rattle.session_acts.specs.Refusals.{IsRefusedFlushing};
ghost use Rattle.session_acts.specs.Steps as steps;

use crate::asking::release_fault;
use crate::{begin_savepoint, enter_nested, flush, release_handle};
use base_core::Refusal;
use keeper_core::Keeper;
use session_scopes::Session;

/// Writes what is to be written, and begins a savepoint, whose handle is answered.
///
/// # Errors
/// `PendingRollbackError` while a failed flush waits for its rollback; then, in the transaction, `LimitReached(Savepoints)` where
/// 64 savepoints are in progress; then what a flush is refused for.
pub fn begin_nested<K: Keeper>(session: &mut Session, keeper: &mut K) -> Result<u32, Refusal>
    requires in_step { IsInStep session.old (K.moment keeper.old) }
    ensures call { IsSessionCall K.moment (λ handle. handle) steps.begin_nested
        (session.old, keeper.old) result (session.new, keeper.new) }
    ensures drawn { IfOk result (λ handle. (0 < handle) × (handle ≤ session.new.drawn.drawn)) }
    ensures refused { IfErr result (λ e. IsRefusedFlushing
        (pending_fault session.old) (limit_fault (entered session.old))
        session.old (K.moment keeper.old) e session.new (K.moment keeper.new)) }
{
    enter_nested(session, keeper)?;
    flush(session, keeper)?;
    begin_savepoint(session, keeper)
}

/// Writes what is to be written, and ends the savepoint of a handle and those inside it, the innermost first.
///
/// # Errors
/// `PendingRollbackError` while a failed flush waits for its rollback; `ResourceClosedError` where the handle's savepoint has
/// ended, or none had it; then what a flush is refused for.
pub fn commit_handle<K: Keeper>(
    session: &mut Session,
    keeper: &mut K,
    handle: u32,
) -> Result<(), Refusal>
    requires in_step { IsInStep session.old (K.moment keeper.old) }
    ensures call { IsSessionCall K.moment (λ u. u) (steps.commit_handle handle)
        (session.old, keeper.old) result (session.new, keeper.new) }
    ensures refused { IfErr result (λ e. IsRefusedFlushing
        (either_fault (pending_fault session.old) (handle_fault handle session.old)) None
        session.old (K.moment keeper.old) e session.new (K.moment keeper.new)) }
{
    if let Some(fault) = release_fault(session, handle) {
        return Err(fault);
    }
    flush(session, keeper)?;
    release_handle(session, keeper, handle)
}
