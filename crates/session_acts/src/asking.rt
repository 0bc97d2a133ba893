//! What is asked of a session before a savepoint begins or ends.

ghost use Rattle.std.specs.Prelude.{◌≡◌, ◌<◌, None, IfErr, OnOk, false, length};
ghost use Rattle.object_arena.specs.Graph.{either_fault};
ghost use Rattle.savepoints.specs.Scopes.{scope_limit};
ghost use Rattle.session_scopes.specs.SessionState.{AreAlikeButNotes, IsInStep};
ghost use Rattle.session_calls.specs.Calling.{IsSessionCall};
ghost use Rattle.session_calls.specs.Refusals.{IsRefused, entered};
ghost use Rattle.session_calls.specs.Steps.{pending_fault};
ghost use Rattle.session_acts.specs.Savepoints as steps;

use base_core::{LimitKind, Refusal};
use keeper_core::Keeper;
use session_calls::enter;
use session_scopes::Session;

/// How many scopes there are at most: the transaction and 64 savepoints.
const SCOPE_LIMIT: u32 = 65;

/// A transaction begins where none is in progress, and there is room for one savepoint more.
///
/// # Errors
/// `PendingRollbackError` while a failed flush waits for its rollback; then, in the transaction, `LimitReached(Savepoints)` where
/// 64 savepoints are in progress. The first leaves the session as it was, the second in the transaction.
pub fn enter_nested<K: Keeper>(session: &mut Session, keeper: &mut K) -> Result<(), Refusal>
    requires in_step { IsInStep session.old (K.moment keeper.old) }
    ensures call { IsSessionCall K.moment (λ u. u) steps.enter_nested
        (session.old, keeper.old) result (session.new, keeper.new) }
    ensures inside { OnOk result (0 < length session.new.frames.scopes) }
    ensures room { OnOk result (length session.new.frames.scopes < scope_limit) }
    ensures well { OnOk result (session.new.failed ≡ false) }
    ensures entered { OnOk result (AreAlikeButNotes (entered session.old) session.new) }
    ensures refused { IfErr result (λ e. IsRefused (pending_fault session.old)
        (steps.limit_fault (entered session.old)) session.old e session.new) }
{
    enter(session, keeper)?;
    if session.open_scopes() >= SCOPE_LIMIT {
        return Err(Refusal::LimitReached(LimitKind::Savepoints));
    }
    Ok(())
}

/// Why the savepoint of a handle cannot end: `PendingRollbackError` while a failed flush waits for its rollback;
/// `ResourceClosedError` where the handle's savepoint has ended, or none had it. A session without a fault has more than the
/// transaction in progress.
pub(crate) fn release_fault(session: &Session, handle: u32) -> Option<Refusal>
    ensures fault { result ≡ either_fault
        (pending_fault session.now) (steps.handle_fault handle session.now) }
    ensures well { result ≡ None → session.now.failed ≡ false }
    ensures inside { result ≡ None → 1 < length session.now.frames.scopes }
{
    if session.is_failed() {
        return Some(Refusal::PendingRollbackError);
    }
    match session.place_of_handle(handle) {
        None => Some(Refusal::ResourceClosedError),
        Some(_place) => None,
    }
}
