//! The flush, and the end of the transaction.

ghost use Rattle.std.specs.Prelude.{◌≡◌, ◌<◌, [], None, false, length, IfErr, OnOk};
ghost use Rattle.session_scopes.specs.SessionState.{IsInStep};
ghost use Rattle.session_calls.specs.Calling.{IsSessionCall};
ghost use Rattle.session_calls.specs.Refusals.{entered};
ghost use Rattle.session_calls.specs.Steps.{pending_fault};
ghost use Rattle.session_acts.specs.Outcome.{IsFlushed};
ghost use Rattle.session_acts.specs.Refusals.{IsRefusedFlushing};
ghost use Rattle.session_acts.specs.Steps as steps;

use crate::{commit_whole, flush};
use base_core::Refusal;
use keeper_core::Keeper;
use session_calls::enter;
use session_scopes::Session;

/// Writes what is to be written.
///
/// # Errors
/// `PendingRollbackError` while a failed flush waits for its rollback; then, in the transaction, what a flush is refused for, and the
/// innermost scope is rolled back then.
pub fn flush_now<K: Keeper>(session: &mut Session, keeper: &mut K) -> Result<(), Refusal>
    requires in_step { IsInStep session.old (K.moment keeper.old) }
    ensures call { IsSessionCall K.moment (λ u. u) steps.flush_now
        (session.old, keeper.old) result (session.new, keeper.new) }
    ensures inside { OnOk result (0 < length session.new.frames.scopes) }
    ensures well { OnOk result (session.new.failed ≡ false) }
    ensures flushed { OnOk result (IsFlushed (entered session.old) session.new) }
    ensures refused { IfErr result (λ e. IsRefusedFlushing (pending_fault session.old) None
        session.old (K.moment keeper.old) e session.new (K.moment keeper.new)) }
{
    enter(session, keeper)?;
    flush(session, keeper)
}

/// Writes what is to be written, ends all savepoints and commits the transaction. Every persistent object is expired then.
///
/// # Errors
/// As `flush_now`.
pub fn commit<K: Keeper>(session: &mut Session, keeper: &mut K) -> Result<(), Refusal>
    requires in_step { IsInStep session.old (K.moment keeper.old) }
    ensures call { IsSessionCall K.moment (λ u. u) steps.commit
        (session.old, keeper.old) result (session.new, keeper.new) }
    ensures outside { OnOk result (session.new.frames.scopes ≡ []) }
    ensures refused { IfErr result (λ e. IsRefusedFlushing (pending_fault session.old) None
        session.old (K.moment keeper.old) e session.new (K.moment keeper.new)) }
{
    flush_now(session, keeper)?;
    commit_whole(session, keeper)
}
