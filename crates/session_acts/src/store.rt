//! The calls of the store that begin and release savepoints and commit, noted by the session.

ghost use Rattle.std.specs.Prelude.{◌≡◌, ◌<◌, ◌≤◌, ◌+◌, ◌-◌, length, true};
ghost use Rattle.keeper_core.specs.Calls as call;
ghost use Rattle.keeper_core.specs.Keeping as keeping;
ghost use Rattle.session_scopes.specs.SessionState.{IsInStep};
ghost use Rattle.session_calls.specs.Calling.{IsNotedCall};

use base_core::Refusal;
use keeper_core::{Keeper, Sent, calls};
use session_scopes::Session;
use std::alloc::Global;

/// Begins a savepoint of the store; the transaction's first has the number 1.
pub(crate) fn send_savepoint<K: Keeper>(
    session: &mut Session,
    keeper: &mut K,
) -> Result<(), Refusal>
    requires in_step { IsInStep session.old (K.moment keeper.old) }
    requires inside { 1 ≤ length session.old.frames.scopes }
    ensures { IsNotedCall K.moment call.savepoint (length session.old.frames.scopes + 1)
        (session.old, keeper.old) result (session.new, keeper.new) }
{
    let number = session.open_scopes();
    match session.note(Sent::Savepoint(number)) {
        Ok(()) => savepoint(session.alloc(), keeper),
        Err(_full) => Err(Refusal::Memory),
    }
}

/// Ends the innermost savepoint of the store, and keeps its rows.
pub(crate) fn send_release<K: Keeper>(session: &mut Session, keeper: &mut K) -> Result<(), Refusal>
    requires in_step { IsInStep session.old (K.moment keeper.old) }
    requires inside { 2 ≤ length session.old.frames.scopes }
    ensures { IsNotedCall K.moment call.release (length session.old.frames.scopes - 1)
        (session.old, keeper.old) result (session.new, keeper.new) }
{
    let number = session.open_scopes() - 1;
    match session.note(Sent::Release(number)) {
        Ok(()) => release(keeper),
        Err(_full) => Err(Refusal::Memory),
    }
}

/// Commits the transaction of the store.
pub(crate) fn send_commit<K: Keeper>(session: &mut Session, keeper: &mut K) -> Result<(), Refusal>
    requires in_step { IsInStep session.old (K.moment keeper.old) }
    requires inside { 1 ≤ length session.old.frames.scopes }
    ensures { IsNotedCall K.moment call.commit 0
        (session.old, keeper.old) result (session.new, keeper.new) }
{
    match session.note(Sent::Commit) {
        Ok(()) => calls::commit(keeper),
        Err(_full) => Err(Refusal::Memory),
    }
}

/// Starts a savepoint.
fn savepoint<K: Keeper>(alloc: Global, keeper: &mut K) -> Result<(), Refusal>
    requires attached { (K.moment keeper.old).attached ≡ true }
    requires inside { 1 ≤ (K.moment keeper.old).depth }
    ensures { keeping.IsSavepoint K.moment keeper.old result keeper.new }
{
    Ok(keeper.savepoint(alloc)?)
}

/// Ends the innermost savepoint, and keeps its rows.
fn release<K: Keeper>(keeper: &mut K) -> Result<(), Refusal>
    requires attached { (K.moment keeper.old).attached ≡ true }
    requires inside { 2 ≤ (K.moment keeper.old).depth }
    ensures { keeping.IsRelease K.moment keeper.old result keeper.new }
{
    Ok(keeper.release()?)
}
