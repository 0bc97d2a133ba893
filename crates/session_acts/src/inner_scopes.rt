//! Savepoints begin and end, and the transaction is committed.

ghost use Rattle.std.specs.Prelude.{◌≡◌, ◌<◌, ◌+◌, [], length, false, true, IfErr, IfOk, OnOk};
ghost use Rattle.keeper_core.specs.Programs.{ends_early};
ghost use Rattle.savepoints.specs.Scopes.{scope_limit};
ghost use Rattle.session_scopes.specs.SessionState.{IsInStep};
ghost use Rattle.session_calls.specs.Calling.{IsSessionCall};
ghost use Rattle.session_acts.specs.Savepoints as steps;

use crate::store::{send_commit, send_release, send_savepoint};
use base_core::Refusal;
use keeper_core::Keeper;
use session_scopes::Session;

/// Begins a savepoint, and answers its handle. Nothing is to be written, and there are fewer than 64 savepoints.
///
/// # Errors
/// `KeeperFault` and `Memory` alone.
pub fn begin_savepoint<K: Keeper>(session: &mut Session, keeper: &mut K) -> Result<u32, Refusal>
    requires in_step { IsInStep session.old (K.moment keeper.old) }
    requires inside { 0 < length session.old.frames.scopes }
    requires room { length session.old.frames.scopes < scope_limit }
    requires well { session.old.failed ≡ false }
    ensures call { IsSessionCall K.moment (λ handle. handle) steps.begin_savepoint
        (session.old, keeper.old) result (session.new, keeper.new) }
    ensures handle { IfOk result (λ handle. handle ≡ session.old.drawn.drawn + 1) }
    ensures drawn { IfOk result (λ handle. handle ≡ session.new.drawn.drawn) }
    ensures stops { IfErr result (λ e. ends_early e ≡ true) }
{
    send_savepoint(session, keeper)?;
    Ok(session.nest()?)
}

/// Ends the innermost savepoint, and what was done inside stays.
fn release_one<K: Keeper>(session: &mut Session, keeper: &mut K) -> Result<(), Refusal>
    requires in_step { IsInStep session.old (K.moment keeper.old) }
    requires inside { 1 < length session.old.frames.scopes }
    requires well { session.old.failed ≡ false }
    ensures call { IsSessionCall K.moment (λ u. u) steps.release_one
        (session.old, keeper.old) result (session.new, keeper.new) }
    ensures fewer { OnOk result
        (length session.new.frames.scopes + 1 ≡ length session.old.frames.scopes) }
    ensures well { OnOk result (session.new.failed ≡ false) }
    ensures stops { IfErr result (λ e. ends_early e ≡ true) }
{
    send_release(session, keeper)?;
    session.release();
    Ok(())
}

/// Ends so many of the innermost savepoints, one after another, and what was done inside stays.
///
/// # Errors
/// `KeeperFault` and `Memory` alone.
pub fn release_many<K: Keeper>(
    session: &mut Session,
    keeper: &mut K,
    count: usize,
) -> Result<(), Refusal>
    requires in_step { IsInStep session.old (K.moment keeper.old) }
    requires count { count < length session.old.frames.scopes }
    requires well { session.old.failed ≡ false }
    ensures call { IsSessionCall K.moment (λ u. u) (steps.release_many count)
        (session.old, keeper.old) result (session.new, keeper.new) }
    ensures fewer { OnOk result
        (length session.new.frames.scopes + count ≡ length session.old.frames.scopes) }
    ensures well { OnOk result (session.new.failed ≡ false) }
    ensures stops { IfErr result (λ e. ends_early e ≡ true) }
{
    for _ in 0..count {
        release_one(session, keeper)?;
    }
    Ok(())
}

/// Commits the transaction, in which no savepoint is in progress. Every persistent object is expired then.
///
/// # Errors
/// `KeeperFault` and `Memory` alone.
pub fn commit_transaction<K: Keeper>(session: &mut Session, keeper: &mut K) -> Result<(), Refusal>
    requires in_step { IsInStep session.old (K.moment keeper.old) }
    requires inside { length session.old.frames.scopes ≡ 1 }
    requires well { session.old.failed ≡ false }
    ensures call { IsSessionCall K.moment (λ u. u) steps.commit_transaction
        (session.old, keeper.old) result (session.new, keeper.new) }
    ensures outside { OnOk result (session.new.frames.scopes ≡ []) }
    ensures stops { IfErr result (λ e. ends_early e ≡ true) }
{
    send_commit(session, keeper)?;
    session.end_transaction();
    Ok(())
}
