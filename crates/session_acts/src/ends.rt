//! The ends of the savepoint of a handle and of the whole transaction.

ghost use Rattle.std.specs.Prelude.{◌≡◌, ◌<◌, [], length, false, IfErr, OnOk, true};
ghost use Rattle.keeper_core.specs.Programs.{ends_early};
ghost use Rattle.session_scopes.specs.SessionState.{IsInStep};
ghost use Rattle.session_calls.specs.Calling.{IsSessionCall};
ghost use Rattle.session_acts.specs.Savepoints as steps;

use crate::inner_scopes::{commit_transaction, release_many};
use base_core::Refusal;
use keeper_core::Keeper;
use session_scopes::Session;

/// Ends the savepoint of a handle and those inside it, the innermost first, and what was done inside stays. Where no savepoint in
/// progress has the handle, nothing happens.
///
/// # Errors
/// `KeeperFault` and `Memory` alone.
pub fn release_handle<K: Keeper>(
    session: &mut Session,
    keeper: &mut K,
    handle: u32,
) -> Result<(), Refusal>
    requires in_step { IsInStep session.old (K.moment keeper.old) }
    requires well { session.old.failed ≡ false }
    ensures call { IsSessionCall K.moment (λ u. u) (steps.release_handle handle)
        (session.old, keeper.old) result (session.new, keeper.new) }
    ensures stops { IfErr result (λ e. ends_early e ≡ true) }
{
    match session.place_of_handle(handle) {
        None => Ok(()),
        Some(place) => {
            let _count = session.savepoints();
            release_many(session, keeper, place + 1)
        }
    }
}

/// Ends all savepoints, the innermost first, and commits the transaction. Every persistent object is expired then.
///
/// # Errors
/// `KeeperFault` and `Memory` alone.
pub fn commit_whole<K: Keeper>(session: &mut Session, keeper: &mut K) -> Result<(), Refusal>
    requires in_step { IsInStep session.old (K.moment keeper.old) }
    requires inside { 0 < length session.old.frames.scopes }
    requires well { session.old.failed ≡ false }
    ensures call { IsSessionCall K.moment (λ u. u) steps.commit_whole
        (session.old, keeper.old) result (session.new, keeper.new) }
    ensures outside { OnOk result (session.new.frames.scopes ≡ []) }
    ensures stops { IfErr result (λ e. ends_early e ≡ true) }
{
    let count = session.savepoints();
    release_many(session, keeper, count)?;
    commit_transaction(session, keeper)
}
