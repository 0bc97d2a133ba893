//! The flush.

ghost use Rattle.std.specs.Prelude.{◌≡◌, ◌<◌, false, true, is_some, length, None, IfErr, OnOk};
ghost use Rattle.keeper_core.specs.Programs.{ends_early};
ghost use Rattle.session_scopes.specs.Scoping.{session_failed};
ghost use Rattle.session_scopes.specs.SessionState.{AreAlikeButNotes, IsInStep};
ghost use Rattle.session_calls.specs.Calling.{IsSessionCall};
ghost use Rattle.prepared_objects.specs.Known.{next_unread};
ghost use Rattle.session_acts.specs.Flush as spec;
ghost use Rattle.session_acts.specs.Outcome.{IsFlushCause, IsFlushed, IsGivenUp};
ghost use Rattle.session_acts.specs.Refusals.{IsUnwritten};

use crate::reading::is_unread;
use crate::writing::{write_loaded, write_objects};
use base_core::Refusal;
use keeper_core::{Keeper, calls};
use session_calls::roll_back;
use session_scopes::Session;

/// Rolls the innermost scope back; each object stands where it stood at the scope's start, and a rollback is awaited.
fn give_up<K: Keeper>(session: &mut Session, keeper: &mut K) -> Result<(), Refusal>
    requires in_step { IsInStep session.old (K.moment keeper.old) }
    requires inside { 0 < length session.old.frames.scopes }
    requires well { session.old.failed ≡ false }
    ensures call { IsSessionCall K.moment (λ u. u) spec.give_up
        (session.old, keeper.old) result (session.new, keeper.new) }
    ensures left { OnOk result (AreAlikeButNotes (session_failed session.old) session.new) }
    ensures stops { IfErr result (λ e. ends_early e ≡ true) }
{
    let depth = session.open_scopes();
    roll_back(session, keeper, depth)?;
    session.fail_flush();
    Ok(())
}

/// Writes what is to be written, in the transaction. What is to be known of the objects that are to be deleted is read first: marked
/// objects, persistent ones that their parent left, and the persistent objects that deletes go on to from them. Statements and the
/// warnings of links are noted. On success each object stands as it was written: new ones are persistent under the keys of their
/// rows, deleted ones are deleted, those that are new no more are transient.
///
/// # Errors
/// `ObjectDeletedError` where the row of an object that is to be deleted is not there, and what else the reads are refused for;
/// `CircularDependencyError` where rows refer to one another so that no order is left, before anything is written; what the store
/// refuses of a statement; `StaleDataError` where an INSERT was given the key of a row that is changed or deleted; `NotBuilt` where a
/// statement does not fit its table. Then the objects that there were have the cells and links that they had, the innermost scope is
/// rolled back, each object stands where it stood at the scope's start, objects that were loaded stay, persistent and to be read
/// again, and a rollback is awaited. `KeeperFault` and `Memory`.
pub fn flush<K: Keeper>(session: &mut Session, keeper: &mut K) -> Result<(), Refusal>
    requires in_step { IsInStep session.old (K.moment keeper.old) }
    requires inside { 0 < length session.old.frames.scopes }
    requires well { session.old.failed ≡ false }
    ensures call { IsSessionCall K.moment (λ u. u) spec.flush
        (session.old, keeper.old) result (session.new, keeper.new) }
    ensures scopes { OnOk result (session.new.frames.scopes ≡ session.old.frames.scopes) }
    ensures well { OnOk result (session.new.failed ≡ false) }
    ensures flushed { OnOk result (IsFlushed session.old session.new) }
    ensures refused { IfErr result (λ e. IsUnwritten
        session.old (K.moment keeper.old) e session.new (K.moment keeper.new)) }
{
    let unread = is_unread(session)?;
    if unread {
        return flush_read(session, keeper);
    }
    flush_known(session, keeper)
}

/// The same where nothing is to be read first, so that there is nothing to be given back.
fn flush_known<K: Keeper>(session: &mut Session, keeper: &mut K) -> Result<(), Refusal>
    requires in_step { IsInStep session.old (K.moment keeper.old) }
    requires inside { 0 < length session.old.frames.scopes }
    requires well { session.old.failed ≡ false }
    requires known { next_unread session.old.mapping session.old.graph ≡ None }
    ensures call { IsSessionCall K.moment (λ u. u) spec.flush
        (session.old, keeper.old) result (session.new, keeper.new) }
    ensures scopes { OnOk result (session.new.frames.scopes ≡ session.old.frames.scopes) }
    ensures well { OnOk result (session.new.failed ≡ false) }
    ensures flushed { OnOk result (IsFlushed session.old session.new) }
    ensures left { IfErr result (λ e. IsGivenUp e session.old session.new) }
    ensures cause { IfErr result
        (λ e. IsFlushCause session.old (K.moment keeper.old) e (K.moment keeper.new)) }
{
    match write_loaded(session, keeper) {
        Ok(()) => Ok(()),
        Err(refusal) => {
            if calls::ends_early(&refusal) {
                return Err(refusal);
            }
            give_up(session, keeper)?;
            Err(refusal)
        }
    }
}

/// The same where something is to be read first: where it is refused what was read of the objects that there were is given back.
fn flush_read<K: Keeper>(session: &mut Session, keeper: &mut K) -> Result<(), Refusal>
    requires in_step { IsInStep session.old (K.moment keeper.old) }
    requires inside { 0 < length session.old.frames.scopes }
    requires well { session.old.failed ≡ false }
    requires unread { is_some (next_unread session.old.mapping session.old.graph) ≡ true }
    ensures call { IsSessionCall K.moment (λ u. u) spec.flush
        (session.old, keeper.old) result (session.new, keeper.new) }
    ensures scopes { OnOk result (session.new.frames.scopes ≡ session.old.frames.scopes) }
    ensures well { OnOk result (session.new.failed ≡ false) }
    ensures flushed { OnOk result (IsFlushed session.old session.new) }
    ensures left { IfErr result (λ e. IsGivenUp e session.old session.new) }
    ensures cause { IfErr result
        (λ e. IsFlushCause session.old (K.moment keeper.old) e (K.moment keeper.new)) }
{
    let kept = session.keep()?;
    match write_objects(session, keeper) {
        Ok(()) => Ok(()),
        Err(refusal) => {
            if calls::ends_early(&refusal) {
                return Err(refusal);
            }
            session.give_back(kept);
            give_up(session, keeper)?;
            Err(refusal)
        }
    }
}
