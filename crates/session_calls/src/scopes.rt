//! The calls that begin the transaction, roll scopes back, and close the session.

ghost use Rattle.std.specs.Prelude.{◌≡◌, ◌<◌, ◌≤◌, ◌-◌, ◌==◌, ◌&&◌, [], None, Some, is_none, true, false, length, IfErr, OnOk};
ghost use Rattle.base_core.specs.declared.refusal.Refusal.TheVariants.{ResourceClosedError};
ghost use Rattle.keeper_core.specs.Programs.{ends_early};
ghost use Rattle.session_scopes.specs.Handles.{place_of_handle};
ghost use Rattle.session_scopes.specs.Scoping.{session_begun};
ghost use Rattle.session_scopes.specs.SessionState.{AreAlikeButNotes, IsInStep};
ghost use Rattle.session_calls.specs.Calling.{IsSessionCall};
ghost use Rattle.session_calls.specs.Parts.{fault_if};
ghost use Rattle.session_calls.specs.Refusals.{IsRefused, entered};
ghost use Rattle.session_calls.specs.Steps as steps;

use crate::store::{begin_store, roll_back, roll_back_transaction};
use base_core::Refusal;
use keeper_core::Keeper;
use savepoints::has_gone;
use session_scopes::Session;

/// A transaction begins where none is in progress.
///
/// # Errors
/// `PendingRollbackError` while a failed flush waits for its rollback: it leaves the session as it was.
pub fn enter<K: Keeper>(session: &mut Session, keeper: &mut K) -> Result<(), Refusal>
    requires in_step { IsInStep session.old (K.moment keeper.old) }
    ensures call { IsSessionCall K.moment (λ u. u) steps.enter
        (session.old, keeper.old) result (session.new, keeper.new) }
    ensures inside { OnOk result (0 < length session.new.frames.scopes) }
    ensures well { OnOk result (session.new.failed ≡ false) }
    ensures entered { OnOk result (AreAlikeButNotes (entered session.old) session.new) }
    ensures refused { IfErr result (λ e. IsRefused
        (steps.pending_fault session.old) None session.old e session.new) }
{
    if session.is_failed() {
        return Err(Refusal::PendingRollbackError);
    }
    if session.is_in_transaction() {
        return Ok(());
    }
    begin_transaction(session, keeper)
}

/// A transaction begins.
fn begin_transaction<K: Keeper>(session: &mut Session, keeper: &mut K) -> Result<(), Refusal>
    requires in_step { IsInStep session.old (K.moment keeper.old) }
    requires outside { session.old.frames.scopes ≡ [] }
    requires well { session.old.failed ≡ false }
    ensures call { IsSessionCall K.moment (λ u. u) (steps.begin_unless false)
        (session.old, keeper.old) result (session.new, keeper.new) }
    ensures inside { OnOk result (0 < length session.new.frames.scopes) }
    ensures well { OnOk result (session.new.failed ≡ false) }
    ensures begun { OnOk result (AreAlikeButNotes (session_begun session.old) session.new) }
    ensures stops { IfErr result (λ e. ends_early e ≡ true) }
{
    begin_store(session, keeper)?;
    Ok(session.begin()?)
}

/// Ends the transaction, and each object stands where it stood at its start. A rollback is awaited no more.
///
/// # Errors
/// `KeeperFault` and `Memory` alone.
pub fn rollback<K: Keeper>(session: &mut Session, keeper: &mut K) -> Result<(), Refusal>
    requires in_step { IsInStep session.old (K.moment keeper.old) }
    ensures call { IsSessionCall K.moment (λ u. u) steps.rollback
        (session.old, keeper.old) result (session.new, keeper.new) }
    ensures outside { OnOk result (session.new.frames.scopes ≡ []) }
    ensures stops { IfErr result (λ e. ends_early e ≡ true) }
{
    let count = session.savepoints();
    if session.is_in_transaction() {
        return go_back(session, keeper, 1, count);
    }
    session.recover(count);
    Ok(())
}

/// Rolls the scope at a depth back, in the store and in the session, and with it so many savepoints. A rollback is awaited no more.
fn go_back<K: Keeper>(
    session: &mut Session,
    keeper: &mut K,
    depth: u32,
    count: usize,
) -> Result<(), Refusal>
    requires in_step { IsInStep session.old (K.moment keeper.old) }
    requires depth { (1 ≤ depth) × (depth ≤ length session.old.frames.scopes) }
    requires count { count ≤ length session.old.drawn.handles }
    requires left { length session.old.drawn.handles - count ≡ depth - 2 }
    ensures call { IsSessionCall K.moment (λ u. u)
        (steps.go_back_by depth count)
        (session.old, keeper.old) result (session.new, keeper.new) }
    ensures scopes { OnOk result (length session.new.frames.scopes ≡ depth - 1) }
    ensures stops { IfErr result (λ e. ends_early e ≡ true) }
{
    roll_back(session, keeper, depth)?;
    session.go_back(depth, count);
    Ok(())
}

/// Ends the savepoint of a handle and those inside it, and each object stands where it stood at its start. A rollback is awaited
/// no more.
///
/// # Errors
/// `ResourceClosedError` where the handle's savepoint has ended, or none had it.
pub fn rollback_handle<K: Keeper>(
    session: &mut Session,
    keeper: &mut K,
    handle: u32,
) -> Result<(), Refusal>
    requires in_step { IsInStep session.old (K.moment keeper.old) }
    ensures call { IsSessionCall K.moment (λ u. u) (steps.rollback_handle handle)
        (session.old, keeper.old) result (session.new, keeper.new) }
    ensures refused { IfErr result (λ e. IsRefused
        (fault_if (is_none (place_of_handle session.old.drawn handle)) ResourceClosedError)
        None session.old e session.new) }
{
    match session.place_of_handle(handle) {
        None => Err(Refusal::ResourceClosedError),
        Some(place) => roll_back_place(session, keeper, place),
    }
}

/// Ends the savepoint at a place and those inside it; the innermost is at 0.
fn roll_back_place<K: Keeper>(
    session: &mut Session,
    keeper: &mut K,
    place: usize,
) -> Result<(), Refusal>
    requires in_step { IsInStep session.old (K.moment keeper.old) }
    requires place { place < length session.old.drawn.handles }
    ensures call { IsSessionCall K.moment (λ u. u)
        (steps.roll_back_place session.old.failed (length session.old.drawn.handles) (Some place))
        (session.old, keeper.old) result (session.new, keeper.new) }
    ensures stops { IfErr result (λ e. ends_early e ≡ true) }
{
    let count = session.savepoints();
    if is_gone(session, place) {
        session.recover(place + 1);
        return Ok(());
    }
    go_back(session, keeper, (count - place) as u32 + 1, place + 1)
}

/// Whether the savepoint at a place has gone already.
fn is_gone(session: &Session, place: usize) -> bool
    ensures { result ≡ (session.now.failed && (place == 0)) }
{
    has_gone(session.is_failed(), place)
}

/// Ends the transaction without its rows. Pending objects become transient, persistent and deleted ones detached, with their
/// cells as they are. A rollback is awaited no more.
///
/// # Errors
/// `KeeperFault` and `Memory` alone.
pub fn close<K: Keeper>(session: &mut Session, keeper: &mut K) -> Result<(), Refusal>
    requires in_step { IsInStep session.old (K.moment keeper.old) }
    ensures call { IsSessionCall K.moment (λ u. u) steps.close
        (session.old, keeper.old) result (session.new, keeper.new) }
    ensures outside { OnOk result (session.new.frames.scopes ≡ []) }
    ensures stops { IfErr result (λ e. ends_early e ≡ true) }
{
    if session.is_in_transaction() {
        return close_inside(session, keeper);
    }
    session.let_go();
    Ok(())
}

/// Ends the transaction without its rows, and all objects leave the session.
fn close_inside<K: Keeper>(session: &mut Session, keeper: &mut K) -> Result<(), Refusal>
    requires in_step { IsInStep session.old (K.moment keeper.old) }
    requires inside { 1 ≤ length session.old.frames.scopes }
    ensures call { IsSessionCall K.moment (λ u. u)
        steps.close_inside
        (session.old, keeper.old) result (session.new, keeper.new) }
    ensures outside { OnOk result (session.new.frames.scopes ≡ []) }
    ensures stops { IfErr result (λ e. ends_early e ≡ true) }
{
    roll_back_transaction(session, keeper)?;
    session.let_go();
    Ok(())
}
