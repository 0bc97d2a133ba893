//! One statement on rows, noted by the session.

ghost use Rattle.std.specs.Prelude.{◌≡◌, ◌<◌, length, IfErr, IfOk, OnErr, OnOk};
ghost use Rattle.base_core.specs.declared.refusal.Refusal.TheVariants.{Memory};
ghost use Rattle.schema_core.specs.WellFormed.{AreKeysFor, IsWellFormed};
ghost use Rattle.keeper_core.specs.declared.sent.Sent.TheVariants as sent;
ghost use Rattle.keeper_core.specs.Beside.{on_store};
ghost use Rattle.keeper_core.specs.Calls as call;
ghost use Rattle.session_scopes.specs.SessionState.{AreAlikeButNotes, IsInStep, with_note, with_notes};
ghost use Rattle.session_calls.specs.Calling.{IsSessionCall};
ghost use Rattle.session_statements.specs.Run.{WasStopped};

use base_core::{Copied, KeyList, Refusal};
use keeper_core::{Keeper, Sent, calls};
use schema_core::RowStmt;
use session_scopes::Session;
use std::alloc::AllocError;

/// Notes a statement on rows. Where memory runs out it changes nothing.
fn note_write(session: &mut Session, statement: &RowStmt) -> Result<(), AllocError>
    ensures ok { OnOk result (session.new ≡ with_note (sent.Write statement.now) session.old) }
    ensures err { OnErr result (session.new ≡ session.old) }
{
    let copy = statement.copied()?;
    session.note(Sent::Write(copy))
}

/// Sends a statement on rows to the store, and answers their keys; the session notes it.
///
/// # Errors
/// What the store refuses of the statement; `KeeperFault` and `Memory`.
pub(crate) fn write_noted<K: Keeper>(
    session: &mut Session,
    keeper: &mut K,
    statement: &RowStmt,
) -> Result<KeyList, Refusal>
    requires in_step { IsInStep session.old (K.moment keeper.old) }
    requires inside { 0 < length session.old.frames.scopes }
    requires fits { IsWellFormed session.old.mapping.schema statement.now }
    ensures call { IsSessionCall K.moment (λ keys. keys)
        (on_store with_notes (call.write session.old.mapping.schema statement.now))
        (session.old, keeper.old) result (session.new, keeper.new) }
    ensures alike { AreAlikeButNotes session.old session.new }
    ensures keys { IfOk result
        (λ keys. AreKeysFor session.old.mapping.schema statement.now keys) }
    ensures cause { IfErr result
        (λ e. WasStopped (K.moment keeper.old) e (K.moment keeper.new)) }
{
    match note_write(session, statement) {
        Ok(()) => calls::write(
            session.alloc(),
            keeper,
            session.mapping().schema(),
            statement,
        ),
        Err(_full) => Err(Refusal::Memory),
    }
}
