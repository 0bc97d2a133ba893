//! Statements that a session sends by themselves, noted.

ghost use Rattle.std.specs.Prelude.{◌≡◌, ◌<◌, IfErr, IfOk, OnErr, OnOk, length};
ghost use Rattle.base_core.specs.declared.refusal.Refusal.TheVariants.{Memory};
ghost use Rattle.keeper_core.specs.declared.sent.Sent.TheVariants as sent;
ghost use Rattle.sql_semantics.specs.Plain.{IsPlainBulk, IsPlainSelect};
ghost use Rattle.sql_semantics.specs.Shapes.{AreGiven, AreOfItems, AreWide};
ghost use Rattle.keeper_core.specs.Keeping.{HoldsLegalRows, HoldsRows, RefusesBulk, RefusesSelect};
ghost use Rattle.session_scopes.specs.SessionState.{AreAlikeButNotes, IsInStep, with_note};
ghost use Rattle.session_calls.specs.Calling.{IsSessionCall};
ghost use Rattle.session_statements.specs.Refusals.{IsRefusedByKeeper};
ghost use Rattle.session_statements.specs.Steps as steps;

use crate::rereading::Reread;
use base_core::{Refusal, RowList};
use expr_types::{Bulk, CopiedIn, Select};
use keeper_core::calls::table_of_bulk;
use keeper_core::{Keeper, Sent, calls};
use session_scopes::Session;
use std::alloc::AllocError;

/// The rows of a select over the tables now. A refusal leaves the session as it was, but for the statement noted.
///
/// # Errors
/// What the keeper refuses of a select.
pub fn rows<K: Keeper>(
    session: &mut Session,
    keeper: &mut K,
    select: &Select,
) -> Result<RowList, Refusal>
    requires in_step { IsInStep session.old (K.moment keeper.old) }
    requires inside { 0 < length session.old.frames.scopes }
    requires plain { IsPlainSelect session.old.mapping.schema select.now }
    ensures call { IsSessionCall K.moment (λ rows. rows) (steps.rows select.now)
        (session.old, keeper.old) result (session.new, keeper.new) }
    ensures alike { AreAlikeButNotes session.old session.new }
    ensures refused { IfErr result (λ e. IsRefusedByKeeper
        (sent.Query select.now) (RefusesSelect session.old.mapping.schema select.now)
        session.old (K.moment keeper.old) e session.new (K.moment keeper.new)) }
    ensures wide { IfOk result (λ rows. AreWide select.now rows) }
    ensures kinds { HoldsRows session.old.mapping.schema (K.moment keeper.old).told
        → IfOk result (λ rows. AreOfItems session.old.mapping.schema select.now rows) }
    ensures given { HoldsLegalRows session.old.mapping.schema (K.moment keeper.old).told
        → IfOk result (λ rows. AreGiven session.old.mapping.schema select.now rows) }
{
    match note_query(session, select) {
        Ok(()) => calls::query(session.alloc(), keeper, session.mapping().schema(), select),
        Err(_full) => Err(Refusal::Memory),
    }
}

/// Sends a bulk statement, and answers the number of its rows. The persistent objects with rows in the written table are expired
/// then, and touched where their records come to differ. A refusal of the keeper leaves the session as it was, but for the
/// statement noted.
///
/// # Errors
/// What the keeper refuses of a bulk statement.
pub fn bulk<K: Keeper>(
    session: &mut Session,
    keeper: &mut K,
    statement: &Bulk,
) -> Result<u64, Refusal>
    requires in_step { IsInStep session.old (K.moment keeper.old) }
    requires inside { 0 < length session.old.frames.scopes }
    requires plain { IsPlainBulk session.old.mapping.schema statement.now }
    ensures call { IsSessionCall K.moment (λ count. count) (steps.bulk statement.now)
        (session.old, keeper.old) result (session.new, keeper.new) }
    ensures scopes { length session.new.frames.scopes ≡ length session.old.frames.scopes }
    ensures refused { IfErr result (λ e. IsRefusedByKeeper
        (sent.Bulk statement.now) (RefusesBulk session.old.mapping.schema statement.now)
        session.old (K.moment keeper.old) e session.new (K.moment keeper.new)) }
{
    let count = send_bulk(session, keeper, statement)?;
    session.step(Reread {
        table: table_of_bulk(statement),
    })?;
    Ok(count)
}

/// Sends a bulk statement, and answers the number of its rows.
fn send_bulk<K: Keeper>(
    session: &mut Session,
    keeper: &mut K,
    statement: &Bulk,
) -> Result<u64, Refusal>
    requires in_step { IsInStep session.old (K.moment keeper.old) }
    requires inside { 0 < length session.old.frames.scopes }
    requires plain { IsPlainBulk session.old.mapping.schema statement.now }
    ensures call { IsSessionCall K.moment (λ count. count) (steps.send_bulk statement.now)
        (session.old, keeper.old) result (session.new, keeper.new) }
    ensures alike { AreAlikeButNotes session.old session.new }
    ensures refused { IfErr result (λ e. IsRefusedByKeeper
        (sent.Bulk statement.now) (RefusesBulk session.old.mapping.schema statement.now)
        session.old (K.moment keeper.old) e session.new (K.moment keeper.new)) }
{
    match note_bulk(session, statement) {
        Ok(()) => calls::bulk(
            session.alloc(),
            keeper,
            session.mapping().schema(),
            statement,
        ),
        Err(_full) => Err(Refusal::Memory),
    }
}

/// Notes a select.
fn note_query(session: &mut Session, select: &Select) -> Result<(), AllocError>
    ensures ok { OnOk result (session.new ≡ with_note (sent.Query select.now) session.old) }
    ensures err { OnErr result (session.new ≡ session.old) }
{
    let copy = select.copied_in(session.alloc())?;
    session.note(Sent::Query(copy))
}

/// Notes a bulk statement.
fn note_bulk(session: &mut Session, statement: &Bulk) -> Result<(), AllocError>
    ensures ok { OnOk result (session.new ≡ with_note (sent.Bulk statement.now) session.old) }
    ensures err { OnErr result (session.new ≡ session.old) }
{
    let copy = statement.copied_in(session.alloc())?;
    session.note(Sent::Bulk(copy))
}
