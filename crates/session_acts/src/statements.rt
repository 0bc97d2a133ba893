//! Bulk statements are sent, and rows asked for.

ghost use Rattle.std.specs.Prelude.{None, IfErr, IfOk};
ghost use Rattle.keeper_core.specs.Keeping.{RefusesBulk, RefusesSelect};
ghost use Rattle.keeper_core.specs.declared.sent.Sent.TheVariants as sent;
ghost use Rattle.sql_semantics.specs.Plain.{IsPlainSelect};
ghost use Rattle.sql_semantics.specs.Shapes.{AreWide};
ghost use Rattle.session_scopes.specs.SessionState.{IsInStep};
ghost use Rattle.session_calls.specs.Calling.{IsSessionCall};
ghost use Rattle.session_calls.specs.Steps.{pending_fault};
ghost use Rattle.session_statements.specs.Steps.{update_fault};
ghost use Rattle.session_acts.specs.Refusals.{IsRefusedSending};
ghost use Rattle.session_acts.specs.Steps as steps;

use crate::{flush, flush_now};
use base_core::{Refusal, RowList};
use expr_types::{Bulk, Select};
use keeper_core::Keeper;
use session_scopes::Session;
use session_statements as statements;
use session_statements::enter_bulk;

/// Writes what is to be written, and answers the rows of a select. A refused select leaves the session as the flush left it.
///
/// # Errors
/// `PendingRollbackError` while a failed flush waits for its rollback; then, in the transaction, what a flush is refused for; then
/// what the keeper refuses of the select.
pub fn rows<K: Keeper>(
    session: &mut Session,
    keeper: &mut K,
    select: &Select,
) -> Result<RowList, Refusal>
    requires in_step { IsInStep session.old (K.moment keeper.old) }
    requires plain { IsPlainSelect session.old.mapping.schema select.now }
    ensures call { IsSessionCall K.moment (λ rows. rows) (steps.rows select.now)
        (session.old, keeper.old) result (session.new, keeper.new) }
    ensures wide { IfOk result (λ rows. AreWide select.now rows) }
    ensures refused { IfErr result (λ e. IsRefusedSending (pending_fault session.old) None
        (sent.Query select.now) (RefusesSelect session.old.mapping.schema select.now)
        session.old (K.moment keeper.old) e session.new (K.moment keeper.new)) }
{
    flush_now(session, keeper)?;
    statements::rows(session, keeper, select)
}

/// Writes what is to be written, sends a bulk statement, and answers the number of its rows. The persistent objects with rows in the
/// written table are expired then. A refused statement leaves the session as the flush left it.
///
/// # Errors
/// `PendingRollbackError` while a failed flush waits for its rollback; then, in the transaction, `InvalidRequestError(KeyChange)`
/// for an UPDATE that writes a column of its table's primary key, `InvalidRequestError(Discriminator)` for one that writes a column
/// by which a hierarchy tells its classes apart; then what a flush is refused for; then what the keeper refuses of
/// the statement.
pub fn bulk<K: Keeper>(
    session: &mut Session,
    keeper: &mut K,
    statement: &Bulk,
) -> Result<u64, Refusal>
    requires in_step { IsInStep session.old (K.moment keeper.old) }
    requires plain { steps.IsPlainButForKeys session.old.mapping.schema statement.now }
    ensures call { IsSessionCall K.moment (λ count. count) (steps.bulk statement.now)
        (session.old, keeper.old) result (session.new, keeper.new) }
    ensures refused { IfErr result (λ e. IsRefusedSending
        (pending_fault session.old) (update_fault statement.now session.old)
        (sent.Bulk statement.now) (RefusesBulk session.old.mapping.schema statement.now)
        session.old (K.moment keeper.old) e session.new (K.moment keeper.new)) }
{
    enter_bulk(session, keeper, statement)?;
    flush(session, keeper)?;
    statements::bulk(session, keeper, statement)
}
