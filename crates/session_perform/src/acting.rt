//! The cases that begin and end scopes, and those that send statements.

ghost use Rattle.std.specs.Prelude.{◌≡◌, IfErr};
ghost use Rattle.class_types.specs.Rules.{Rules};
ghost use Rattle.sql_semantics.specs.Plain.{IsPlainSelect};
ghost use Rattle.command_resolve.specs.declared.answer.Answer.TheVariants as answer;
ghost use Rattle.session_acts.specs.Steps as acts;
ghost use Rattle.session_tables.specs.Dump as dump;
ghost use Rattle.session_scopes.specs.SessionState.{IsInStep};
ghost use Rattle.session_calls.specs.Calling.{IsSessionCall};
ghost use Rattle.command_resolve.specs.declared.resolved.Resolved.TheVariants as resolved;
ghost use Rattle.session_perform.specs.Performing as spec;
ghost use Rattle.session_perform.specs.Refused.{IsRefusedLine};

use base_core::{Name, Refusal};
use command_resolve::Answer;
use expr_types::{Bulk, Select};
use keeper_core::Keeper;
use session_calls::{rollback, rollback_handle};
use session_scopes::Session;
use session_tables::scan_tables;
use shell_parts::Bound;

/// The answer where nothing is told.
pub(crate) fn nothing_told(done: Result<(), Refusal>) -> Result<Answer, Refusal>
    ensures { result ≡ spec.nothing_told done }
{
    match done {
        Ok(()) => Ok(Answer::Nothing),
        Err(refusal) => Err(refusal),
    }
}

/// Writes what is to be written, and ends the whole transaction, or the savepoint of a handle.
///
/// # Errors
/// As those of `session_acts::commit` and `session_acts::commit_handle`.
pub(crate) fn commit<K: Keeper>(
    session: &mut Session,
    keeper: &mut K,
    handle: Option<u32>,
) -> Result<(), Refusal>
    requires in_step { IsInStep session.old (K.moment keeper.old) }
    ensures call { IsSessionCall K.moment (λ u. u) (spec.commit handle)
        (session.old, keeper.old) result (session.new, keeper.new) }
    ensures refused { (rules : Rules) → IfErr result (λ e. IsRefusedLine rules (resolved.Commit handle)
        session.old (K.moment keeper.old) e session.new (K.moment keeper.new)) }
{
    match handle {
        None => session_acts::commit(session, keeper),
        Some(handle) => session_acts::commit_handle(session, keeper, handle),
    }
}

/// Rolls the whole transaction back, or the savepoint of a handle.
///
/// # Errors
/// As those of `session_calls::rollback` and `session_calls::rollback_handle`.
pub(crate) fn roll_back<K: Keeper>(
    session: &mut Session,
    keeper: &mut K,
    handle: Option<u32>,
) -> Result<(), Refusal>
    requires in_step { IsInStep session.old (K.moment keeper.old) }
    ensures call { IsSessionCall K.moment (λ u. u) (spec.roll_back handle)
        (session.old, keeper.old) result (session.new, keeper.new) }
    ensures refused { (rules : Rules) → IfErr result (λ e. IsRefusedLine rules (resolved.Rollback handle)
        session.old (K.moment keeper.old) e session.new (K.moment keeper.new)) }
{
    match handle {
        None => rollback(session, keeper),
        Some(handle) => rollback_handle(session, keeper, handle),
    }
}

/// Writes what is to be written, and begins a savepoint, for which the name is to stand.
///
/// # Errors
/// As those of `session_acts::begin_nested`.
pub(crate) fn begin_nested<K: Keeper>(
    session: &mut Session,
    keeper: &mut K,
    name: Name,
) -> Result<Answer, Refusal>
    requires in_step { IsInStep session.old (K.moment keeper.old) }
    ensures performed { spec.IsPerformed K.moment (spec.begin_nested name)
        (session.old, keeper.old) result (session.new, keeper.new) }
    ensures refused { (rules : Rules) → IfErr result (λ e. IsRefusedLine rules (resolved.BeginNested name)
        session.old (K.moment keeper.old) e session.new (K.moment keeper.new)) }
{
    let handle = session_acts::begin_nested(session, keeper)?;
    Ok(Answer::Bind(name, Bound::Saved(handle)))
}

/// The created tables with their rows.
///
/// # Errors
/// `KeeperFault` and `Memory` alone.
pub(crate) fn tables<K: Keeper>(session: &Session, keeper: &mut K) -> Result<Answer, Refusal>
    requires in_step { IsInStep session.now (K.moment keeper.old) }
    ensures performed { spec.IsPerformed K.moment (spec.telling answer.Tables dump.scan_tables)
        (session.now, keeper.old) result (session.now, keeper.new) }
    ensures refused { (rules : Rules) → IfErr result (λ e. IsRefusedLine rules resolved.Dump
        session.now (K.moment keeper.old) e session.now (K.moment keeper.new)) }
{
    let tables = scan_tables(session, keeper)?;
    Ok(Answer::Tables(tables))
}

/// Writes what is to be written, and answers the rows of a select.
///
/// # Errors
/// As those of `session_acts::rows`.
pub(crate) fn rows<K: Keeper>(
    session: &mut Session,
    keeper: &mut K,
    select: &Select,
) -> Result<Answer, Refusal>
    requires in_step { IsInStep session.old (K.moment keeper.old) }
    requires plain { IsPlainSelect session.old.mapping.schema select.now }
    ensures performed { spec.IsPerformed K.moment (spec.telling answer.Rows (acts.rows select.now))
        (session.old, keeper.old) result (session.new, keeper.new) }
    ensures refused { (rules : Rules) → IfErr result (λ e. IsRefusedLine rules (resolved.Rows select.now)
        session.old (K.moment keeper.old) e session.new (K.moment keeper.new)) }
{
    let rows = session_acts::rows(session, keeper, select)?;
    Ok(Answer::Rows(rows))
}

/// Writes what is to be written, sends a bulk statement, and answers the number of its rows.
///
/// # Errors
/// As those of `session_acts::bulk`.
pub(crate) fn bulk<K: Keeper>(
    session: &mut Session,
    keeper: &mut K,
    statement: &Bulk,
) -> Result<Answer, Refusal>
    requires in_step { IsInStep session.old (K.moment keeper.old) }
    requires plain { acts.IsPlainButForKeys session.old.mapping.schema statement.now }
    ensures performed { spec.IsPerformed K.moment (spec.telling answer.Count (acts.bulk statement.now))
        (session.old, keeper.old) result (session.new, keeper.new) }
    ensures refused { (rules : Rules) → IfErr result (λ e. IsRefusedLine rules (resolved.Bulk statement.now)
        session.old (K.moment keeper.old) e session.new (K.moment keeper.new)) }
{
    let count = session_acts::bulk(session, keeper, statement)?;
    Ok(Answer::Count(count))
}
