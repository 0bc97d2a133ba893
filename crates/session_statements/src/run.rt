//! The run of a plan.

ghost use Rattle.std.specs.Prelude.{◌≡◌, ◌<◌, List, [], ◌∷◌, length, true, IfErr, IfOk, OnOk};
ghost use Rattle.std.specs.List.{All};
ghost use Rattle.base_core.specs.declared.value.Value.{Value};
ghost use Rattle.schema_core.specs.declared.changes.RowChanges.{RowChanges};
ghost use Rattle.schema_core.specs.Catalog.{IsTable};
ghost use Rattle.schema_core.specs.WellFormed.{IsWellFormed};
ghost use Rattle.flush_plan.specs.Flushing.{Keys, keys_then, statement_sent};
ghost use Rattle.session_scopes.specs.SessionState.{AreAlikeButNotes, IsInStep};
ghost use Rattle.session_calls.specs.Calling.{IsSessionCall};
ghost use Rattle.plan_statements.specs.Known.{AreKeysAt, IsOfRows, is_sendable, keys_at};
ghost use Rattle.plan_statements.specs.Stale.{AreStalePlaces};
ghost use Rattle.session_statements.specs.Run as run;
ghost use Rattle.session_statements.specs.Run.{IsCause};

use crate::writing::write_noted;
use base_core::{Key, KeyList, ListOf, Refusal};
use keeper_core::Keeper;
use plan_statements::{
    Places, fitting_statement, is_row_missing, keep_keys, no_keys, stale_places, table_of,
};
use schema_core::{Plan, Planned, RowChanges, RowStmt};
use session_scopes::Session;

/// Sends a statement that fits, and answers the keys of its rows.
fn send_fitting<K: Keeper>(
    session: &mut Session,
    keeper: &mut K,
    places: &Places,
    planned: &Planned,
    statement: &RowStmt,
) -> Result<KeyList, Refusal>
    requires in_step { IsInStep session.old (K.moment keeper.old) }
    requires inside { 0 < length session.old.frames.scopes }
    requires fits { IsWellFormed session.old.mapping.schema statement.now }
    ensures call { (changes : RowChanges) (keys : Keys) (known : List (List Value))
        → AreStalePlaces session.old.mapping.schema changes places.now → AreKeysAt keys known
        → is_sendable session.old.mapping.schema changes (keys_at known) planned.now ≡ true
        → statement.now ≡ statement_sent session.old.mapping.schema changes (keys_at known) planned.now
        → IsSessionCall K.moment (λ answered. keys_then keys planned.now answered)
        (run.send_one session.old.mapping.schema changes planned.now keys)
        (session.old, keeper.old) result (session.new, keeper.new) }
    ensures alike { AreAlikeButNotes session.old session.new }
    ensures cause { (changes : RowChanges) (known : List (List Value))
        → AreStalePlaces session.old.mapping.schema changes places.now
        → is_sendable session.old.mapping.schema changes (keys_at known) planned.now ≡ true
        → statement.now ≡ statement_sent session.old.mapping.schema changes (keys_at known) planned.now
        → IfErr result (λ e. IsCause session.old.mapping.schema changes
        (planned.now ∷ []) (K.moment keeper.old) e (K.moment keeper.new)) }
{
    let answered = write_noted(session, keeper, statement)?;
    if is_row_missing(places, planned, &answered)? {
        return Err(Refusal::StaleDataError(table_of(planned)));
    }
    Ok(answered)
}

/// Sends one statement of a plan by the keys of new rows that are known so far, and answers the keys of its rows.
fn send_one<K: Keeper>(
    session: &mut Session,
    keeper: &mut K,
    changes: &RowChanges,
    places: &Places,
    known: &ListOf<Key>,
    planned: &Planned,
) -> Result<KeyList, Refusal>
    requires in_step { IsInStep session.old (K.moment keeper.old) }
    requires inside { 0 < length session.old.frames.scopes }
    requires places { AreStalePlaces session.old.mapping.schema changes.now places.now }
    ensures call { (keys : Keys) → AreKeysAt keys known.now → IsSessionCall K.moment
        (λ answered. keys_then keys planned.now answered)
        (run.send_one session.old.mapping.schema changes.now planned.now keys)
        (session.old, keeper.old) result (session.new, keeper.new) }
    ensures alike { AreAlikeButNotes session.old session.new }
    ensures rows { OnOk result (IsOfRows session.old.mapping.schema changes.now planned.now) }
    ensures cause { IfErr result (λ e. IsCause session.old.mapping.schema changes.now
        (planned.now ∷ []) (K.moment keeper.old) e (K.moment keeper.new)) }
{
    let schema = session.mapping().schema();
    match fitting_statement(session.alloc(), schema, changes, known, planned)? {
        None => Err(Refusal::NotBuilt),
        Some(statement) => send_fitting(session, keeper, places, planned, &statement),
    }
}

/// Sends the statements of a plan in order, each with the keys of new rows that are known by then, and answers the key of each
/// new row, in the order of the new rows. The session notes each statement.
///
/// # Errors
/// The first refusal ends the run, and the statements before it stay sent: what the store refuses of a statement, and
/// `StaleDataError` where an INSERT was given the key of a row that is changed or deleted, since that row is missing then. A
/// statement that is not of the new rows, or does not fit the schema, is not sent: `NotBuilt`. `KeeperFault` and `Memory`.
pub fn send_plan<K: Keeper>(
    session: &mut Session,
    keeper: &mut K,
    changes: &RowChanges,
    plan: &Plan,
) -> Result<ListOf<Key>, Refusal>
    requires in_step { IsInStep session.old (K.moment keeper.old) }
    requires inside { 0 < length session.old.frames.scopes }
    requires gone { All (λ row. IsTable session.old.mapping.schema row.name.table)
        changes.now.gone }
    ensures call { IsSessionCall K.moment (λ keys. keys)
        (run.send_plan session.old.mapping.schema changes.now plan.now)
        (session.old, keeper.old) result (session.new, keeper.new) }
    ensures alike { AreAlikeButNotes session.old session.new }
    ensures long { IfOk result (λ keys. length keys ≡ length changes.now.fresh) }
    ensures cause { IfErr result (λ e. IsCause session.old.mapping.schema changes.now
        plan.now (K.moment keeper.old) e (K.moment keeper.new)) }
{
    let places = stale_places(session.alloc(), session.mapping().schema(), changes)?;
    let mut known = no_keys(session.alloc(), changes.fresh.len())?;
    for planned in plan.as_slice() {
        let answered = send_one(session, keeper, changes, &places, &known, planned)?;
        keep_keys(&mut known, planned, &answered)?;
    }
    Ok(known)
}
