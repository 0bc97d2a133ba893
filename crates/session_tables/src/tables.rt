//! All tables are made, or dropped, outside transactions.

ghost use Rattle.std.specs.Prelude.{◌≡◌, [], None, IfErr, IfOk, true};
ghost use Rattle.std.specs.List.{All};
ghost use Rattle.keeper_core.specs.Keeping.{IsCall};
ghost use Rattle.keeper_core.specs.Programs.{each, ends_early};
ghost use Rattle.schema_core.specs.Catalog.{IsTable};
ghost use Rattle.session_scopes.specs.SessionState.{AreAlikeButNotes, IsInStep};
ghost use Rattle.session_calls.specs.Calling.{IsSessionCall};
ghost use Rattle.session_calls.specs.Refusals.{IsRefused};
ghost use Rattle.session_tables.specs.Steps as steps;
ghost use Rattle.session_tables.specs.declared.tables.TableChange.TheVariants.{Create, Drop};

use base_core::{Refusal, RequestKind, TableId};
use keeper_core::{Keeper, Sent, calls};
use schema_core::Schema;
use session_scopes::Session;
use std::alloc::{AllocError, Global};

/// What is done to a table.
#[derive(Clone, Copy)]
pub enum TableChange {
    /// It is made where it is not there.
    Create,
    /// It is dropped where it is there.
    Drop,
}

/// Makes the tables that are not there, in the order of their dependencies. Each is committed at once.
///
/// # Errors
/// `InvalidRequestError(InTransaction)` in a transaction, a failed one included. No refusal changes the session.
pub fn create_all<K: Keeper>(session: &mut Session, keeper: &mut K) -> Result<(), Refusal>
    requires in_step { IsInStep session.old (K.moment keeper.old) }
    ensures call { IsSessionCall K.moment (λ u. u) (steps.change_all Create)
        (session.old, keeper.old) result (session.new, keeper.new) }
    ensures alike { AreAlikeButNotes session.old session.new }
    ensures refused { IfErr result (λ e. IsRefused
        (steps.transaction_fault session.old) None session.old e session.new) }
{
    change_all(session, keeper, TableChange::Create)
}

/// Drops the tables that are there, in the opposite order. Each is committed at once.
///
/// # Errors
/// `InvalidRequestError(InTransaction)` in a transaction, a failed one included. No refusal changes the session.
pub fn drop_all<K: Keeper>(session: &mut Session, keeper: &mut K) -> Result<(), Refusal>
    requires in_step { IsInStep session.old (K.moment keeper.old) }
    ensures call { IsSessionCall K.moment (λ u. u) (steps.change_all Drop)
        (session.old, keeper.old) result (session.new, keeper.new) }
    ensures alike { AreAlikeButNotes session.old session.new }
    ensures refused { IfErr result (λ e. IsRefused
        (steps.transaction_fault session.old) None session.old e session.new) }
{
    change_all(session, keeper, TableChange::Drop)
}

/// Makes or drops all tables.
fn change_all<K: Keeper>(
    session: &mut Session,
    keeper: &mut K,
    change: TableChange,
) -> Result<(), Refusal>
    requires in_step { IsInStep session.old (K.moment keeper.old) }
    ensures call { IsSessionCall K.moment (λ u. u) (steps.change_all change)
        (session.old, keeper.old) result (session.new, keeper.new) }
    ensures alike { AreAlikeButNotes session.old session.new }
    ensures refused { IfErr result (λ e. IsRefused
        (steps.transaction_fault session.old) None session.old e session.new) }
{
    if session.depth() > 0 {
        return Err(Refusal::InvalidRequestError(RequestKind::InTransaction));
    }
    let order = order_for(session, change)?;
    change_each(session, keeper, change, order.as_slice())
}

/// The tables in the order in which they are to change.
#[tactic(auto, using(crate::proofs::Orders::orders))]
fn order_for(session: &Session, change: TableChange) -> Result<Vec<TableId>, AllocError>
    ensures order { IfOk result
        (λ order. order.items ≡ steps.order_for change session.now.mapping.schema) }
    ensures declared { IfOk result
        (λ order. All (IsTable session.now.mapping.schema) order.items) }
{
    let mut order = session.mapping().schema().tables_in_order(session.alloc())?;
    match change {
        TableChange::Create => Ok(order),
        TableChange::Drop => {
            order.reverse();
            Ok(order)
        }
    }
}

/// Makes or drops tables, one after another.
fn change_each<K: Keeper>(
    session: &mut Session,
    keeper: &mut K,
    change: TableChange,
    order: &[TableId],
) -> Result<(), Refusal>
    requires in_step { IsInStep session.old (K.moment keeper.old) }
    requires outside { session.old.frames.scopes ≡ [] }
    requires declared { All (IsTable session.old.mapping.schema) order.now }
    ensures call { IsSessionCall K.moment (λ u. u) (each (steps.change_one change) tt order.now)
        (session.old, keeper.old) result (session.new, keeper.new) }
    ensures alike { AreAlikeButNotes session.old session.new }
    ensures stops { IfErr result (λ e. ends_early e ≡ true) }
{
    for table in order {
        change_one(session, keeper, change, *table)?;
    }
    Ok(())
}

/// Makes a table, or drops it.
fn change_one<K: Keeper>(
    session: &mut Session,
    keeper: &mut K,
    change: TableChange,
    table: TableId,
) -> Result<(), Refusal>
    requires in_step { IsInStep session.old (K.moment keeper.old) }
    requires outside { session.old.frames.scopes ≡ [] }
    requires declared { IsTable session.old.mapping.schema table }
    ensures call { IsSessionCall K.moment (λ u. u) (steps.change_one change table tt)
        (session.old, keeper.old) result (session.new, keeper.new) }
    ensures alike { AreAlikeButNotes session.old session.new }
    ensures stops { IfErr result (λ e. ends_early e ≡ true) }
{
    let has_changed = store_changes(session, keeper, change, table)?;
    if has_changed {
        return Ok(session.note(statement_of(change, table))?);
    }
    Ok(())
}

/// Makes or drops a table of the store; true where it changed.
fn store_changes<K: Keeper>(
    session: &Session,
    keeper: &mut K,
    change: TableChange,
    table: TableId,
) -> Result<bool, Refusal>
    requires in_step { IsInStep session.now (K.moment keeper.old) }
    requires outside { session.now.frames.scopes ≡ [] }
    requires declared { IsTable session.now.mapping.schema table }
    ensures { IsCall K.moment (steps.change_in_store change table) 0 keeper.old result keeper.new }
{
    let schema = session.mapping().schema();
    match change {
        TableChange::Create => calls::create(session.alloc(), keeper, schema, table),
        TableChange::Drop => drop_table(keeper, table, session.alloc(), schema),
    }
}

/// Drops a table, and commits; true where it was there.
fn drop_table<K: Keeper>(
    keeper: &mut K,
    table: TableId,
    alloc: Global,
    schema: &Schema,
) -> Result<bool, Refusal>
    requires attached { (K.moment keeper.old).attached ≡ true }
    requires outside { (K.moment keeper.old).depth ≡ 0 }
    requires declared { IsTable schema.now table }
    ensures { IsCall K.moment (steps.change_in_store Drop table) 0 keeper.old result keeper.new }
{
    Ok(keeper.drop_table(alloc, schema, table)?)
}

/// What is sent where a table changes.
fn statement_of(change: TableChange, table: TableId) -> Sent
    ensures { result ≡ steps.statement_of change table }
{
    match change {
        TableChange::Create => Sent::Create(table),
        TableChange::Drop => Sent::Drop(table),
    }
}
