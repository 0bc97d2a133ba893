//! The plan of a flush.

ghost use Rattle.std.specs.Prelude.{◌≡◌, ◌<◌, ◌++◌, length, IfOk, OnOk};
ghost use Rattle.std.specs.List.{All};
ghost use Rattle.base_core.specs.Answers.{Gives};
ghost use Rattle.flush_order.specs.Orders.{delete_order, gone_rows};
ghost use Rattle.flush_plan.specs.Planning.{plan, statements, unless_gone_cycle};
ghost use Rattle.flush_order.specs.Ready.{AreInRange, AreReady, AreReadyGone};

use crate::gone::gone_rows;
use crate::late::late_updates;
use base_core::{ListOf, Refusal};
use flush_order::{GoneRows, NewRows, ready_rows};
use flush_writes::{gone_names, inserts, new_names, removes, updates};
use row_order::{Ordered, order_or_cycle};
use schema_core::{Plan, Planned, RowChanges, Schema};
use std::alloc::{AllocError, Global};

/// Puts statements behind others.
fn push_all(out: &mut Vec<Planned>, more: Vec<Planned>) -> Result<(), AllocError>
    ensures { OnOk result (out.new.items ≡ out.old.items ++ more.items) }
{
    let mut more = more;
    out.append(&mut more)?;
    Ok(())
}

/// The statements of a flush by the two orders.
fn statements(
    alloc: Global,
    new: &NewRows,
    new_order: &[u32],
    gone: &GoneRows,
    gone_order: &[u32],
) -> Result<Plan, AllocError>
    requires range { AreInRange new.now.schema.now new.now.changes.now }
    requires new { AreReady new.now.schema.now new.now.changes.now new.now.rows.now }
    requires new_order { All (λ row. row < length new.now.rows.now) new_order.now }
    requires gone { AreReadyGone new.now.schema.now new.now.changes.now gone.now.rows.now }
    requires gone_order { All (λ row. row < length gone.now.rows.now) gone_order.now }
    requires schema { gone.now.schema.now ≡ new.now.schema.now }
    requires changes { gone.now.changes.now ≡ new.now.changes.now }
    ensures { IfOk result (λ plan. plan
        ≡ statements new.now.schema.now new.now.changes.now new_order.now gone_order.now) }
{
    let mut plan = inserts(new, alloc, new_order)?;
    push_all(&mut plan, updates(alloc, new.schema, new.changes)?)?;
    push_all(&mut plan, late_updates(new, alloc, new_order)?)?;
    push_all(&mut plan, removes(gone, alloc, gone_order)?)?;
    Ok(ListOf::from_vec(plan))
}

/// The statements of a flush by the order of its new rows, or the deleted rows of a cycle.
fn plan_by(alloc: Global, new: &NewRows, new_order: &[u32]) -> Result<Plan, Refusal>
    requires range { AreInRange new.now.schema.now new.now.changes.now }
    requires new { AreReady new.now.schema.now new.now.changes.now new.now.rows.now }
    requires new_order { All (λ row. row < length new.now.rows.now) new_order.now }
    ensures { Gives (λ plan. plan) result (unless_gone_cycle new.now.schema.now new.now.changes.now
        new_order.now
        (delete_order new.now.schema.now new.now.changes.now
        (gone_rows new.now.schema.now new.now.changes.now))) }
{
    let ready = gone_rows(alloc, new.schema, new.changes)?;
    let gone = GoneRows {
        schema: new.schema,
        changes: new.changes,
        rows: ready.as_slice(),
    };
    match order_or_cycle(alloc, &gone)? {
        Ordered::Order(rows) => Ok(statements(alloc, new, new_order, &gone, rows.as_slice())?),
        Ordered::Cycle(rows) => Err(Refusal::CircularDependencyError(gone_names(
            &gone,
            alloc,
            rows.as_slice(),
        )?)),
    }
}

#[tactic(auto, unfolding(crate::specs::Planning::plan))]
/// The statements of a flush in their order (`plan`), where its new rows are made ready.
///
/// # Errors
/// As of `plan`.
pub fn plan_ready(alloc: Global, new: &NewRows) -> Result<Plan, Refusal>
    requires range { AreInRange new.now.schema.now new.now.changes.now }
    requires ready { AreReady new.now.schema.now new.now.changes.now new.now.rows.now }
    ensures { Gives (λ plan. plan) result (plan new.now.schema.now new.now.changes.now) }
{
    match order_or_cycle(alloc, new)? {
        Ordered::Order(rows) => plan_by(alloc, new, rows.as_slice()),
        Ordered::Cycle(rows) => Err(Refusal::CircularDependencyError(new_names(
            new,
            alloc,
            rows.as_slice(),
        )?)),
    }
}

/// The statements of a flush in their order: INSERTs of new rows, each after those to which it refers, cut into runs as long as
/// can be; UPDATEs of changed rows by table and key; what is written once all rows stand, by table; DELETEs, each after those
/// that refer to it.
///
/// # Errors
/// `CircularDependencyError` where new rows refer to one another, or else deleted ones, so that no order is left: the rows of
/// a cycle, from the least row left each time to the least for which it waits. `Memory`.
pub fn plan(alloc: Global, schema: &Schema, changes: &RowChanges) -> Result<Plan, Refusal>
    requires { AreInRange schema.now changes.now }
    ensures { Gives (λ plan. plan) result (plan schema.now changes.now) }
{
    let ready = ready_rows(alloc, schema, changes)?;
    let new = NewRows {
        schema,
        changes,
        rows: ready.as_slice(),
    };
    plan_ready(alloc, &new)
}
