//! What is decided before a flush, what it changes, and the plan of that.

ghost use Rattle.std.specs.Prelude.{◌≡◌, IfOk};
ghost use Rattle.base_core.specs.Answers.{Gives};
ghost use Rattle.class_mapping.specs.Configured.{IsConfigured};
ghost use Rattle.flush_order.specs.Ready.{AreInRange, AreReady};
ghost use Rattle.flush_plan.specs.Planning.{plan};
ghost use Rattle.object_rows.specs.Seen.{AreMade};
ghost use Rattle.prepared_objects.specs.Leaving.{prepared_of};
ghost use Rattle.row_project.specs.Changes.{project};

use base_core::Refusal;
use flush_order::{NewRows, ReadyRow};
use flush_plan::plan_ready;
use object_rows::Prepared;
use prepared_objects::prepared;
use row_project::project_ready;
use schema_core::{Plan, RowChanges};
use session_scopes::Session;
use std::alloc::AllocError;

/// What is decided of the objects before they are written: see `prepared` of `prepared_objects`.
pub(crate) fn prepared_objects(session: &Session) -> Result<Prepared, AllocError>
    ensures prepared { IfOk result (λ prepared. prepared
        ≡ prepared_of session.now.mapping session.now.graph) }
    ensures made { IfOk result (AreMade session.now.graph) }
{
    prepared(session.alloc(), session.arena(), session.mapping())
}

/// What a flush of the prepared objects changes, with its new rows made ready. Of the mapping all was checked, as of each.
pub(crate) fn prepared_changes(
    session: &Session,
    prepared: &Prepared,
) -> Result<(RowChanges, Vec<ReadyRow>), AllocError>
    requires { AreMade session.now.graph prepared.now }
    ensures changes { IfOk result (λ made. made.0
        ≡ project session.now.mapping session.now.graph prepared.now) }
    ensures range { IfOk result (λ made. AreInRange session.now.mapping.schema made.0) }
    ensures ready { IfOk result
        (λ made. AreReady session.now.mapping.schema made.0 made.1.items) }
    ensures configured { IsConfigured session.now.mapping }
{
    project_ready(
        session.alloc(),
        session.arena(),
        session.mapping(),
        prepared,
    )
}

/// The plan of changes of which the new rows are made ready.
///
/// # Errors
/// `CircularDependencyError` where no order is left; `Memory`.
pub(crate) fn planned_changes(
    session: &Session,
    rows: &RowChanges,
    ready: &[ReadyRow],
) -> Result<Plan, Refusal>
    requires range { AreInRange session.now.mapping.schema rows.now }
    requires ready { AreReady session.now.mapping.schema rows.now ready.now }
    ensures { Gives (λ plan. plan) result (plan session.now.mapping.schema rows.now) }
{
    let new = NewRows {
        schema: session.mapping().schema(),
        changes: rows,
        rows: ready,
    };
    plan_ready(session.alloc(), &new)
}
