//! The values of the items and of the order expressions.

ghost use Rattle.std.specs.Prelude.{◌≡◌, [], map};
ghost use Rattle.base_core.specs.Answers.{Gives};
ghost use Rattle.sql_semantics.specs.Eval as eval;
ghost use Rattle.expr_eval.specs.Place.{place_of};
ghost use Rattle.select_sources.specs.Frames.{frame_of};
ghost use Rattle.sql_semantics.specs.Rows as spec;

use crate::basis::scope_of;
use base_core::{ListOf, Name, Refusal, RowValues};
use expr_eval::{Scope, value_in};
use expr_types::{Expr, Select};
use query_steps::Output;
use select_sources::Frame;
use sql_semantics::{Basis, SortKey};
use std::alloc::Global;

/// For each row or group in turn, the items and then the order expressions.
pub(crate) fn outputs(
    alloc: Global,
    frame: &Frame<'_>,
    select: &Select,
    bases: &[Basis],
) -> Result<Vec<Output>, Refusal>
    ensures { Gives (λ v. v.items) result
        (spec.mapped_from (spec.output (frame_of frame.now) select.now) [] bases.now) }
{
    let mut outputs = Vec::with_capacity(alloc, bases.len())?;
    for basis in bases {
        let scope = scope_of(frame.starts, frame.tables, basis);
        outputs.push(output(alloc, select, &scope)?)?;
    }
    Ok(outputs)
}

fn output(alloc: Global, select: &Select, scope: &Scope<'_>) -> Result<Output, Refusal>
    ensures { Gives (λ x. x) result (spec.output_at (place_of scope.now) select.now) }
{
    let row = values(alloc, &select.items, scope)?;
    let keys = keys(alloc, &select.order, scope)?;
    Ok((keys, row))
}

fn values(
    alloc: Global,
    items: &ListOf<(Expr, Option<Name>)>,
    scope: &Scope<'_>,
) -> Result<RowValues, Refusal>
    ensures { Gives (λ x. x) result
        (eval.all_from (place_of scope.now) [] (map (λ i. eval.meaning_of i.0) items.now)) }
{
    let mut values = Vec::with_capacity(alloc, items.len())?;
    for item in items.as_slice() {
        values.push(value_in(alloc, &item.0, scope)?)?;
    }
    Ok(ListOf::from_vec(values))
}

fn keys(
    alloc: Global,
    order: &ListOf<(Expr, bool)>,
    scope: &Scope<'_>,
) -> Result<ListOf<SortKey>, Refusal>
    ensures { Gives (λ x. x) result (spec.keys_from (place_of scope.now) [] order.now) }
{
    let mut keys = Vec::with_capacity(alloc, order.len())?;
    for key in order.as_slice() {
        let value = value_in(alloc, &key.0, scope)?;
        keys.push(SortKey::new(key.1, value))?;
    }
    Ok(ListOf::from_vec(keys))
}
