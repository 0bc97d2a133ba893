//! Groups.

ghost use Rattle.std.specs.Prelude.{◌≡◌, [], ◌∷◌, map, IfOk};
ghost use Rattle.std.specs.List.{list_any};
ghost use Rattle.expr_types.specs.Level as level;
ghost use Rattle.sql_semantics.specs.Plain as plain;
ghost use Rattle.base_core.specs.Answers.{Gives};
ghost use Rattle.sql_semantics.specs.Eval as eval;
ghost use Rattle.expr_eval.specs.Place.{place_of};
ghost use Rattle.select_sources.specs.Frames.{frame_of};
ghost use Rattle.sql_semantics.specs.Rows as spec;

use base_core::{Copied, ListOf, Name, Refusal, RowValues};
use expr_eval::{Scope, value_in};
use expr_types::{Expr, ExprList, Select};
use expr_typing::has_aggregate;
use join_keys::{Keyed, by_key, rows_at};
use query_steps::keep_first;
use select_sources::{Frame, scope_at};
use sql_semantics::Basis;
use std::alloc::{AllocError, Global};
use std::collections::BTreeSet;

/// Whether the answer has a row for each group: the select groups, or has a condition on groups or an aggregate.
fn is_grouped(select: &Select) -> bool
    ensures { result ≡ plain.is_grouped select.now }
{
    let groups = select.groups.len();
    groups > 0 || select.having.is_some() || has_aggregates(select)
}

#[tactic(auto, using(crate::proofs::Surveys::any_outputs))]
fn has_aggregates(select: &Select) -> bool
    ensures { result ≡ list_any level.has_aggregate (plain.outputs select.now) }
{
    in_items(&select.items) || in_order(&select.order)
}

fn in_items(items: &ListOf<(Expr, Option<Name>)>) -> bool
    ensures { result ≡ list_any (λ i. level.has_aggregate i.0) items.now }
{
    for item in items.as_slice() {
        if has_aggregate(&item.0) {
            return true;
        }
    }
    false
}

fn in_order(order: &ListOf<(Expr, bool)>) -> bool
    ensures { result ≡ list_any (λ k. level.has_aggregate k.0) order.now }
{
    for key in order.as_slice() {
        if has_aggregate(&key.0) {
            return true;
        }
    }
    false
}

/// The rows, or their groups where the select groups.
pub(crate) fn bases(
    alloc: Global,
    frame: &Frame<'_>,
    select: &Select,
    rows: Vec<RowValues>,
) -> Result<Vec<Basis>, Refusal>
    ensures { Gives (λ v. v.items) result (spec.bases (frame_of frame.now) select.now rows.items) }
{
    if is_grouped(select) {
        grouped(alloc, frame, &select.groups, rows)
    } else {
        Ok(ungrouped(alloc, rows)?)
    }
}

fn ungrouped(alloc: Global, rows: Vec<RowValues>) -> Result<Vec<Basis>, AllocError>
    ensures { IfOk result (λ v. v.items ≡ map (λ r. Basis.Row r) rows.items) }
{
    let mut bases = Vec::with_capacity(alloc, rows.len())?;
    for row in rows {
        bases.push(Basis::Row(row))?;
    }
    Ok(bases)
}

fn grouped(
    alloc: Global,
    frame: &Frame<'_>,
    expressions: &ExprList,
    rows: Vec<RowValues>,
) -> Result<Vec<Basis>, Refusal>
    ensures { Gives (λ v. v.items) result
        (spec.group_bases (frame_of frame.now) expressions.now rows.items) }
{
    if expressions.is_empty() {
        return Ok(one_group(alloc, rows)?);
    }
    let all = keyed(alloc, frame, expressions, rows)?;
    Ok(groups(alloc, &all)?)
}

fn one_group(alloc: Global, rows: Vec<RowValues>) -> Result<Vec<Basis>, AllocError>
    ensures { IfOk result (λ v. v.items ≡ Basis.Group rows.items ∷ []) }
{
    let mut bases = Vec::with_capacity(alloc, 1)?;
    bases.push(Basis::Group(ListOf::from_vec(rows)))?;
    Ok(bases)
}

fn keyed(
    alloc: Global,
    frame: &Frame<'_>,
    expressions: &ExprList,
    rows: Vec<RowValues>,
) -> Result<Vec<Keyed>, Refusal>
    ensures { Gives (λ v. v.items) result
        (spec.mapped_from (spec.row_with_key (frame_of frame.now) expressions.now) [] rows.items) }
{
    let mut all = Vec::with_capacity(alloc, rows.len())?;
    for row in rows {
        let scope = scope_at(frame.starts, frame.tables, row.as_slice());
        let key = values(alloc, expressions, &scope)?;
        all.push((key, row))?;
    }
    Ok(all)
}

fn values(alloc: Global, expressions: &ExprList, scope: &Scope<'_>) -> Result<RowValues, Refusal>
    ensures { Gives (λ v. v) result
        (eval.all_from (place_of scope.now) [] (map eval.meaning_of expressions.now)) }
{
    let mut values = Vec::with_capacity(alloc, expressions.len())?;
    for e in expressions.as_slice() {
        values.push(value_in(alloc, e, scope)?)?;
    }
    Ok(ListOf::from_vec(values))
}

/// One group for each key, in the order in which keys come.
fn groups(alloc: Global, all: &[Keyed]) -> Result<Vec<Basis>, AllocError>
    ensures { IfOk result (λ v. v.items ≡ spec.groups all.now) }
{
    let keys = keys(alloc, all)?;
    let index = by_key(alloc, all)?;
    let mut bases = Vec::with_capacity(alloc, keys.len())?;
    for key in &keys {
        bases.push(Basis::Group(rows_at(alloc, &index, key)?))?;
    }
    Ok(bases)
}

fn keys(alloc: Global, all: &[Keyed]) -> Result<Vec<RowValues>, AllocError>
    ensures { IfOk result (λ v. v.items ≡ spec.firsts_from [] (map (λ k. k.0) all.now)) }
{
    let mut seen = BTreeSet::new(alloc);
    let mut keys = Vec::new(alloc);
    for keyed in all {
        keep_first(&mut seen, &mut keys, keyed.0.copied()?)?;
    }
    Ok(keys)
}
