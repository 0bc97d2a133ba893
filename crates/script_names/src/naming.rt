//! Names of expressions.

ghost use Rattle.std.specs.Prelude.{◌≡◌, ◌++◌, ◌∷◌, [], false, length, map, not, IfOk};
ghost use Rattle.std.specs.List.{flat_map};
ghost use Rattle.std.specs.Option.{option_map};
ghost use Rattle.base_core.specs.declared.refusal.RequestKind.TheVariants as kinds;
ghost use Rattle.expr_types.specs.declared.expr.Expr.TheVariants as expr;
ghost use Rattle.sql_semantics.specs.Plain as plain;
ghost use Rattle.script_names.specs.Faults.{TellsFirst, fault_if, faults_if_given};
ghost use Rattle.script_names.specs.Scopes as scopes;
ghost use Rattle.script_names.specs.Naming as spec;

use crate::faults::pair;
use crate::scope::{column_named, inner_scope, table_named};
use base_core::{Copied, ListOf, Refusal, RequestKind};
use expr_types::{Expr, Func, Origin};
use schema_core::Schema;
use script_types::{Syn, SynSource};
use sqlite_items::{Boxed, Items};
use std::alloc::Global;

/// A source whose table is declared.
///
/// # Errors
/// `Unknown` of a table that is not declared, or `Memory`.
pub fn origin_named(schema: &Schema, source: &SynSource) -> Result<Origin, Refusal>
    ensures value { IfOk result (λ said. said ≡ spec.named_origin schema.now source.now) }
    ensures told { TellsFirst (spec.source_faults schema.now source.now) result }
{
    let table = table_named(schema, &source.table)?;
    Ok(Origin {
        table,
        alias: Copied::copied(&source.alias)?,
    })
}

/// Whether a function takes so many operands.
fn takes(function: Func, count: usize) -> bool
    ensures { result ≡ plain.takes function count }
{
    match function {
        Func::Coalesce => count > 0,
        _ => count == 1,
    }
}

/// An expression with numbers for its names.
///
/// # Errors
/// The first in reading order: `Unknown` of a name that stands for nothing, and behind its operands `WrongKind` of a function
/// that takes another number; or `Memory`.
#[tactic(auto, unfolding(crate::specs::Naming::name_faults, crate::specs::Naming::named_expression), using(crate::proofs::Firsts::firsts, crate::proofs::Equations::of_lists))]
#[cycle(names)]
pub fn expression_named(
    alloc: Global,
    schema: &Schema,
    scope: &[(u32, SynSource)],
    e: &Syn,
) -> Result<Expr, Refusal>
    ensures value { IfOk result (λ said. said ≡ spec.named_expression schema.now e.now scope.now) }
    ensures told { TellsFirst (spec.name_faults schema.now e.now scope.now) result }
{
    match e {
        Syn::Lit(value) => Ok(Expr::Lit(value.copied()?)),
        Syn::Path(source, column) => column_named(schema, scope, source, column),
        Syn::CountAll => Ok(Expr::CountAll),
        Syn::Call(function, operands) => {
            let operands = all(alloc, schema, scope, operands.as_slice())?;
            call(*function, operands)
        }
        Syn::Exists(source, condition) => exists(alloc, schema, scope, source, condition),
        Syn::Compare(op, a, b) => {
            let (a, b) = two(alloc, schema, scope, a, b)?;
            Ok(Expr::Compare(*op, a, b))
        }
        Syn::IsNull(negated, a) => Ok(Expr::IsNull(*negated, one(alloc, schema, scope, a)?)),
        Syn::Like(negated, a, b) => {
            let (a, b) = two(alloc, schema, scope, a, b)?;
            Ok(Expr::Like(*negated, a, b))
        }
        Syn::Ilike(negated, a, b) => {
            let (a, b) = two(alloc, schema, scope, a, b)?;
            Ok(Expr::Ilike(*negated, a, b))
        }
        Syn::InList(negated, a, values) => {
            let values = values.copied()?;
            Ok(Expr::InList(*negated, one(alloc, schema, scope, a)?, values))
        }
        Syn::Between(negated, a, low, high) => {
            let (a, (low, high)) = three(alloc, schema, scope, a, low, high)?;
            Ok(Expr::Between(*negated, a, low, high))
        }
        Syn::Distinct(negated, a, b) => {
            let (a, b) = two(alloc, schema, scope, a, b)?;
            Ok(Expr::Distinct(*negated, a, b))
        }
        Syn::And(parts) => Ok(Expr::And(all(alloc, schema, scope, parts.as_slice())?)),
        Syn::Or(parts) => Ok(Expr::Or(all(alloc, schema, scope, parts.as_slice())?)),
        Syn::Not(a) => Ok(Expr::Not(one(alloc, schema, scope, a)?)),
        Syn::Arith(op, a, b) => {
            let (a, b) = two(alloc, schema, scope, a, b)?;
            Ok(Expr::Arith(*op, a, b))
        }
        Syn::Concat(a, b) => {
            let (a, b) = two(alloc, schema, scope, a, b)?;
            Ok(Expr::Concat(a, b))
        }
        Syn::Neg(a) => Ok(Expr::Neg(one(alloc, schema, scope, a)?)),
    }
}

#[tactic(auto, using(crate::proofs::Firsts::firsts))]
#[cycle(names)]
fn one(
    alloc: Global,
    schema: &Schema,
    scope: &[(u32, SynSource)],
    a: &Boxed<Syn>,
) -> Result<Boxed<Expr>, Refusal>
    ensures value { IfOk result (λ said. said ≡ spec.named_expression schema.now a.now scope.now) }
    ensures told { TellsFirst (spec.name_faults schema.now a.now scope.now) result }
{
    Ok(Boxed::new(alloc, expression_named(alloc, schema, scope, a.get())?)?)
}

/// Two operands in reading order.
#[tactic(auto, using(crate::proofs::Firsts::firsts))]
#[cycle(names)]
fn two(
    alloc: Global,
    schema: &Schema,
    scope: &[(u32, SynSource)],
    a: &Boxed<Syn>,
    b: &Boxed<Syn>,
) -> Result<(Boxed<Expr>, Boxed<Expr>), Refusal>
    ensures first { IfOk result (λ both. both.0 ≡ spec.named_expression schema.now a.now
        scope.now) }
    ensures second { IfOk result (λ both. both.1 ≡ spec.named_expression schema.now b.now
        scope.now) }
    ensures told { TellsFirst (spec.faults_in scope.now (spec.name_faults schema.now a.now ∷
        spec.name_faults schema.now b.now ∷ [])) result }
{
    pair(one(alloc, schema, scope, a), one(alloc, schema, scope, b))
}

/// Three operands in reading order.
#[tactic(auto, using(crate::proofs::Firsts::firsts))]
#[cycle(names)]
fn three(
    alloc: Global,
    schema: &Schema,
    scope: &[(u32, SynSource)],
    a: &Boxed<Syn>,
    b: &Boxed<Syn>,
    c: &Boxed<Syn>,
) -> Result<(Boxed<Expr>, (Boxed<Expr>, Boxed<Expr>)), Refusal>
    ensures first { IfOk result (λ all. all.0 ≡ spec.named_expression schema.now a.now scope.now) }
    ensures second { IfOk result (λ all. all.1.0 ≡ spec.named_expression schema.now b.now
        scope.now) }
    ensures third { IfOk result (λ all. all.1.1 ≡ spec.named_expression schema.now c.now
        scope.now) }
    ensures told { TellsFirst (spec.faults_in scope.now (spec.name_faults schema.now a.now ∷
        spec.name_faults schema.now b.now ∷ spec.name_faults schema.now c.now ∷ [])) result }
{
    pair(
        one(alloc, schema, scope, a),
        two(alloc, schema, scope, b, c),
    )
}

/// Operands in reading order.
#[tactic(auto, using(crate::proofs::Firsts::firsts))]
#[cycle(names)]
fn all(
    alloc: Global,
    schema: &Schema,
    scope: &[(u32, SynSource)],
    operands: &[Syn],
) -> Result<Items<Expr>, Refusal>
    ensures value { IfOk result (λ said. said ≡ spec.said_in scope.now (map (spec.named_expression
        schema.now) operands.now)) }
    ensures told { TellsFirst (spec.faults_in scope.now (map (spec.name_faults schema.now)
        operands.now)) result }
{
    let mut named = Items::new(alloc);
    for operand in operands {
        named.push(expression_named(alloc, schema, scope, operand)?)?;
    }
    Ok(named)
}

/// A function of these operands, whose number is judged behind them.
fn call(function: Func, operands: Items<Expr>) -> Result<Expr, Refusal>
    ensures value { IfOk result (λ said. said ≡ expr.Call function operands) }
    ensures told { TellsFirst (fault_if (not (plain.takes function (length operands)))
        kinds.WrongKind) result }
{
    if takes(function, operands.len()) {
        Ok(Expr::Call(function, operands))
    } else {
        Err(Refusal::InvalidRequestError(RequestKind::WrongKind))
    }
}

/// A row of a source, whose table is read before the condition.
#[tactic(auto, using(crate::proofs::Firsts::firsts))]
#[cycle(names)]
fn exists(
    alloc: Global,
    schema: &Schema,
    scope: &[(u32, SynSource)],
    source: &SynSource,
    condition: &Boxed<Syn>,
) -> Result<Expr, Refusal>
    ensures value { IfOk result (λ said. said ≡ expr.Exists false (spec.named_origin schema.now
        source.now) (spec.named_expression schema.now condition.now (scopes.inner_scope scope.now
        source.now))) }
    ensures told { TellsFirst (spec.source_faults schema.now source.now ++ spec.faults_in
        (scopes.inner_scope scope.now source.now) (spec.name_faults schema.now condition.now ∷
        [])) result }
{
    let inner = inner_scope(alloc, scope, source)?;
    let (origin, condition) = pair(
        origin_named(schema, source),
        one(alloc, schema, inner.as_slice(), condition),
    )?;
    Ok(Expr::Exists(false, origin, condition))
}

/// An expression that may be left out. Its refusals are those of `expression_named`.
#[tactic(auto, using(crate::proofs::Firsts::firsts))]
pub fn named_if_given(
    alloc: Global,
    schema: &Schema,
    scope: &[(u32, SynSource)],
    e: &Option<Syn>,
) -> Result<Option<Expr>, Refusal>
    ensures value { IfOk result (λ said. said ≡ option_map (λ e. spec.named_expression schema.now
        e scope.now) e.now) }
    ensures told { TellsFirst (faults_if_given (λ e. spec.name_faults schema.now e scope.now)
        e.now) result }
{
    match e {
        Some(e) => Ok(Some(expression_named(alloc, schema, scope, e)?)),
        None => Ok(None),
    }
}

/// Expressions, from left to right. The refusals are those of `expression_named`, of which the first is told.
pub fn expressions_named(
    alloc: Global,
    schema: &Schema,
    scope: &[(u32, SynSource)],
    es: &[Syn],
) -> Result<Items<Expr>, Refusal>
    ensures value { IfOk result (λ said. said ≡ spec.said_in scope.now (map (spec.named_expression
        schema.now) es.now)) }
    ensures told { TellsFirst (spec.faults_in scope.now (map (spec.name_faults schema.now)
        es.now)) result }
{
    all(alloc, schema, scope, es)
}

/// Expressions that have something beside them, from left to right. The refusals are those of `expression_named`, of which
/// the first is told.
#[tactic(auto, using(crate::proofs::Firsts::firsts))]
pub fn pairs_named<B: Copied + Drop>(
    alloc: Global,
    schema: &Schema,
    scope: &[(u32, SynSource)],
    pairs: &[(Syn, B)],
) -> Result<ListOf<(Expr, B)>, Refusal>
    ensures value { IfOk result (λ said. said ≡ map (λ pair. (
      spec.named_expression schema.now
          pair.0 scope.now,
      pair.1,
    )) pairs.now) }
    ensures told { TellsFirst (flat_map (λ pair. spec.name_faults schema.now pair.0 scope.now)
        pairs.now) result }
{
    let mut named = ListOf::new(alloc);
    for item in pairs {
        named.push(pair_named(alloc, schema, scope, item)?)?;
    }
    Ok(named)
}

/// An expression that has something beside it.
#[tactic(auto, using(crate::proofs::Firsts::firsts))]
fn pair_named<B: Copied + Drop>(
    alloc: Global,
    schema: &Schema,
    scope: &[(u32, SynSource)],
    item: &(Syn, B),
) -> Result<(Expr, B), Refusal>
    ensures value { IfOk result (λ said. said ≡ (
      spec.named_expression schema.now item.now.0
          scope.now,
      item.now.1,
    )) }
    ensures told { TellsFirst (spec.name_faults schema.now item.now.0 scope.now) result }
{
    let beside = item.1.copied()?;
    Ok((expression_named(alloc, schema, scope, &item.0)?, beside))
}
