//! Names of the expressions of a query for objects.

ghost use Rattle.std.specs.Prelude.{◌≡◌, map, IfErr, IfOk};
ghost use Rattle.base_core.specs.Answers.{Gives};
ghost use Rattle.schema_core.specs.Catalog.{IsTable};
ghost use Rattle.sql_semantics.specs.Plain as plain;
ghost use Rattle.script_resolve.specs.Refusals.{CanRefuse};
ghost use Rattle.query_names.specs.Expressions as spec;
ghost use Rattle.query_names.specs.Scopes.{IsScope};

use crate::scope::{QueryScope, path_named, scope_within, shown_name};
use base_core::{Copied, Refusal, TableId};
use class_mapping::Mapping;
use command_names::wrong_kind;
use expr_types::{Expr, Func, Origin};
use schema_core::Schema;
use script_names::{pair, unknown};
use script_types::{Syn, SynSource};
use sqlite_items::{Boxed, Items};
use std::alloc::Global;

/// The table of a name, which is to be declared.
#[tactic(auto, using(script_names::proofs::Places::found_is_table))]
fn table_named(schema: &Schema, source: &SynSource) -> Result<TableId, Refusal>
    ensures table { Gives (λ table. table) result
        (spec.table_said schema.now source.now.table) }
    ensures cause { IfErr result CanRefuse }
    ensures declared { IfOk result (IsTable schema.now) }
{
    match schema.find(&source.table) {
        Some(table) => Ok(table),
        None => Err(unknown(&source.table)?),
    }
}

/// Whether a function takes so many operands.
fn takes(function: Func, count: usize) -> bool
    ensures { result ≡ plain.takes function count }
{
    match function {
        Func::Coalesce => count > 0,
        _ => count == 1,
    }
}

/// A function of these operands, whose number is judged behind them.
fn call(function: Func, operands: Items<Expr>) -> Result<Expr, Refusal>
    ensures said { result ≡ spec.called function operands }
    ensures cause { IfErr result CanRefuse }
{
    if takes(function, operands.len()) {
        Ok(Expr::Call(function, operands))
    } else {
        Err(wrong_kind())
    }
}

/// An expression with numbers for its names.
///
/// # Errors
/// The first in reading order: `Unknown` and `WrongKind` of a path that means nothing, `Unknown` of a table that is not declared,
/// and behind its operands `WrongKind` of a function that takes another number; or `Memory`.
#[tactic(auto, unfolding(crate::specs::Expressions::expression_said), using(crate::proofs::Firsts::firsts, crate::proofs::Equations::of_lists))]
#[cycle(names)]
pub(crate) fn expression_named(
    alloc: Global,
    mapping: &Mapping,
    scope: &QueryScope,
    e: &Syn,
) -> Result<Expr, Refusal>
    requires scope { IsScope mapping.now scope.now }
    ensures said { Gives (λ e. e) result (spec.expression_said mapping.now e.now scope.now) }
    ensures cause { IfErr result CanRefuse }
{
    match e {
        Syn::Lit(value) => Ok(Expr::Lit(value.copied()?)),
        Syn::Path(owner, name) => path_named(mapping, scope, owner, name),
        Syn::CountAll => Ok(Expr::CountAll),
        Syn::Call(function, operands) => {
            let operands = all(alloc, mapping, scope, operands.as_slice())?;
            call(*function, operands)
        }
        Syn::Exists(source, condition) => exists(alloc, mapping, scope, source, condition),
        Syn::Compare(op, a, b) => {
            let (a, b) = two(alloc, mapping, scope, a, b)?;
            Ok(Expr::Compare(*op, a, b))
        }
        Syn::IsNull(negated, a) => Ok(Expr::IsNull(*negated, one(alloc, mapping, scope, a)?)),
        Syn::Like(negated, a, b) => {
            let (a, b) = two(alloc, mapping, scope, a, b)?;
            Ok(Expr::Like(*negated, a, b))
        }
        Syn::Ilike(negated, a, b) => {
            let (a, b) = two(alloc, mapping, scope, a, b)?;
            Ok(Expr::Ilike(*negated, a, b))
        }
        Syn::InList(negated, a, values) => {
            let values = values.copied()?;
            Ok(Expr::InList(*negated, one(alloc, mapping, scope, a)?, values))
        }
        Syn::Between(negated, a, low, high) => {
            let (a, (low, high)) = three(alloc, mapping, scope, a, low, high)?;
            Ok(Expr::Between(*negated, a, low, high))
        }
        Syn::Distinct(negated, a, b) => {
            let (a, b) = two(alloc, mapping, scope, a, b)?;
            Ok(Expr::Distinct(*negated, a, b))
        }
        Syn::And(parts) => Ok(Expr::And(all(alloc, mapping, scope, parts.as_slice())?)),
        Syn::Or(parts) => Ok(Expr::Or(all(alloc, mapping, scope, parts.as_slice())?)),
        Syn::Not(a) => Ok(Expr::Not(one(alloc, mapping, scope, a)?)),
        Syn::Arith(op, a, b) => {
            let (a, b) = two(alloc, mapping, scope, a, b)?;
            Ok(Expr::Arith(*op, a, b))
        }
        Syn::Concat(a, b) => {
            let (a, b) = two(alloc, mapping, scope, a, b)?;
            Ok(Expr::Concat(a, b))
        }
        Syn::Neg(a) => Ok(Expr::Neg(one(alloc, mapping, scope, a)?)),
    }
}

#[tactic(auto, using(crate::proofs::Firsts::firsts))]
#[cycle(names)]
fn one(
    alloc: Global,
    mapping: &Mapping,
    scope: &QueryScope,
    a: &Boxed<Syn>,
) -> Result<Boxed<Expr>, Refusal>
    requires scope { IsScope mapping.now scope.now }
    ensures said { Gives (λ e. e) result (spec.expression_said mapping.now a.now scope.now) }
    ensures cause { IfErr result CanRefuse }
{
    Ok(Boxed::new(alloc, expression_named(alloc, mapping, scope, a.get())?)?)
}

/// Two operands in reading order.
#[tactic(auto, using(crate::proofs::Firsts::firsts))]
#[cycle(names)]
fn two(
    alloc: Global,
    mapping: &Mapping,
    scope: &QueryScope,
    a: &Boxed<Syn>,
    b: &Boxed<Syn>,
) -> Result<(Boxed<Expr>, Boxed<Expr>), Refusal>
    requires scope { IsScope mapping.now scope.now }
    ensures said { Gives (λ it. it) result (spec.two (spec.expression_said mapping.now a.now)
        (spec.expression_said mapping.now b.now) scope.now) }
    ensures cause { IfErr result CanRefuse }
{
    pair(one(alloc, mapping, scope, a), one(alloc, mapping, scope, b))
}

/// Three operands in reading order.
#[tactic(auto, using(crate::proofs::Firsts::firsts))]
#[cycle(names)]
fn three(
    alloc: Global,
    mapping: &Mapping,
    scope: &QueryScope,
    a: &Boxed<Syn>,
    b: &Boxed<Syn>,
    c: &Boxed<Syn>,
) -> Result<(Boxed<Expr>, (Boxed<Expr>, Boxed<Expr>)), Refusal>
    requires scope { IsScope mapping.now scope.now }
    ensures said { Gives (λ it. it) result (spec.three (spec.expression_said mapping.now a.now)
        (spec.expression_said mapping.now b.now) (spec.expression_said mapping.now c.now)
        scope.now) }
    ensures cause { IfErr result CanRefuse }
{
    pair(
        one(alloc, mapping, scope, a),
        two(alloc, mapping, scope, b, c),
    )
}

/// Operands in reading order.
#[tactic(auto, using(crate::proofs::Firsts::firsts))]
#[cycle(names)]
fn all(
    alloc: Global,
    mapping: &Mapping,
    scope: &QueryScope,
    operands: &[Syn],
) -> Result<Items<Expr>, Refusal>
    requires scope { IsScope mapping.now scope.now }
    ensures said { Gives (λ es. es) result
        (spec.all_of (map (spec.expression_said mapping.now) operands.now) scope.now) }
    ensures cause { IfErr result CanRefuse }
{
    let mut named = Items::new(alloc);
    for operand in operands {
        named.push(expression_named(alloc, mapping, scope, operand)?)?;
    }
    Ok(named)
}

/// A row of a source, whose table is read before the condition.
#[tactic(auto, using(crate::proofs::Firsts::firsts, crate::proofs::Standing::standing))]
#[cycle(names)]
fn exists(
    alloc: Global,
    mapping: &Mapping,
    scope: &QueryScope,
    source: &SynSource,
    condition: &Boxed<Syn>,
) -> Result<Expr, Refusal>
    requires scope { IsScope mapping.now scope.now }
    ensures said { Gives (λ e. e) result (spec.exists_said mapping.now.schema source.now
        (spec.expression_said mapping.now condition.now) scope.now) }
    ensures cause { IfErr result CanRefuse }
{
    let table = table_named(mapping.schema(), source)?;
    let inner = scope_within(alloc, scope, shown_name(source), table)?;
    let origin = Origin {
        table,
        alias: Copied::copied(&source.alias)?,
    };
    Ok(Expr::Exists(false, origin, one(alloc, mapping, &inner, condition)?))
}
