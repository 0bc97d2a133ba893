//! The kind of an expression.

ghost use Rattle.std.specs.Prelude.{◌≡◌, ◌∷◌, [], map};
ghost use Rattle.base_core.specs.Answers.{Gives};
ghost use Rattle.sql_semantics.specs.Kinds as spec;
ghost use Rattle.sql_semantics.specs.Kinds.{expression_kind, in_scope, all_of, all_alike};

use crate::kind::{column_kind, entered, expected, value_kind, values_of};
use base_core::{Kind, Refusal, TableId};
use expr_types::{Expr, Func, Origin};
use schema_core::Schema;
use sqlite_items::Boxed;
use std::alloc::Global;

#[tactic(auto, unfolding(sql_semantics::specs::Kinds::expression_kind), using(crate::proofs::Refused::refused))]
#[cycle(judges)]
fn judge(alloc: Global, schema: &Schema, scope: &[TableId], e: &Expr) -> Result<Kind, Refusal>
    ensures { Gives (λ kind. kind) result (expression_kind schema.now e.now scope.now) }
{
    match e {
        Expr::Column(source, column) => Ok(column_kind(schema, scope, *source, *column)),
        Expr::Lit(value) => Ok(value_kind(value)),
        Expr::IsNull(_, a) => {
            judge(alloc, schema, scope, a.get())?;
            Ok(Kind::Boolean)
        }
        Expr::And(parts) | Expr::Or(parts) => all(
            alloc,
            schema,
            scope,
            Kind::Boolean,
            parts.as_slice(),
        ),
        Expr::Not(a) => one(alloc, schema, scope, Kind::Boolean, a),
        Expr::Neg(a) => one(alloc, schema, scope, Kind::Integer, a),
        Expr::Arith(_, a, b) => two(alloc, schema, scope, Kind::Integer, a, b),
        Expr::Concat(a, b) => two(alloc, schema, scope, Kind::Text, a, b),
        Expr::Like(_, a, b) | Expr::Ilike(_, a, b) => {
            two(alloc, schema, scope, Kind::Text, a, b)?;
            Ok(Kind::Boolean)
        }
        Expr::Compare(_, a, b) | Expr::Distinct(_, a, b) => {
            alike(alloc, schema, scope, a, b)?;
            Ok(Kind::Boolean)
        }
        Expr::InList(_, a, values) => {
            let kind = judge(alloc, schema, scope, a.get())?;
            values_of(kind, values.as_slice())?;
            Ok(Kind::Boolean)
        }
        Expr::Between(_, a, low, high) => {
            let kind = judge(alloc, schema, scope, a.get())?;
            two(alloc, schema, scope, kind, low, high)?;
            Ok(Kind::Boolean)
        }
        Expr::Call(function, operands) => called(
            alloc,
            schema,
            scope,
            *function,
            operands.as_slice(),
        ),
        Expr::CountAll => Ok(Kind::Integer),
        Expr::Exists(_, origin, condition) => {
            let inner = entered(alloc, scope, origin.table)?;
            one(alloc, schema, inner.as_slice(), Kind::Boolean, condition)
        }
    }
}

#[tactic(auto, using(crate::proofs::Refused::refused))]
#[cycle(judges)]
fn one(
    alloc: Global,
    schema: &Schema,
    scope: &[TableId],
    wanted: Kind,
    a: &Boxed<Expr>,
) -> Result<Kind, Refusal>
    ensures { Gives (λ kind. kind) result (all_of wanted (expression_kind schema.now a.now scope.now ∷ [])) }
{
    let found = judge(alloc, schema, scope, a.get())?;
    expected(wanted, found)
}

#[tactic(auto, using(crate::proofs::Refused::refused))]
#[cycle(judges)]
fn two(
    alloc: Global,
    schema: &Schema,
    scope: &[TableId],
    wanted: Kind,
    a: &Boxed<Expr>,
    b: &Boxed<Expr>,
) -> Result<Kind, Refusal>
    ensures { Gives (λ kind. kind) result
        (all_of wanted (expression_kind schema.now a.now scope.now
        ∷ expression_kind schema.now b.now scope.now ∷ [])) }
{
    one(alloc, schema, scope, wanted, a)?;
    one(alloc, schema, scope, wanted, b)
}

#[tactic(auto, using(crate::proofs::Refused::refused))]
#[cycle(judges)]
fn alike(
    alloc: Global,
    schema: &Schema,
    scope: &[TableId],
    a: &Boxed<Expr>,
    b: &Boxed<Expr>,
) -> Result<Kind, Refusal>
    ensures { Gives (λ kind. kind) result
        (all_alike (expression_kind schema.now a.now scope.now ∷ expression_kind schema.now b.now scope.now ∷ [])) }
{
    let kind = judge(alloc, schema, scope, a.get())?;
    one(alloc, schema, scope, kind, b)
}

#[tactic(auto, using(crate::proofs::Refused::refused))]
#[cycle(judges)]
fn all(
    alloc: Global,
    schema: &Schema,
    scope: &[TableId],
    wanted: Kind,
    operands: &[Expr],
) -> Result<Kind, Refusal>
    ensures { Gives (λ kind. kind) result
        (all_of wanted (in_scope scope.now (map (expression_kind schema.now) operands.now))) }
{
    for operand in operands {
        let found = judge(alloc, schema, scope, operand)?;
        expected(wanted, found)?;
    }
    Ok(wanted)
}

#[tactic(auto, using(crate::proofs::Refused::refused))]
#[cycle(judges)]
fn first_kind(
    alloc: Global,
    schema: &Schema,
    scope: &[TableId],
    operands: &[Expr],
) -> Result<Kind, Refusal>
    ensures { Gives (λ kind. kind) result
        (all_alike (in_scope scope.now (map (expression_kind schema.now) operands.now))) }
{
    let Some((first, others)) = operands.split_first() else {
        return Ok(Kind::Integer);
    };
    let kind = judge(alloc, schema, scope, first)?;
    all(alloc, schema, scope, kind, others)
}

#[tactic(auto, using(crate::proofs::Refused::refused))]
#[cycle(judges)]
fn called(
    alloc: Global,
    schema: &Schema,
    scope: &[TableId],
    function: Func,
    operands: &[Expr],
) -> Result<Kind, Refusal>
    ensures { Gives (λ kind. kind) result
        (spec.call_kind function (in_scope scope.now (map (expression_kind schema.now) operands.now))) }
{
    match function {
        Func::Count => {
            first_kind(alloc, schema, scope, operands)?;
            Ok(Kind::Integer)
        }
        Func::Sum => all(alloc, schema, scope, Kind::Integer, operands),
        Func::Min | Func::Max | Func::Coalesce => first_kind(alloc, schema, scope, operands),
        Func::Lower | Func::Upper => all(alloc, schema, scope, Kind::Text, operands),
        Func::Length => {
            all(alloc, schema, scope, Kind::Text, operands)?;
            Ok(Kind::Integer)
        }
    }
}

/// The kind of an expression in a scope: the tables of the sources, the innermost last.
///
/// # Errors
/// `TypeMismatch`, the kind wanted and the kind found, at the first operand in reading order that is of another kind
/// than its place wants: comparisons, `in`, `between` and `coalesce` want the kind of their first operand, `+ - *`,
/// unary minus and `sum` integers, `||`, `like`, `lower`, `upper` and `length` texts, `and`, `or`, `not` and the
/// condition of `exists` booleans. Operands are read from left to right, and an operand's own mismatch comes before
/// that of the operator above it.
pub fn type_of(alloc: Global, schema: &Schema, scope: &[TableId], e: &Expr) -> Result<Kind, Refusal>
    ensures { Gives (λ kind. kind) result (expression_kind schema.now e.now scope.now) }
{
    judge(alloc, schema, scope, e)
}
