//! The value of an expression.

ghost use Rattle.std.specs.Prelude.{◌≡◌, [], false, not, map, Some, Ok};
ghost use Rattle.std.specs.Option.{option_map, option_copied};
ghost use Rattle.base_core.specs.Answers.{Gives};
ghost use Rattle.base_core.specs.Order.{same_value};
ghost use Rattle.sql_semantics.specs.Eval as spec;
ghost use Rattle.sql_semantics.specs.Eval.{meaning_of};
ghost use Rattle.expr_eval.specs.Place.{place_of};
ghost use Rattle.table_rows.specs.Walks.{rows_left};
ghost use Rattle.sql_semantics.specs.Truth as truth;

use crate::scope::{Scope, counted, more_starts};
use crate::tried::rows_tried;
use base_core::{ArithOp, Copied, Refusal, RowValues, Value};
use expr_types::{CompareOp, Expr, Func, Origin};
use query_steps::{
    aggregated, all3, among, any3, applied, arithmetic, between, compared, concatenated, is_like,
    is_null, joined, known, negated, not3, passes, same, signed, truth_of, value_of,
};
use sqlite_items::{Boxed, Items};
use std::alloc::Global;
use table_rows::{LentTables, RowWalk};

/// The value of an expression in a scope. Operands are evaluated from left to right, with no short cut.
#[tactic(auto, unfolding(sql_semantics::specs::Eval::meaning_of))]
#[cycle(eval)]
pub fn value_in(alloc: Global, e: &Expr, scope: &Scope<'_>) -> Result<Value, Refusal>
    ensures { Gives (λ x. x) result (meaning_of e.now (place_of scope.now)) }
{
    match e {
        Expr::Column(source, column) => Ok(scope.column(*source, *column)?),
        Expr::Lit(value) => Ok(value.copied()?),
        Expr::Compare(op, a, b) => comparison(alloc, *op, a, b, scope),
        Expr::IsNull(negated, a) => null_test(alloc, *negated, a, scope),
        Expr::And(parts) => conjunction(alloc, parts, scope),
        Expr::Or(parts) => disjunction(alloc, parts, scope),
        Expr::Not(a) => opposite(alloc, a, scope),
        Expr::Arith(op, a, b) => calculation(alloc, *op, a, b, scope),
        Expr::Neg(a) => minus(alloc, a, scope),
        Expr::Concat(a, b) => concatenation(alloc, a, b, scope),
        Expr::Like(negated, a, b) => likeness(alloc, *negated, a, b, scope),
        Expr::Ilike(negated, a, b) => likeness(alloc, *negated, a, b, scope),
        Expr::InList(negated, a, list) => membership(alloc, *negated, a, list, scope),
        Expr::Between(negated, a, low, high) => range_test(alloc, *negated, a, low, high, scope),
        Expr::Distinct(negated, a, b) => difference(alloc, *negated, a, b, scope),
        Expr::Call(function, operands) => called(alloc, *function, operands, scope),
        Expr::CountAll => Ok(counted(scope.group)),
        Expr::Exists(negated, origin, condition) => {
            existence(alloc, *negated, origin, condition, scope)
        }
    }
}

/// The value of an expression at a row, without tables and groups: an `exists` finds nothing there, and an aggregate is NULL. `starts` has the
/// place in the row at which each source begins; a column that is not there is NULL. A result outside 64 bits is DataError, the first one met
/// from left to right, with its operator and operands: 0 and x for a unary minus.
pub fn eval<'x>(
    alloc: Global,
    e: &Expr,
    row: &'x RowValues,
    starts: &'x [u32],
) -> Result<Value, Refusal>
    ensures { Gives (λ x. x) result (meaning_of e.now (spec.at_row row.now starts.now)) }
{
    let scope = Scope {
        row: row.as_slice(),
        starts,
        tables: LentTables::Listed(&[]),
        group: None,
    };
    value_in(alloc, e, &scope)
}

#[cycle(eval)]
fn comparison(
    alloc: Global,
    op: CompareOp,
    a: &Boxed<Expr>,
    b: &Boxed<Expr>,
    scope: &Scope<'_>,
) -> Result<Value, Refusal>
    ensures { Gives (λ x. x) result
        (spec.two (meaning_of a.now) (meaning_of b.now)
        (λ x y. spec.truth (spec.comparison_truth op x y)) (place_of scope.now)) }
{
    let (x, y) = both(alloc, a, b, scope)?;
    Ok(value_of(compared(op, &x, &y)))
}

#[cycle(eval)]
fn null_test(
    alloc: Global,
    negated: bool,
    a: &Boxed<Expr>,
    scope: &Scope<'_>,
) -> Result<Value, Refusal>
    ensures { Gives (λ x. x) result
        (spec.one (meaning_of a.now)
        (λ x. spec.truth (truth.truth_or_opposite negated (Some (spec.is_null x)))) (place_of scope.now)) }
{
    let x = value_in(alloc, a.get(), scope)?;
    Ok(value_of(signed(negated, Some(is_null(&x)))))
}

#[cycle(eval)]
fn conjunction(alloc: Global, parts: &Items<Expr>, scope: &Scope<'_>) -> Result<Value, Refusal>
    ensures { Gives (λ x. x) result
        (spec.several (map meaning_of parts.now)
        (λ vs. spec.truth (truth.all3 (map truth.truth_of vs))) (place_of scope.now)) }
{
    let values = several(alloc, parts, scope)?;
    Ok(value_of(all3(&values)))
}

#[cycle(eval)]
fn disjunction(alloc: Global, parts: &Items<Expr>, scope: &Scope<'_>) -> Result<Value, Refusal>
    ensures { Gives (λ x. x) result
        (spec.several (map meaning_of parts.now)
        (λ vs. spec.truth (truth.any3 (map truth.truth_of vs))) (place_of scope.now)) }
{
    let values = several(alloc, parts, scope)?;
    Ok(value_of(any3(&values)))
}

#[cycle(eval)]
fn opposite(alloc: Global, a: &Boxed<Expr>, scope: &Scope<'_>) -> Result<Value, Refusal>
    ensures { Gives (λ x. x) result
        (spec.one (meaning_of a.now)
        (λ x. spec.truth (truth.not3 (truth.truth_of x))) (place_of scope.now)) }
{
    let x = value_in(alloc, a.get(), scope)?;
    Ok(value_of(not3(truth_of(&x))))
}

#[cycle(eval)]
fn calculation(
    alloc: Global,
    op: ArithOp,
    a: &Boxed<Expr>,
    b: &Boxed<Expr>,
    scope: &Scope<'_>,
) -> Result<Value, Refusal>
    ensures { Gives (λ x. x) result
        (spec.two (meaning_of a.now) (meaning_of b.now) (spec.arithmetic op) (place_of scope.now)) }
{
    let (x, y) = both(alloc, a, b, scope)?;
    arithmetic(op, &x, &y)
}

#[cycle(eval)]
fn minus(alloc: Global, a: &Boxed<Expr>, scope: &Scope<'_>) -> Result<Value, Refusal>
    ensures { Gives (λ x. x) result (spec.one (meaning_of a.now) spec.unary_minus (place_of scope.now)) }
{
    let x = value_in(alloc, a.get(), scope)?;
    negated(&x)
}

#[cycle(eval)]
fn concatenation(
    alloc: Global,
    a: &Boxed<Expr>,
    b: &Boxed<Expr>,
    scope: &Scope<'_>,
) -> Result<Value, Refusal>
    ensures { Gives (λ x. x) result
        (spec.two (meaning_of a.now) (meaning_of b.now)
        (λ x y. Ok (spec.concatenation_of x y)) (place_of scope.now)) }
{
    let (x, y) = both(alloc, a, b, scope)?;
    Ok(concatenated(alloc, &x, &y)?)
}

#[cycle(eval)]
fn likeness(
    alloc: Global,
    negated: bool,
    a: &Boxed<Expr>,
    b: &Boxed<Expr>,
    scope: &Scope<'_>,
) -> Result<Value, Refusal>
    ensures { Gives (λ x. x) result
        (spec.two (meaning_of a.now) (meaning_of b.now)
        (λ x y. spec.truth (truth.truth_or_opposite negated (spec.is_like x y))) (place_of scope.now)) }
{
    let (x, y) = both(alloc, a, b, scope)?;
    Ok(value_of(signed(negated, is_like(alloc, &x, &y)?)))
}

#[cycle(eval)]
fn membership(
    alloc: Global,
    negated: bool,
    a: &Boxed<Expr>,
    list: &RowValues,
    scope: &Scope<'_>,
) -> Result<Value, Refusal>
    ensures { Gives (λ x. x) result
        (spec.one (meaning_of a.now)
        (λ x. spec.truth (truth.truth_or_opposite negated (spec.among x list.now))) (place_of scope.now)) }
{
    let x = value_in(alloc, a.get(), scope)?;
    Ok(value_of(signed(negated, among(&x, list.as_slice()))))
}

#[cycle(eval)]
fn range_test(
    alloc: Global,
    negated: bool,
    a: &Boxed<Expr>,
    low: &Boxed<Expr>,
    high: &Boxed<Expr>,
    scope: &Scope<'_>,
) -> Result<Value, Refusal>
    ensures { Gives (λ x. x) result
        (spec.three (meaning_of a.now) (meaning_of low.now) (meaning_of high.now)
        (λ x y z. spec.truth (truth.truth_or_opposite negated (spec.between x y z))) (place_of scope.now)) }
{
    let x = value_in(alloc, a.get(), scope)?;
    let (y, z) = both(alloc, low, high, scope)?;
    Ok(value_of(signed(negated, between(&x, &y, &z))))
}

#[cycle(eval)]
fn difference(
    alloc: Global,
    negated: bool,
    a: &Boxed<Expr>,
    b: &Boxed<Expr>,
    scope: &Scope<'_>,
) -> Result<Value, Refusal>
    ensures { Gives (λ x. x) result
        (spec.two (meaning_of a.now) (meaning_of b.now)
        (λ x y. spec.truth (truth.truth_or_opposite negated (Some (not (same_value x y)))))
        (place_of scope.now)) }
{
    let (x, y) = both(alloc, a, b, scope)?;
    Ok(value_of(signed(negated, Some(!same(&x, &y)))))
}

#[cycle(eval)]
fn existence(
    alloc: Global,
    negated: bool,
    origin: &Origin,
    condition: &Boxed<Expr>,
    scope: &Scope<'_>,
) -> Result<Value, Refusal>
    ensures { Gives (λ x. x) result
        (spec.existence negated origin.now (meaning_of condition.now) (place_of scope.now)) }
{
    let rows = rows_tried(alloc, origin, condition.get(), scope)?;
    let found = some_row(alloc, condition, rows, scope)?;
    Ok(value_of(signed(negated, Some(found))))
}

#[cycle(eval)]
fn both(
    alloc: Global,
    a: &Boxed<Expr>,
    b: &Boxed<Expr>,
    scope: &Scope<'_>,
) -> Result<(Value, Value), Refusal>
    ensures { Gives (λ x. x) result
        (spec.pair (meaning_of a.now) (meaning_of b.now) (place_of scope.now)) }
{
    let x = value_in(alloc, a.get(), scope)?;
    let y = value_in(alloc, b.get(), scope)?;
    Ok((x, y))
}

#[cycle(eval)]
fn several(alloc: Global, parts: &Items<Expr>, scope: &Scope<'_>) -> Result<Vec<Value>, Refusal>
    ensures { Gives (λ v. v.items) result
        (spec.all_from (place_of scope.now) [] (map meaning_of parts.now)) }
{
    let mut values = Vec::new(alloc);
    for part in parts.as_slice() {
        values.push(value_in(alloc, part, scope)?)?;
    }
    Ok(values)
}

#[cycle(eval)]
fn called(
    alloc: Global,
    function: Func,
    operands: &Items<Expr>,
    scope: &Scope<'_>,
) -> Result<Value, Refusal>
    ensures { Gives (λ x. x) result
        (spec.call_meaning function (map meaning_of operands.now) (place_of scope.now)) }
{
    if function.is_aggregate() {
        let values = gathered(alloc, operands, scope)?;
        aggregated(function, values)
    } else {
        let values = several(alloc, operands, scope)?;
        Ok(applied(alloc, function, &values)?)
    }
}

// The values of the first operand at the group's rows, but for NULL.
#[tactic(auto, using(crate::proofs::Operands::gathered_some, crate::proofs::Operands::gathered_none))]
#[cycle(eval)]
fn gathered(
    alloc: Global,
    operands: &Items<Expr>,
    scope: &Scope<'_>,
) -> Result<Option<Vec<Value>>, Refusal>
    ensures { Gives (option_map (λ v. v.items)) result
        (spec.group_values (map meaning_of operands.now) (place_of scope.now)) }
{
    match operands.get(0) {
        Some(operand) => over(alloc, operand, scope),
        None => Ok(None),
    }
}

#[cycle(eval)]
fn over(alloc: Global, operand: &Expr, scope: &Scope<'_>) -> Result<Option<Vec<Value>>, Refusal>
    ensures { Gives (option_map (λ v. v.items)) result
        (spec.over (option_copied scope.now.group) (place_of scope.now) (meaning_of operand.now)) }
{
    let Some(rows) = scope.group else {
        return Ok(None);
    };
    let values = along(alloc, operand, rows, scope)?;
    Ok(Some(known(values)))
}

#[cycle(eval)]
fn along<'x>(
    alloc: Global,
    operand: &Expr,
    rows: &'x [RowValues],
    scope: &Scope<'x>,
) -> Result<Vec<Value>, Refusal>
    ensures { Gives (λ v. v.items) result
        (spec.along_from (spec.without_group (place_of scope.now))
        (meaning_of operand.now) [] rows.now) }
{
    let mut values = Vec::new(alloc);
    for row in rows {
        let at = Scope {
            row: row.as_slice(),
            starts: scope.starts,
            tables: scope.tables,
            group: None,
        };
        values.push(value_in(alloc, operand, &at)?)?;
    }
    Ok(values)
}

// All rows are tried.
#[cycle(eval)]
fn some_row(
    alloc: Global,
    condition: &Boxed<Expr>,
    rows: RowWalk<'_>,
    scope: &Scope<'_>,
) -> Result<bool, Refusal>
    ensures { Gives (λ x. x) result
        (spec.some_from (place_of scope.now) (meaning_of condition.now) false
        (rows_left rows.entry)) }
{
    let starts = more_starts(alloc, scope.starts, scope.row.len())?;
    let mut left = rows;
    let mut found = false;
    while let Some(row) = left.next_row() {
        let wide = joined(alloc, scope.row, row.as_slice())?;
        let inside = Scope {
            row: &wide,
            starts: &starts,
            tables: scope.tables,
            group: scope.group,
        };
        let value = value_in(alloc, condition.get(), &inside)?;
        found = found || passes(&value);
    }
    Ok(found)
}
