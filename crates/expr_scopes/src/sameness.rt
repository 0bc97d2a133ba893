//! Whether two expressions are one tree.

ghost use Rattle.std.specs.Prelude.{◌≡◌, ◌==◌, map};
ghost use Rattle.std.specs.Cmp.Lexicographic.{pointwise};
ghost use Rattle.base_core.specs.Order.{same_value};
ghost use Rattle.expr_types.specs.declared.expr.Expr.{out-Expr};
ghost use Rattle.expr_types.specs.declared.expr.Expr.TheOpen.{Expr-F};
ghost use Rattle.expr_types.specs.Same as spec;

use base_core::{Value, compare};
use expr_types::{CompareOp, Expr, Func, Origin};
use sqlite_items::Boxed;

fn same_operator(one: CompareOp, other: CompareOp) -> bool
    ensures { result ≡ (spec.compare_place one == spec.compare_place other) }
{
    one == other
}

fn same_function(one: Func, other: Func) -> bool
    ensures { result ≡ (spec.function_place one == spec.function_place other) }
{
    one == other
}

fn same_value(one: &Value, other: &Value) -> bool
    ensures { result ≡ same_value one.now other.now }
{
    compare(one, other).is_eq()
}

#[tactic(auto, using(schema_core::proofs::Steps::pair_steps))]
fn same_values(values: &[Value], others: &[Value]) -> bool
    ensures { result ≡ pointwise same_value values.now others.now }
{
    for (place, value) in values.iter().enumerate() {
        if place >= others.len() || !same_value(value, &others[place]) {
            return false;
        }
    }
    values.len() == others.len()
}

fn same_origin(one: &Origin, other: &Origin) -> bool
    ensures { result ≡ spec.same_origin one.now other.now }
{
    one.table == other.table && one.alias == other.alias
}

#[cycle(trees)]
fn alike(a: &Boxed<Expr>, b: &Boxed<Expr>) -> bool
    ensures { result ≡ spec.same a.now b.now }
{
    same(a.get(), b.get())
}

#[tactic(auto, using(schema_core::proofs::Steps::pair_steps))]
#[cycle(trees)]
fn all_alike(es: &[Expr], others: &[Expr]) -> bool
    ensures { result ≡ pointwise spec.same es.now others.now }
{
    for (place, e) in es.iter().enumerate() {
        if place >= others.len() || !same(e, &others[place]) {
            return false;
        }
    }
    es.len() == others.len()
}

#[tactic(auto, using(crate::proofs::Trees::told_lists))]
#[cycle(trees)]
fn is_and(es: &[Expr], other: &Expr) -> bool
    ensures { result ≡ spec.same_level (Expr-F.And (map spec.same es.now)) (out-Expr other.now) }
{
    match other {
        Expr::And(others) => all_alike(es, others.as_slice()),
        _ => false,
    }
}

#[tactic(auto, using(crate::proofs::Trees::told_lists))]
#[cycle(trees)]
fn is_or(es: &[Expr], other: &Expr) -> bool
    ensures { result ≡ spec.same_level (Expr-F.Or (map spec.same es.now)) (out-Expr other.now) }
{
    match other {
        Expr::Or(others) => all_alike(es, others.as_slice()),
        _ => false,
    }
}

#[tactic(auto, using(crate::proofs::Trees::told_lists))]
#[cycle(trees)]
fn is_call(function: Func, es: &[Expr], other: &Expr) -> bool
    ensures { result
        ≡ spec.same_level (Expr-F.Call function (map spec.same es.now)) (out-Expr other.now) }
{
    match other {
        Expr::Call(found, others) => {
            same_function(function, *found) && all_alike(es, others.as_slice())
        }
        _ => false,
    }
}

/// Whether two expressions are one tree.
#[tactic(auto, unfolding(expr_types::specs::Same::same), using(crate::proofs::Trees::of_lists))]
#[cycle(trees)]
pub fn same(e: &Expr, other: &Expr) -> bool
    ensures { result ≡ spec.same e.now other.now }
{
    match e {
        Expr::Column(source, column) => {
            matches!(other, Expr::Column(s, c) if *s == *source && *c == *column)
        }
        Expr::Lit(value) => matches!(other, Expr::Lit(v) if same_value(value, v)),
        Expr::Compare(op, a, b) => {
            matches!(other, Expr::Compare(o, c, d)
                if same_operator(*op, *o) && alike(a, c) && alike(b, d))
        }
        Expr::IsNull(negated, a) => {
            matches!(other, Expr::IsNull(n, c) if *negated == *n && alike(a, c))
        }
        Expr::And(es) => is_and(es.as_slice(), other),
        Expr::Or(es) => is_or(es.as_slice(), other),
        Expr::Not(a) => matches!(other, Expr::Not(c) if alike(a, c)),
        Expr::Arith(op, a, b) => {
            matches!(other, Expr::Arith(o, c, d) if *op == *o && alike(a, c) && alike(b, d))
        }
        Expr::Neg(a) => matches!(other, Expr::Neg(c) if alike(a, c)),
        Expr::Concat(a, b) => matches!(other, Expr::Concat(c, d) if alike(a, c) && alike(b, d)),
        Expr::Like(negated, a, b) => {
            matches!(other, Expr::Like(n, c, d) if *negated == *n && alike(a, c) && alike(b, d))
        }
        Expr::Ilike(negated, a, b) => {
            matches!(other, Expr::Ilike(n, c, d) if *negated == *n && alike(a, c) && alike(b, d))
        }
        Expr::InList(negated, a, values) => {
            matches!(other, Expr::InList(n, c, others)
                if *negated == *n
                    && alike(a, c)
                    && same_values(values.as_slice(), others.as_slice()))
        }
        Expr::Between(negated, a, low, high) => {
            matches!(other, Expr::Between(n, c, l, h)
                if *negated == *n && alike(a, c) && alike(low, l) && alike(high, h))
        }
        Expr::Distinct(negated, a, b) => {
            matches!(other, Expr::Distinct(n, c, d) if *negated == *n && alike(a, c) && alike(b, d))
        }
        Expr::Call(function, es) => is_call(*function, es.as_slice(), other),
        Expr::CountAll => matches!(other, Expr::CountAll),
        Expr::Exists(negated, origin, a) => {
            matches!(other, Expr::Exists(n, o, c)
                if *negated == *n && same_origin(origin, o) && alike(a, c))
        }
    }
}
