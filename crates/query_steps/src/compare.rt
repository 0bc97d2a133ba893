//! Comparisons, with NULL not known.

ghost use Rattle.std.specs.Prelude.{◌≡◌};
ghost use Rattle.base_core.specs.Order.{same_value};
ghost use Rattle.expr_types.specs.Normal as normal;
ghost use Rattle.sql_semantics.specs.Eval as spec;

use crate::truth::{and3, or3};
use base_core::{Value, compare};
use expr_types::CompareOp;

/// Whether it is NULL.
pub fn is_null(value: &Value) -> bool
    ensures { result ≡ spec.is_null value.now }
{
    match value {
        Value::Null => true,
        _ => false,
    }
}

/// NULL is the same as NULL here.
pub fn same(a: &Value, b: &Value) -> bool
    ensures { result ≡ same_value a.now b.now }
{
    compare(a, b).is_eq()
}

/// Whether the first comes before the second.
pub fn below(a: &Value, b: &Value) -> bool
    ensures { result ≡ spec.below a.now b.now }
{
    compare(a, b).is_lt()
}

fn ordered(op: CompareOp, a: &Value, b: &Value) -> bool
    ensures { result ≡ spec.comparison_holds op a.now b.now }
{
    match op {
        CompareOp::Equal => same(a, b),
        CompareOp::NotEqual => !same(a, b),
        CompareOp::Less => below(a, b),
        CompareOp::LessEqual => !below(b, a),
        CompareOp::Greater => below(b, a),
        CompareOp::GreaterEqual => !below(a, b),
    }
}

/// The operator that holds where this one does not.
pub fn opposite(op: CompareOp) -> CompareOp
    ensures { result ≡ normal.opposite op }
{
    match op {
        CompareOp::Equal => CompareOp::NotEqual,
        CompareOp::NotEqual => CompareOp::Equal,
        CompareOp::Less => CompareOp::GreaterEqual,
        CompareOp::LessEqual => CompareOp::Greater,
        CompareOp::Greater => CompareOp::LessEqual,
        CompareOp::GreaterEqual => CompareOp::Less,
    }
}

/// A comparison with NULL is not known.
pub fn compared(op: CompareOp, a: &Value, b: &Value) -> Option<bool>
    ensures { result ≡ spec.comparison_truth op a.now b.now }
{
    if is_null(a) || is_null(b) {
        None
    } else {
        Some(ordered(op, a, b))
    }
}

#[tactic(auto, using(crate::proofs::Truths::disjunctions))]
/// Whether the value is in the list: the `or` of its comparisons.
pub fn among(x: &Value, list: &[Value]) -> Option<bool>
    ensures { result ≡ spec.among x.now list.now }
{
    let mut found = Some(false);
    for value in list {
        if let Some(true) = found {
            return found;
        }
        found = or3(found, compared(CompareOp::Equal, x, value));
    }
    found
}

/// Whether low <= x <= high.
pub fn between(x: &Value, low: &Value, high: &Value) -> Option<bool>
    ensures { result ≡ spec.between x.now low.now high.now }
{
    and3(
        compared(CompareOp::GreaterEqual, x, low),
        compared(CompareOp::LessEqual, x, high),
    )
}
