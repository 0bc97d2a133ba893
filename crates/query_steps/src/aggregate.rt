//! Aggregates, over the values of a group's rows.

ghost use Rattle.std.specs.Prelude.{◌≡◌, IfOk};
ghost use Rattle.std.specs.Option.{option_map};
ghost use Rattle.base_core.specs.Answers.{Gives};
ghost use Rattle.sql_semantics.specs.Eval as spec;

use crate::compare::{below, is_null};
use crate::number::arithmetic;
use base_core::{ArithOp, Copied, Refusal, Value};
use expr_types::Func;
use std::alloc::AllocError;

/// The values that are not NULL.
pub fn known(values: Vec<Value>) -> Vec<Value>
    ensures { result.items ≡ spec.known_values values.items }
{
    let mut values = values;
    values.retain(|value| !is_null(value));
    values
}

/// NULL for no values, else their sum from 0 on, in order.
pub(crate) fn total(values: &[Value]) -> Result<Value, Refusal>
    ensures { result ≡ spec.total values.now }
{
    if values.is_empty() {
        return Ok(Value::Null);
    }
    let mut sum = Value::Int(0);
    for value in values {
        sum = arithmetic(ArithOp::Add, &sum, value)?;
    }
    Ok(sum)
}

/// The first of the least values, NULL for none.
pub(crate) fn least(values: &[Value]) -> Result<Value, AllocError>
    ensures { IfOk result (λ v. v ≡ spec.least values.now) }
{
    let null = Value::Null;
    let mut best = &null;
    for value in values {
        if is_null(best) || below(value, best) {
            best = value;
        }
    }
    best.copied()
}

/// The first of the greatest values, NULL for none.
pub(crate) fn greatest(values: &[Value]) -> Result<Value, AllocError>
    ensures { IfOk result (λ v. v ≡ spec.greatest values.now) }
{
    let null = Value::Null;
    let mut best = &null;
    for value in values {
        if is_null(best) || below(best, value) {
            best = value;
        }
    }
    best.copied()
}

/// An aggregate of a group's values; NULL outside a group.
pub fn aggregated(function: Func, values: Option<Vec<Value>>) -> Result<Value, Refusal>
    ensures { Gives (λ x. x) result (spec.aggregate_value function (option_map (λ v. v.items) values)) }
{
    let Some(values) = values else {
        return Ok(Value::Null);
    };
    match function {
        Func::Count => Ok(Value::Int(values.len() as i64)),
        Func::Sum => total(&values),
        Func::Min => Ok(least(&values)?),
        Func::Max => Ok(greatest(&values)?),
        _ => Ok(Value::Null),
    }
}
