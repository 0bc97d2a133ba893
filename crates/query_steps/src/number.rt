//! Integers of 64 bits.

ghost use Rattle.std.specs.Prelude.{◌≡◌};
ghost use Rattle.sql_semantics.specs.Eval as spec;

use base_core::{ArithOp, Refusal, Value};

/// The exact result; one outside 64 bits is refused with the operator and its operands.
pub(crate) fn calculated(op: ArithOp, a: i64, b: i64) -> Result<i64, Refusal>
    ensures { result ≡ spec.integer_result op a b }
{
    let exact = match op {
        ArithOp::Add => a.checked_add(b),
        ArithOp::Sub => a.checked_sub(b),
        ArithOp::Mul => a.checked_mul(b),
    };
    match exact {
        Some(n) => Ok(n),
        None => Err(Refusal::DataError(op, a, b)),
    }
}

/// NULL where an operand is.
pub fn arithmetic(op: ArithOp, a: &Value, b: &Value) -> Result<Value, Refusal>
    ensures { result ≡ spec.arithmetic op a.now b.now }
{
    match (a, b) {
        (Value::Int(x), Value::Int(y)) => Ok(Value::Int(calculated(op, *x, *y)?)),
        _ => Ok(Value::Null),
    }
}

/// 0 minus the value.
pub fn negated(a: &Value) -> Result<Value, Refusal>
    ensures { result ≡ spec.unary_minus a.now }
{
    match a {
        Value::Int(x) => Ok(Value::Int(calculated(ArithOp::Sub, 0, *x)?)),
        _ => Ok(Value::Null),
    }
}
