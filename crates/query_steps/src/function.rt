//! Functions of several values.

ghost use Rattle.std.specs.Prelude.{◌≡◌, IfOk};
ghost use Rattle.sql_semantics.specs.Eval as spec;

use crate::compare::is_null;
use crate::text::{lowered, raised, text_length};
use base_core::{Copied, Value};
use expr_types::Func;
use std::alloc::{AllocError, Global};

/// A function that is no aggregate, of the values of its operands.
pub fn applied(alloc: Global, function: Func, values: &[Value]) -> Result<Value, AllocError>
    ensures { IfOk result (λ v. v ≡ spec.function_value function values.now) }
{
    match function {
        Func::Coalesce => first_known(values),
        _ => of_first(alloc, function, values),
    }
}

fn of_first(alloc: Global, function: Func, values: &[Value]) -> Result<Value, AllocError>
    ensures { IfOk result (λ v. v ≡ spec.of_text function (spec.first_of values.now)) }
{
    let Some(value) = values.first() else {
        return Ok(Value::Null);
    };
    match function {
        Func::Lower => lowered(alloc, value),
        Func::Upper => raised(alloc, value),
        Func::Length => Ok(text_length(value)),
        _ => Ok(Value::Null),
    }
}

fn first_known(values: &[Value]) -> Result<Value, AllocError>
    ensures { IfOk result (λ v. v ≡ spec.first_known values.now) }
{
    for value in values {
        if !is_null(value) {
            return value.copied();
        }
    }
    Ok(Value::Null)
}
