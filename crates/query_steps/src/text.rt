//! Texts.

ghost use Rattle.std.specs.Prelude.{pos, ◌≡◌, IfOk, length};
ghost use Rattle.std.specs.Str.{chars};
ghost use Rattle.sql_semantics.specs.Eval as spec;

use crate::pattern::like;
use base_core::{Text, Value};
use std::alloc::{AllocError, Global};

/// Both texts, one after another.
pub fn concatenated(alloc: Global, a: &Value, b: &Value) -> Result<Value, AllocError>
    ensures { IfOk result (λ v. v ≡ spec.concatenation_of a.now b.now) }
{
    match (a, b) {
        (Value::Text(x), Value::Text(y)) => {
            let mut text = String::from_str(alloc, x.get())?;
            text.push_str(y.get())?;
            Ok(Value::Text(Text::new(text)))
        }
        _ => Ok(Value::Null),
    }
}

/// The text with ASCII letters in lower case.
pub(crate) fn lowered(alloc: Global, value: &Value) -> Result<Value, AllocError>
    ensures { IfOk result (λ v. v ≡ spec.lower_case value.now) }
{
    match value {
        Value::Text(t) => {
            let mut text = String::from_str(alloc, t.get())?;
            text.make_ascii_lowercase();
            Ok(Value::Text(Text::new(text)))
        }
        _ => Ok(Value::Null),
    }
}

/// The text with ASCII letters in upper case.
pub(crate) fn raised(alloc: Global, value: &Value) -> Result<Value, AllocError>
    ensures { IfOk result (λ v. v ≡ spec.upper_case value.now) }
{
    match value {
        Value::Text(t) => {
            let mut text = String::from_str(alloc, t.get())?;
            text.make_ascii_uppercase();
            Ok(Value::Text(Text::new(text)))
        }
        _ => Ok(Value::Null),
    }
}

/// How many characters the text has.
pub(crate) fn text_length(value: &Value) -> Value
    ensures { result ≡ spec.text_length value.now }
{
    match value {
        Value::Text(t) => Value::Int(characters(t.get())),
        _ => Value::Null,
    }
}

fn characters(text: &str) -> i64
    ensures { result ≡ pos (length (chars text.now)) }
{
    text.chars().count() as i64
}

/// Whether the first text is like the second.
pub fn is_like(alloc: Global, text: &Value, pattern: &Value) -> Result<Option<bool>, AllocError>
    ensures { IfOk result (λ t. t ≡ spec.is_like text.now pattern.now) }
{
    match (text, pattern) {
        (Value::Text(t), Value::Text(p)) => Ok(Some(like(alloc, t.get(), p.get())?)),
        _ => Ok(None),
    }
}
