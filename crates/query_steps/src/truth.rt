//! Truth with three values: true, false, and not known, which is `None`.

ghost use Rattle.std.specs.Prelude.{◌≡◌, map};
ghost use Rattle.sql_semantics.specs.Truth as spec;

use base_core::Value;

/// NULL, and what is no truth value, is not known.
pub fn truth_of(value: &Value) -> Option<bool>
    ensures { result ≡ spec.truth_of value.now }
{
    match value {
        Value::Bool(b) => Some(*b),
        _ => None,
    }
}

/// The truth as a value; what is not known is NULL.
pub fn value_of(truth: Option<bool>) -> Value
    ensures { result ≡ spec.value_of truth }
{
    match truth {
        Some(b) => Value::Bool(b),
        None => Value::Null,
    }
}

/// A condition passes where it is true.
pub fn passes(value: &Value) -> bool
    ensures { result ≡ spec.passes value.now }
{
    match value {
        Value::Bool(b) => *b,
        _ => false,
    }
}

/// The opposite; that of what is not known is not known.
pub fn not3(truth: Option<bool>) -> Option<bool>
    ensures { result ≡ spec.not3 truth }
{
    match truth {
        Some(b) => Some(!b),
        None => None,
    }
}

/// The truth, or its opposite in a negated form.
pub fn signed(negated: bool, truth: Option<bool>) -> Option<bool>
    ensures { result ≡ spec.truth_or_opposite negated truth }
{
    if negated { not3(truth) } else { truth }
}

pub(crate) fn or3(a: Option<bool>, b: Option<bool>) -> Option<bool>
    ensures { result ≡ spec.or3 a b }
{
    match (a, b) {
        (Some(true), _) | (_, Some(true)) => Some(true),
        (Some(false), Some(false)) => Some(false),
        _ => None,
    }
}

pub(crate) fn and3(a: Option<bool>, b: Option<bool>) -> Option<bool>
    ensures { result ≡ spec.and3 a b }
{
    match (a, b) {
        (Some(false), _) | (_, Some(false)) => Some(false),
        (Some(true), Some(true)) => Some(true),
        _ => None,
    }
}

#[tactic(auto, using(crate::proofs::Truths::disjunctions))]
/// True where one of them is, false where all are false.
pub fn any3(values: &[Value]) -> Option<bool>
    ensures { result ≡ spec.any3 (map spec.truth_of values.now) }
{
    let mut found = Some(false);
    for value in values {
        found = or3(found, truth_of(value));
    }
    found
}

#[tactic(auto, using(crate::proofs::Truths::conjunctions))]
/// False where one of them is, true where all are true.
pub fn all3(values: &[Value]) -> Option<bool>
    ensures { result ≡ spec.all3 (map spec.truth_of values.now) }
{
    let mut found = Some(true);
    for value in values {
        found = and3(found, truth_of(value));
    }
    found
}
