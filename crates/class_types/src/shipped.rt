//! The tests of the four shipped validators.

ghost use Rattle.std.specs.Prelude.{◌≡◌, pos};
ghost use Rattle.class_types.specs.Rules.{obeys};

use crate::rule::{Rule, obeys};
use base_core::Value;

/// The test of `positive`, a validator of integers: at least 1.
pub fn is_positive(value: &Value) -> bool
    ensures { result ≡ obeys (Rule.AtLeast (pos 1)) value.now }
{
    obeys(Rule::AtLeast(1), value)
}

/// The test of `nonempty`, a validator of texts: at least 1 character.
pub fn is_nonempty(value: &Value) -> bool
    ensures { result ≡ obeys (Rule.MinLength 1) value.now }
{
    obeys(Rule::MinLength(1), value)
}

/// The test of `short`, a validator of texts: at most 40 characters.
pub fn is_short(value: &Value) -> bool
    ensures { result ≡ obeys (Rule.MaxLength 40) value.now }
{
    obeys(Rule::MaxLength(40), value)
}

/// The test of `has_at`, a validator of texts: the byte `@` stands in it.
pub fn has_at(value: &Value) -> bool
    ensures { result ≡ obeys (Rule.HasByte 64) value.now }
{
    obeys(Rule::HasByte(b'@'), value)
}
