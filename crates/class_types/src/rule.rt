//! What a validator asks of a value.

ghost use Rattle.std.specs.Prelude.{◌≡◌, ◌==◌, ℤ, ℕ, int_le, length, nat_le};
ghost use Rattle.std.specs.List.{list_any};
ghost use Rattle.std.specs.Str.{chars};
ghost use Rattle.class_types.specs.Rules.{obeys};

use base_core::Value;

/// What a validator asks of a value.
#[derive(Clone, Copy, PartialEq, Eq)]
pub enum Rule {
    /// An integer of at least this.
    AtLeast(i64),
    /// A text of at least so many characters, or so many bytes.
    MinLength(u32),
    /// A text of at most so many characters, or at most so many bytes.
    MaxLength(u32),
    /// A text or bytes in which this byte stands.
    HasByte(u8),
}

/// How many characters a text has.
fn characters(text: &str) -> usize
    ensures { result ≡ length (chars text.now) }
{
    text.chars().count()
}

/// Whether a byte stands in a list of bytes.
fn has_byte(bytes: &[u8], byte: u8) -> bool
    ensures { result ≡ list_any (λ other. other == byte) bytes.now }
{
    bytes.iter().any(|other| *other == byte)
}

/// Whether the value is as the rule asks. A value of a kind of which the rule does not speak is not.
pub fn obeys(rule: Rule, value: &Value) -> bool
    ensures { result ≡ obeys rule value.now }
{
    match (rule, value) {
        (Rule::AtLeast(least), Value::Int(number)) => least <= *number,
        (Rule::MinLength(least), Value::Text(text)) => least as usize <= characters(text.get()),
        (Rule::MaxLength(most), Value::Text(text)) => characters(text.get()) <= most as usize,
        (Rule::HasByte(byte), Value::Text(text)) => has_byte(text.get().as_bytes(), byte),
        (Rule::MinLength(least), Value::Bytes(bytes)) => least as usize <= bytes.get().len(),
        (Rule::MaxLength(most), Value::Bytes(bytes)) => bytes.get().len() <= most as usize,
        (Rule::HasByte(byte), Value::Bytes(bytes)) => has_byte(bytes.get(), byte),
        _ => false,
    }
}
