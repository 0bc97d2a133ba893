//! The texts of values.

ghost use Rattle.std.specs.Prelude.{◌≡◌, Some};
ghost use Rattle.std.specs.Fmt.{DisplaysOnOk};
ghost use Rattle.std.specs.List.{flat_map};
ghost use Rattle.value_texts.specs.Values.{bytes_text, hex_byte, text_in_quotes, value_text, with_quotes_doubled, word_of};

use base_core::Value;
use std::fmt;

/// Writes a value: `null`, a decimal number, `'text'` with `'` doubled, `true` or `false`, `x'0aff'` in lower case.
#[derive(Drop)]
pub struct ValueText<'a>(pub &'a Value);

/// Writes the text with each of its quotes doubled.
fn write_doubled<W: fmt::Write>(f: &mut fmt::Formatter<W>, text: &str) -> fmt::Result
    ensures { DisplaysOnOk W.write_str_gives f.old result (Some (with_quotes_doubled text.now)) f.new }
{
    let mut rest = text;
    while let Some((before, after)) = rest.split_once('\'') {
        f.write_str(before)?;
        f.write_str("''")?;
        rest = after;
    }
    f.write_str(rest)
}

/// Writes two hexadecimal digits a byte.
fn write_hex<W: fmt::Write>(f: &mut fmt::Formatter<W>, bytes: &[u8]) -> fmt::Result
    ensures { DisplaysOnOk W.write_str_gives f.old result
        (Some (flat_map hex_byte bytes.now)) f.new }
{
    for byte in bytes {
        let high = *byte / 16;
        let low = *byte % 16;
        write!(f, "{high:x}{low:x}")?;
    }
    Ok(())
}

/// Writes a text in quotes.
fn write_quoted<W: fmt::Write>(f: &mut fmt::Formatter<W>, text: &str) -> fmt::Result
    ensures { DisplaysOnOk W.write_str_gives f.old result (Some (text_in_quotes text.now)) f.new }
{
    f.write_str("'")?;
    write_doubled(f, text)?;
    f.write_str("'")
}

/// Writes bytes as they are written in a script.
fn write_bytes<W: fmt::Write>(f: &mut fmt::Formatter<W>, bytes: &[u8]) -> fmt::Result
    ensures { DisplaysOnOk W.write_str_gives f.old result (Some (bytes_text bytes.now)) f.new }
{
    f.write_str("x'")?;
    write_hex(f, bytes)?;
    f.write_str("'")
}

/// The word that is written of NULL or of a boolean; nothing of other values.
fn word(value: &Value) -> &'static str
    ensures { result.now ≡ word_of value.now }
{
    match value {
        Value::Null => "null",
        Value::Bool(true) => "true",
        Value::Bool(false) => "false",
        Value::Int(_) | Value::Text(_) | Value::Bytes(_) => "",
    }
}

impl<'a> fmt::Display for ValueText<'a> {
    ghost output = { λ v. Some (value_text v.0.now) };

    fn fmt<W: fmt::Write>(&self, f: &mut fmt::Formatter<W>) -> fmt::Result {
        match self.0 {
            Value::Int(number) => write!(f, "{number}"),
            Value::Text(text) => write_quoted(f, text.get()),
            Value::Bytes(bytes) => write_bytes(f, bytes.get()),
            Value::Null | Value::Bool(_) => f.write_str(word(self.0)),
        }
    }
}
