//! What a token holds beside its kind.

ghost use Rattle.std.specs.Prelude.{◌≡◌, ◌<◌, ◌≤◌, ◌+◌, ◌-◌, ◌*◌, ◌^◌, min, length, false, string_bytes, IfOk};
ghost use Rattle.std.specs.Option.{option_map};
ghost use Rattle.std.specs.Str.{is_utf8 as utf8};
ghost use Rattle.script_lex.specs.Content as spec;

use crate::shape::{Class, past};
use crate::{Content, Kind};
use base_core::{Blob, Name, Text, Value};
use std::alloc::{AllocError, Global};
use std::str;

/// Two quotes become one.
fn undouble(alloc: Global, quote: u8, mut text: &[u8]) -> Result<Vec<u8>, AllocError>
    ensures { IfOk result (λ v. v.items ≡ spec.undouble quote false text.entry.now) }
{
    let mut plain = Vec::new(alloc);
    let mut is_second = false;
    while let [b, rest @ ..] = text {
        if !is_second {
            plain.push(*b)?;
        }
        is_second = !is_second && *b == quote;
        text = rest;
    }
    Ok(plain)
}

fn hex_digit(b: u8) -> u8
    ensures value { result ≡ spec.hex_digit b }
    ensures small { result < 16 }
{
    match b {
        b'0'..=b'9' => b - b'0',
        b'A'..=b'F' => b - b'A' + 10,
        b'a'..=b'f' => b - b'a' + 10,
        _ => 0,
    }
}

/// A byte for each two digits.
fn decoded(alloc: Global, mut digits: &[u8]) -> Result<Vec<u8>, AllocError>
    ensures { IfOk result (λ v. v.items ≡ spec.bytes_of_hex digits.entry.now) }
{
    let mut bytes = Vec::new(alloc);
    while let [high, low, rest @ ..] = digits {
        bytes.push(16 * hex_digit(*high) + hex_digit(*low))?;
        digits = rest;
    }
    Ok(bytes)
}

/// The number with one more digit, or the greatest value of the type for any above it.
fn with_digit(n: u64, b: u8) -> u64
    ensures { result ≡ min (n * 10 + (b - 48)) (2 ^ 64 - 1) }
{
    n.saturating_mul(10)
        .saturating_add(u64::from(b.saturating_sub(b'0')))
}

/// The value of the digits, or the greatest value of the type for any above it.
#[tactic(auto, using(crate::proofs::Capped::capped_step))]
fn number(digits: &[u8]) -> u64
    ensures { result ≡ spec.number digits.now }
{
    let mut n: u64 = 0;
    for b in digits {
        n = with_digit(n, *b);
    }
    n
}

fn is_utf8(bytes: &[u8]) -> bool
    ensures { result ≡ utf8 bytes.now }
{
    match str::from_utf8(bytes) {
        Ok(_) => true,
        Err(_) => false,
    }
}

/// The bytes as a string, where they are UTF-8.
#[tactic(auto, using(crate::proofs::Capped::utf8_known), unfolding(crate::specs::Content::if_utf8))]
fn string(bytes: Vec<u8>) -> Option<String>
    ensures { option_map string_bytes result ≡ spec.if_utf8 bytes.items }
{
    if is_utf8(bytes.as_slice()) {
        String::from_utf8(bytes).ok()
    } else {
        None
    }
}

fn name(bytes: Vec<u8>) -> Option<Content>
    ensures { result ≡ option_map Content.Name (spec.if_utf8 bytes.items) }
{
    match string(bytes) {
        Some(text) => Some(Content::Name(Name::new(text))),
        None => None,
    }
}

fn text(bytes: Vec<u8>) -> Option<Content>
    ensures { result ≡ option_map (λ t. Content.Literal (Value.Text t)) (spec.if_utf8 bytes.items) }
{
    match string(bytes) {
        Some(text) => Some(Content::Literal(Value::Text(Text::new(text)))),
        None => None,
    }
}

/// What the prefix of this length of a text holds as a token of this kind. There is none where a name or text is no UTF-8.
#[tactic(auto, unfolding(crate::specs::Content::content))]
pub fn content(
    alloc: Global,
    kind: Kind,
    len: usize,
    z: &[u8],
) -> Result<Option<Content>, AllocError>
    requires { len ≤ length z.now }
    ensures { IfOk result (λ c. c ≡ spec.content kind len z.now) }
{
    match kind {
        Kind::Quoted => Ok(name(undouble(alloc, b'"', inside(1, &z[..len]))?)),
        Kind::TextLiteral => Ok(text(undouble(alloc, b'\'', inside(1, &z[..len]))?)),
        Kind::BytesLiteral => Ok(Some(Content::Literal(Value::Bytes(Blob::new(decoded(
            alloc,
            inside(2, &z[..len]),
        )?))))),
        Kind::Number => Ok(Some(Content::Number(number(&z[..len])))),
        Kind::Signed => Ok(Some(Content::Number(number(signed_digits(z))))),
        _ => Ok(name(Vec::from_slice(alloc, &z[..len])?)),
    }
}

/// Without a prefix of this many bytes, and without the last byte.
fn inside(prefix: usize, text: &[u8]) -> &[u8]
    ensures { result.now ≡ spec.inside prefix text.now }
{
    let rest = &text[prefix.min(text.len())..];
    &rest[..rest.len().saturating_sub(1)]
}

/// The digits after a minus.
fn signed_digits(z: &[u8]) -> &[u8]
    ensures { result.now ≡ spec.signed_digits z.now }
{
    let digits = &z[1.min(z.len())..];
    &digits[..past(Class::Digit, digits, 0)]
}
