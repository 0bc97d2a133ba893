//! The kind and the length of the token that a text begins with.

ghost use Rattle.std.specs.Prelude.{◌≡◌, ◌≢◌, ◌<◌, ◌≤◌, ◌+◌, length, map, slice_index, IfSome, true, false};
ghost use Rattle.script_lex.specs.Shape as spec;

use crate::Kind;
use crate::kind::WORDS;

/// Bytes of which a token may have many.
#[derive(Clone, Copy)]
pub enum Class {
    Digit,
    Hex,
    Word,
}

pub fn is_in(class: Class, b: u8) -> bool
    ensures { result ≡ spec.is_in class b }
{
    match class {
        Class::Digit => b.is_ascii_digit(),
        Class::Hex => b.is_ascii_hexdigit(),
        Class::Word => b.is_ascii_alphanumeric() || b == b'_',
    }
}

fn byte(z: &[u8], at: usize) -> u8
    ensures value { result ≡ slice_index z.now at }
    ensures within { result ≢ 0 → at < length z.now }
{
    if at < z.len() { z[at] } else { 0 }
}

/// The first place from `at` on whose byte is not of the class.
pub fn past(class: Class, z: &[u8], at: usize) -> usize
    requires { at ≤ length z.now }
    ensures value { result ≡ spec.past class z.now at }
    ensures within { (at ≤ result) × (result ≤ length z.now) }
    ensures moves { at < length z.now → spec.is_in class (slice_index z.now at) ≡ true
        → at < result }
{
    let mut end = at;
    while end < z.len() && is_in(class, z[end]) {
        end += 1;
    }
    end
}

fn lookup(mut table: &[(&[u8], Kind)], word: &[u8]) -> Kind
    ensures { result ≡ spec.lookup (map (λ k. (k.0.now, k.1)) table.entry.now) word.now }
{
    while let [entry, rest @ ..] = table {
        if entry.0 == word {
            return entry.1;
        }
        table = rest;
    }
    Kind::Other
}

#[tactic(auto, unfolding(crate::specs::Shape::keyword))]
fn keyword(word: &[u8]) -> Kind
    ensures { result ≡ spec.keyword word.now }
{
    lookup(&WORDS, word)
}

fn word(z: &[u8]) -> (Kind, usize)
    requires { spec.is_in Class.Word (slice_index z.now 0) ≡ true }
    ensures value { result ≡ spec.word z.now }
    ensures within { (1 ≤ result.1) × (result.1 ≤ length z.now) }
{
    let end = past(Class::Word, z, 0);
    (keyword(&z[..end]), end)
}

fn closing(quote: u8, mut z: &[u8]) -> Option<usize>
    ensures value { result ≡ spec.quote_end quote false 1 z.entry.now }
    ensures within { IfSome result (λ end. (1 ≤ end) × (end ≤ length z.entry.now + 1)) }
{
    let mut is_second = false;
    let mut at = 1;
    while let [b, rest @ ..] = z {
        if !is_second && *b == quote && byte(rest, 0) != quote {
            return Some(at + 1);
        }
        is_second = !is_second && *b == quote;
        at += 1;
        z = rest;
    }
    None
}

fn quoted(kind: Kind, z: &[u8]) -> (Kind, usize)
    requires { 0 < length z.now }
    ensures value { result ≡ spec.quoted_prefix kind z.now }
    ensures within { (1 ≤ result.1) × (result.1 ≤ length z.now) }
{
    match closing(z[0], &z[1..]) {
        None => (Kind::Bad, 1),
        Some(end) => (kind, end),
    }
}

fn less(next: u8) -> (Kind, usize)
    ensures value { result ≡ spec.less next }
    ensures within { spec.IsShort next result.1 }
{
    if next == b'=' {
        (Kind::LessEqual, 2)
    } else {
        (Kind::Less, 1)
    }
}

fn greater(next: u8) -> (Kind, usize)
    ensures value { result ≡ spec.greater next }
    ensures within { spec.IsShort next result.1 }
{
    if next == b'=' {
        (Kind::GreaterEqual, 2)
    } else {
        (Kind::Greater, 1)
    }
}

fn equal(next: u8) -> (Kind, usize)
    ensures value { result ≡ spec.equal next }
    ensures within { spec.IsShort next result.1 }
{
    if next == b'=' {
        (Kind::Equal, 2)
    } else {
        (Kind::Assign, 1)
    }
}

fn minus(next: u8) -> Kind
    ensures { result ≡ spec.minus next }
{
    if next.is_ascii_digit() {
        Kind::Signed
    } else {
        Kind::Minus
    }
}

fn single(b: u8) -> Kind
    ensures { result ≡ spec.single b }
{
    match b {
        b'(' => Kind::LParen,
        b')' => Kind::RParen,
        b'[' => Kind::LBracket,
        b']' => Kind::RBracket,
        b',' => Kind::Comma,
        b'.' => Kind::Dot,
        b'+' => Kind::Plus,
        b'*' => Kind::Star,
        _ => Kind::Bad,
    }
}

#[tactic(auto, unfolding(crate::specs::Shape::symbol))]
fn symbol(b: u8, next: u8) -> (Kind, usize)
    ensures value { result ≡ spec.symbol b next }
    ensures within { spec.IsShort next result.1 }
{
    match b {
        b'<' => less(next),
        b'>' => greater(next),
        b'=' => equal(next),
        b'!' if next == b'=' => (Kind::NotEqual, 2),
        b'|' if next == b'|' => (Kind::Concat, 2),
        b'-' => (minus(next), 1),
        _ => (single(b), 1),
    }
}

/// `x'`, hexadecimal digits of an even number, and a quote.
fn is_bytes(z: &[u8]) -> bool
    ensures value { result ≡ spec.is_bytes z.now }
    ensures within { result ≡ true → spec.past Class.Hex z.now 2 < length z.now }
{
    if byte(z, 0) != b'x' || byte(z, 1) != b'\'' {
        return false;
    }
    let end = past(Class::Hex, z, 2);
    byte(z, end) == b'\'' && end % 2 == 0
}

/// The kind of the longest prefix of a text that is a token, and its length in bytes. The text begins with no blank.
#[tactic(auto, unfolding(crate::specs::Shape::token_prefix))]
pub fn token_prefix(z: &[u8]) -> (Kind, usize)
    requires { 0 < length z.now }
    ensures value { result ≡ spec.token_prefix z.now }
    ensures within { (1 ≤ result.1) × (result.1 ≤ length z.now) }
{
    let b = z[0];
    if is_bytes(z) {
        (Kind::BytesLiteral, past(Class::Hex, z, 2) + 1)
    } else if b.is_ascii_digit() {
        (Kind::Number, past(Class::Digit, z, 0))
    } else if is_in(Class::Word, b) {
        word(z)
    } else if b == b'"' {
        quoted(Kind::Quoted, z)
    } else if b == b'\'' {
        quoted(Kind::TextLiteral, z)
    } else {
        symbol(b, byte(z, 1))
    }
}
