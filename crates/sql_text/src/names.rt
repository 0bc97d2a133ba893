//! Names as a dialect writes them.

ghost use Rattle.std.specs.Prelude.{◌≡◌, ◌<◌, ◌++◌, ◌∷◌, [], IfOk, string_bytes, map, not};
ghost use Rattle.std.specs.List.{list_any};
ghost use Rattle.std.specs.Str.{bytes_eq};
ghost use Rattle.sql_text.specs.Names as spec;

use base_core::Dialect;
use std::alloc::{AllocError, Global};

/// The words that are quoted where they are names.
const RESERVED: [&str; 62] = [
    "all",
    "and",
    "as",
    "asc",
    "between",
    "by",
    "case",
    "check",
    "collate",
    "column",
    "constraint",
    "create",
    "cross",
    "default",
    "delete",
    "desc",
    "distinct",
    "drop",
    "else",
    "end",
    "except",
    "exists",
    "foreign",
    "from",
    "grant",
    "group",
    "having",
    "in",
    "index",
    "insert",
    "intersect",
    "into",
    "is",
    "join",
    "key",
    "left",
    "like",
    "limit",
    "natural",
    "not",
    "null",
    "offset",
    "on",
    "or",
    "order",
    "primary",
    "references",
    "right",
    "select",
    "set",
    "table",
    "then",
    "to",
    "union",
    "unique",
    "update",
    "user",
    "using",
    "values",
    "when",
    "where",
    "with",
];

fn has_word(words: &[&str], name: &str) -> bool
    ensures { result ≡ list_any (λ word. bytes_eq word.now name.now) words.now }
{
    words.iter().any(|word| *word == name)
}

/// Whether the name is a reserved word.
fn is_reserved(name: &str) -> bool
    ensures { result ≡ spec.is_reserved name.now }
{
    has_word(&RESERVED, name)
}

fn is_plain_byte(byte: u8) -> bool
    ensures { result ≡ spec.is_plain_byte byte }
{
    byte.is_ascii_lowercase() || byte.is_ascii_digit() || byte == b'_' || byte == b'$'
}

fn begins_plain(name: &[u8]) -> bool
    ensures { result ≡ spec.begins_plain name.now }
{
    match name {
        [] => false,
        [first, ..] => !first.is_ascii_digit() && *first != b'$',
    }
}

fn has_odd_byte(name: &[u8]) -> bool
    ensures { result ≡ list_any (λ byte. not (spec.is_plain_byte byte)) name.now }
{
    name.iter().any(|byte| !is_plain_byte(*byte))
}

/// Whether the name is quoted where it stands in a text.
#[tactic(auto, unfolding(crate::specs::Names::needs_quotes))]
pub(crate) fn needs_quotes(name: &str) -> bool
    ensures { result ≡ spec.needs_quotes name.now }
{
    !begins_plain(name.as_bytes()) || has_odd_byte(name.as_bytes()) || is_reserved(name)
}

fn quote_of(dialect: Dialect) -> char
    ensures quote { result ≡ spec.quote_of dialect }
    ensures ascii { result < 128 }
{
    match dialect {
        Dialect::Sqlite | Dialect::Postgresql => '"',
        Dialect::Mysql => '`',
    }
}

/// The text with each of these bytes doubled.
fn doubled(alloc: Global, mark: char, text: &str) -> Result<String, AllocError>
    requires { mark < 128 }
    ensures { IfOk result (λ shown. string_bytes shown ≡ spec.with_byte_doubled mark text.now) }
{
    let mut shown = String::new(alloc);
    let mut rest = text;
    while let Some((before, after)) = rest.split_once(mark) {
        shown.push_str(before)?;
        shown.push(mark)?;
        shown.push(mark)?;
        rest = after;
    }
    shown.push_str(rest)?;
    Ok(shown)
}

/// The text with `%` doubled, where the dialect's marks begin with it.
fn with_percents(alloc: Global, dialect: Dialect, text: &str) -> Result<String, AllocError>
    ensures { IfOk result (λ shown. string_bytes shown ≡ spec.with_percents dialect text.now) }
{
    match dialect {
        Dialect::Sqlite => String::from_str(alloc, text),
        Dialect::Postgresql | Dialect::Mysql => doubled(alloc, '%', text),
    }
}

/// The text between two of these marks.
fn enclosed_in(alloc: Global, mark: char, text: &str) -> Result<String, AllocError>
    requires { mark < 128 }
    ensures { IfOk result (λ shown. string_bytes shown ≡ mark ∷ text.now ++ mark ∷ []) }
{
    let mut shown = String::new(alloc);
    shown.push(mark)?;
    shown.push_str(text)?;
    shown.push(mark)?;
    Ok(shown)
}

/// The name in quotes.
pub(crate) fn quoted(alloc: Global, dialect: Dialect, name: &str) -> Result<String, AllocError>
    ensures { IfOk result (λ shown. string_bytes shown ≡ spec.quoted_name dialect name.now) }
{
    let quote = quote_of(dialect);
    let percents = with_percents(alloc, dialect, name)?;
    let inner = doubled(alloc, quote, percents.as_str())?;
    enclosed_in(alloc, quote, inner.as_str())
}

fn cleaned_byte(byte: u8) -> u8
    ensures cleaned { result ≡ spec.cleaned_byte byte }
    ensures ascii { result < 128 }
{
    if byte.is_ascii_lowercase()
        || byte.is_ascii_uppercase()
        || byte.is_ascii_digit()
        || byte == b'_'
    {
        byte
    } else {
        b'_'
    }
}

/// The base name of a mark: bytes other than letters, digits and `_` become `_`.
pub(crate) fn cleaned(alloc: Global, base: &str) -> Result<String, AllocError>
    ensures { IfOk result (λ clean. string_bytes clean ≡ map spec.cleaned_byte base.now) }
{
    let mut clean = String::new(alloc);
    for byte in base.as_bytes() {
        clean.push(cleaned_byte(*byte) as char)?;
    }
    Ok(clean)
}
