//! Literals, and lists of them.

ghost use Rattle.std.specs.Prelude.{◌≡◌, ◌^◌, nat_lt, if◌then◌else◌, IfOk};
ghost use Rattle.std.specs.Option.{option_copied};
ghost use Rattle.script_tokens.specs.Input.{Reads, or_nothing};
ghost use Rattle.script_tokens.specs.Literals as spec;

use crate::lists::separated;
use crate::{Fault, Tokens};
use base_core::{Copied, RowValues, Value};
use script_lex::{Content, Kind, same_kind};
use std::alloc::{AllocError, Global};

/// One past the greatest integer.
const LIMIT: u64 = 9223372036854775808;

fn positive(n: u64) -> Option<Value>
    ensures { result ≡ spec.positive n }
{
    if n < LIMIT {
        Some(Value::Int(n as i64))
    } else {
        None
    }
}

fn negative(n: u64) -> Option<Value>
    ensures { result ≡ spec.negative n }
{
    if n < LIMIT {
        Some(Value::Int(-(n as i64)))
    } else if n == LIMIT {
        Some(Value::Int(i64::MIN))
    } else {
        None
    }
}

fn number_by(kind: Kind, n: u64) -> Option<Value>
    ensures { result ≡ spec.number_by kind n }
{
    match kind {
        Kind::Number => positive(n),
        Kind::Signed => negative(n),
        _ => None,
    }
}

fn quoted_by(kind: Kind, value: &Value) -> Result<Option<Value>, AllocError>
    ensures { IfOk result (λ found. found ≡ spec.quoted_by kind value.now) }
{
    match kind {
        Kind::TextLiteral | Kind::BytesLiteral => Ok(Some(value.copied()?)),
        _ => Ok(None),
    }
}

fn truth_by(kind: Kind) -> Option<Value>
    ensures { result ≡ spec.truth_by kind }
{
    match kind {
        Kind::True => Some(Value::Bool(true)),
        Kind::False => Some(Value::Bool(false)),
        _ => None,
    }
}

/// The value of the literal that begins with the next token.
#[tactic(auto, unfolding(crate::specs::Literals::next_literal))]
fn written(tokens: &Tokens<'_>) -> Result<Option<Value>, AllocError>
    ensures { IfOk result (λ found. found ≡ spec.next_literal tokens.now) }
{
    match tokens.content() {
        Some(Content::Number(n)) => Ok(number_by(tokens.kind(), *n)),
        Some(Content::Literal(value)) => quoted_by(tokens.kind(), value),
        Some(Content::Name(_)) => Ok(truth_by(tokens.kind())),
        _ => Ok(None),
    }
}

/// Goes past a literal, in which a minus before digits is a token of its own.
#[tactic(auto, unfolding(crate::specs::Literals::past_literal))]
fn take_literal(tokens: &mut Tokens<'_>)
    ensures { tokens.new ≡ spec.past_literal tokens.old }
{
    if same_kind(tokens.kind(), Kind::Signed) {
        tokens.take();
        tokens.take();
        return;
    }
    tokens.take();
}

/// A number, text, bytes, `true` or `false`.
#[tactic(auto, unfolding(crate::specs::Literals::literal))]
pub fn literal(tokens: &mut Tokens<'_>) -> Result<Value, Fault>
    ensures { Reads (spec.literal tokens.old) result tokens.new }
{
    match written(tokens)? {
        Some(value) => {
            take_literal(tokens);
            Ok(value)
        }
        None => Err(tokens.refuse()),
    }
}

/// Whether a token of this kind begins a literal.
pub fn begins_literal(kind: Kind) -> bool
    ensures { result ≡ spec.begins_literal kind }
{
    matches!(
        kind,
        Kind::Number
            | Kind::Signed
            | Kind::TextLiteral
            | Kind::BytesLiteral
            | Kind::True
            | Kind::False
    )
}

fn within(n: u64) -> Option<u64>
    ensures { result ≡ (if nat_lt n (2 ^ 63) then Some n else None) }
{
    if n < LIMIT { Some(n) } else { None }
}

fn number_in(content: Option<&Content>) -> Option<u64>
    ensures { result ≡ spec.whole_number Kind.Number (or_nothing (option_copied content.entry)) }
{
    match content {
        Some(Content::Number(n)) => within(*n),
        _ => None,
    }
}

/// The number without a minus that a token of this kind and content is.
fn whole_number(kind: Kind, content: Option<&Content>) -> Option<u64>
    ensures { result ≡ spec.whole_number kind (or_nothing (option_copied content.entry)) }
{
    match kind {
        Kind::Number => number_in(content),
        _ => None,
    }
}

/// A number without a minus, within 64 bits.
#[tactic(auto, unfolding(crate::specs::Literals::int))]
pub fn int(tokens: &mut Tokens<'_>) -> Result<u64, Fault>
    ensures { Reads (spec.int tokens.old) result tokens.new }
{
    match whole_number(tokens.kind(), tokens.content()) {
        Some(n) => {
            tokens.take();
            Ok(n)
        }
        None => Err(tokens.refuse()),
    }
}

/// `null`, or a literal.
#[tactic(auto, unfolding(crate::specs::Literals::value))]
pub fn value(tokens: &mut Tokens<'_>) -> Result<Value, Fault>
    ensures { Reads (spec.value tokens.old) result tokens.new }
{
    if tokens.eat(Kind::Null) {
        Ok(Value::Null)
    } else {
        literal(tokens)
    }
}

/// Literals with commas between.
#[tactic(auto, unfolding(crate::specs::Literals::literals))]
pub fn literals(alloc: Global, tokens: &mut Tokens<'_>) -> Result<RowValues, Fault>
    ensures { Reads (spec.literals tokens.old) result tokens.new }
{
    separated(
        alloc,
        tokens,
        Kind::Comma,
        Vec::new(alloc),
        |_alloc, tokens| literal(tokens),
    )
}

/// Literals or `null`, with commas between.
#[tactic(auto, unfolding(crate::specs::Literals::values))]
pub fn values(alloc: Global, tokens: &mut Tokens<'_>) -> Result<RowValues, Fault>
    ensures { Reads (spec.values tokens.old) result tokens.new }
{
    separated(
        alloc,
        tokens,
        Kind::Comma,
        Vec::new(alloc),
        |_alloc, tokens| value(tokens),
    )
}
