//! All tokens of a line.

ghost use Rattle.std.specs.Prelude.{◌≡◌, ◌≢◌, ◌<◌, ◌≤◌, ◌+◌, length, drop, IfOk, true, false};
ghost use Rattle.script_lex.specs.Lex as spec;

use crate::content::content;
use crate::shape::token_prefix;
use crate::{Content, Kind, Token};
use std::alloc::{AllocError, Global};

pub fn same_kind(a: Kind, b: Kind) -> bool
    ensures value { result ≡ spec.same_kind a b }
    ensures same { result ≡ true → a ≡ b }
    ensures other { result ≡ false → a ≢ b }
{
    a == b
}

/// Whether a byte stands between tokens.
fn is_blank(b: u8) -> bool
    ensures { result ≡ spec.is_blank b }
{
    b == b' ' || b == b'\t'
}

/// A line of blanks alone, or one whose first other byte is `#`.
pub fn skipped(mut line: &[u8]) -> bool
    ensures { result ≡ spec.is_ignored line.entry.now }
{
    while let [b, rest @ ..] = line {
        if !is_blank(*b) {
            return *b == b'#';
        }
        line = rest;
    }
    true
}

/// The first token of a text that begins with no blank, and its length. Its kind is `Bad` where no token begins there.
#[tactic(auto, unfolding(crate::specs::Lex::first_token))]
fn cut(alloc: Global, z: &[u8], at: usize) -> Result<(Token, usize), AllocError>
    requires { 0 < length z.now }
    ensures value { IfOk result (λ t. t ≡ spec.first_token at z.now) }
    ensures within { IfOk result (λ t. (1 ≤ t.1) × (t.1 ≤ length z.now)) }
{
    let (kind, len) = token_prefix(z);
    match content(alloc, kind, len, z)? {
        Some(content) => Ok((Token { kind, content, at }, len)),
        None => Ok((
            Token {
                kind: Kind::Bad,
                content: Content::Nothing,
                at,
            },
            1,
        )),
    }
}

/// The text without its first bytes.
fn behind(z: &[u8], n: usize) -> &[u8]
    requires { n ≤ length z.now }
    ensures { result.now ≡ drop n z.now }
{
    &z[n..]
}

/// The tokens of a line in their order. The last one is the end of the line, or `Bad` at the first byte that begins no token.
///
/// The only error is that memory ran out.
#[tactic(auto, using(crate::proofs::TokensGo::tokens_step, crate::proofs::TokensGo::tokens_end), unfolding(crate::specs::Lex::tokens))]
pub fn tokens(alloc: Global, line: &[u8]) -> Result<Vec<Token>, AllocError>
    ensures { IfOk result (λ v. v.items ≡ spec.tokens line.now) }
{
    let mut found = Vec::new(alloc);
    let mut rest = line;
    let mut at = 0;
    while let [b, after @ ..] = rest {
        if is_blank(*b) {
            at += 1;
            rest = after;
        } else {
            let (token, len) = cut(alloc, rest, at)?;
            let is_bad = same_kind(token.kind, Kind::Bad);
            found.push(token)?;
            if is_bad {
                return Ok(found);
            }
            at += len;
            rest = behind(rest, len);
        }
    }
    found.push(Token {
        kind: Kind::LineEnd,
        content: Content::Nothing,
        at,
    })?;
    Ok(found)
}
