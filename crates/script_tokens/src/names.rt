//! Names, and lists of them.

ghost use Rattle.std.specs.Prelude.{◌≡◌, IfOk};
ghost use Rattle.std.specs.Option.{option_copied};
ghost use Rattle.script_tokens.specs.Input.{Reads, comma_list};
ghost use Rattle.script_tokens.specs.Names as spec;

use crate::lists::separated;
use crate::{Fault, Tokens};
use base_core::{Copied, ListOf, Name};
use script_lex::{Content, Kind};
use std::alloc::Global;

/// A word that is no name: one of expressions, or one of clauses.
fn is_reserved(kind: Kind) -> bool
    ensures { result ≡ spec.is_reserved kind }
{
    match kind {
        Kind::And
        | Kind::Or
        | Kind::Not
        | Kind::Like
        | Kind::Ilike
        | Kind::In
        | Kind::Between
        | Kind::Is
        | Kind::Exists
        | Kind::Null
        | Kind::True
        | Kind::False => true,
        Kind::Where
        | Kind::Order
        | Kind::Group
        | Kind::Having
        | Kind::Limit
        | Kind::Offset
        | Kind::Join
        | Kind::Left
        | Kind::On
        | Kind::From
        | Kind::As
        | Kind::With
        | Kind::By
        | Kind::Asc
        | Kind::Desc
        | Kind::Distinct => true,
        _ => false,
    }
}

/// A symbol.
fn is_symbol(kind: Kind) -> bool
    ensures { result ≡ spec.is_symbol kind }
{
    matches!(
        kind,
        Kind::LParen
            | Kind::RParen
            | Kind::LBracket
            | Kind::RBracket
            | Kind::Comma
            | Kind::Dot
            | Kind::Assign
            | Kind::Equal
            | Kind::NotEqual
            | Kind::Less
            | Kind::LessEqual
            | Kind::Greater
            | Kind::GreaterEqual
            | Kind::Plus
            | Kind::Minus
            | Kind::Star
            | Kind::Concat
    )
}

/// A literal, or the end of the line or of its tokens.
fn is_literal(kind: Kind) -> bool
    ensures { result ≡ spec.is_literal kind }
{
    matches!(
        kind,
        Kind::LineEnd
            | Kind::Bad
            | Kind::Number
            | Kind::Signed
            | Kind::TextLiteral
            | Kind::BytesLiteral
    )
}

/// All but quoted names and words that may be names.
#[tactic(auto, unfolding(crate::specs::Names::is_no_name))]
fn is_no_name(kind: Kind) -> bool
    ensures { result ≡ spec.is_no_name kind }
{
    is_reserved(kind) || is_symbol(kind) || is_literal(kind)
}

/// A name has 1 to 255 bytes.
fn has_length(name: &Name) -> bool
    ensures { result ≡ spec.has_length name.now }
{
    let len = name.get().len();
    1 <= len && len <= 255
}

/// The name that the next token is.
#[tactic(auto, unfolding(crate::specs::Names::next_name))]
fn called<'a>(tokens: &Tokens<'a>) -> Option<&'a Name>
    ensures { option_copied result ≡ spec.next_name tokens.now }
{
    match tokens.content() {
        Some(Content::Name(name)) if !is_no_name(tokens.kind()) && has_length(name) => Some(name),
        _ => None,
    }
}

/// A name.
#[tactic(auto, unfolding(crate::specs::Names::name))]
pub fn name(tokens: &mut Tokens<'_>) -> Result<Name, Fault>
    ensures { Reads (spec.name tokens.old) result tokens.new }
{
    match called(tokens) {
        Some(found) => {
            let name = found.copied()?;
            tokens.take();
            Ok(name)
        }
        None => Err(tokens.refuse()),
    }
}

fn name_list(alloc: Global, tokens: &mut Tokens<'_>) -> Result<ListOf<Name>, Fault>
    ensures { Reads (comma_list spec.name tokens.old) result tokens.new }
{
    separated(
        alloc,
        tokens,
        Kind::Comma,
        Vec::new(alloc),
        |_alloc, tokens| name(tokens),
    )
}

/// Names with commas between, in parentheses.
#[tactic(auto, unfolding(crate::specs::Names::names))]
pub fn names(alloc: Global, tokens: &mut Tokens<'_>) -> Result<ListOf<Name>, Fault>
    ensures { Reads (spec.names tokens.old) result tokens.new }
{
    tokens.expect(Kind::LParen)?;
    let found = name_list(alloc, tokens)?;
    tokens.expect(Kind::RParen)?;
    Ok(found)
}
