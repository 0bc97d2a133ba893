//! Lines of the block of a table.

ghost use Rattle.std.specs.Prelude.{◌≡◌, nat_le, if◌then◌else◌};
ghost use Rattle.std.specs.Option.{option_copied};
ghost use Rattle.script_tokens.specs.Input.{Reads, or_nothing};
ghost use Rattle.script_blocks.specs.Blocks as spec;

use schema_core::{ColumnKind, ColumnSpec, ForeignSpec};
use script_lex::{Content, Kind};
use script_tokens::names::{name, names};
use script_tokens::{Fault, Tokens};
use script_types::Command;
use std::alloc::Global;

fn within(n: u64) -> Option<u32>
    ensures { result ≡ (if nat_le n 4294967295 then Some n else None) }
{
    if n <= 4294967295 {
        Some(n as u32)
    } else {
        None
    }
}

fn number_in(content: Option<&Content>) -> Option<u32>
    ensures { result ≡ spec.length_in Kind.Number (or_nothing (option_copied content.entry)) }
{
    match content {
        Some(Content::Number(n)) => within(*n),
        _ => None,
    }
}

/// The length that a token of this kind and content is.
fn length_in(kind: Kind, content: Option<&Content>) -> Option<u32>
    ensures { result ≡ spec.length_in kind (or_nothing (option_copied content.entry)) }
{
    match kind {
        Kind::Number => number_in(content),
        _ => None,
    }
}

/// A varchar's length, at most 4294967295.
#[tactic(auto, unfolding(crate::specs::Blocks::text_length))]
fn text_length(tokens: &mut Tokens<'_>) -> Result<u32, Fault>
    ensures { Reads (spec.text_length tokens.old) result tokens.new }
{
    match length_in(tokens.kind(), tokens.content()) {
        Some(n) => {
            tokens.take();
            Ok(n)
        }
        None => Err(tokens.refuse()),
    }
}

#[tactic(auto, unfolding(crate::specs::Blocks::length_if_any))]
fn length_if_any(tokens: &mut Tokens<'_>) -> Result<Option<u32>, Fault>
    ensures { Reads (spec.length_if_any tokens.old) result tokens.new }
{
    if !tokens.eat(Kind::LParen) {
        return Ok(None);
    }
    let n = text_length(tokens)?;
    tokens.expect(Kind::RParen)?;
    Ok(Some(n))
}

#[tactic(auto, unfolding(crate::specs::Blocks::column_kind))]
fn column_kind(tokens: &mut Tokens<'_>) -> Result<ColumnKind, Fault>
    ensures { Reads (spec.column_kind tokens.old) result tokens.new }
{
    match tokens.kind() {
        Kind::Integer => {
            tokens.take();
            Ok(ColumnKind::Integer)
        }
        Kind::Varchar => {
            tokens.take();
            Ok(ColumnKind::Varchar(length_if_any(tokens)?))
        }
        Kind::Text => {
            tokens.take();
            Ok(ColumnKind::Text)
        }
        Kind::Boolean => {
            tokens.take();
            Ok(ColumnKind::Boolean)
        }
        Kind::Bytes => {
            tokens.take();
            Ok(ColumnKind::Bytes)
        }
        _ => Err(tokens.refuse()),
    }
}

/// Two words, where the first comes next.
fn both_words(tokens: &mut Tokens<'_>, first: Kind, second: Kind) -> Result<bool, Fault>
    ensures { Reads (spec.both_words first second tokens.old) result tokens.new }
{
    if !tokens.eat(first) {
        return Ok(false);
    }
    tokens.expect(second)?;
    Ok(true)
}

#[tactic(auto, unfolding(crate::specs::Blocks::column))]
fn column(tokens: &mut Tokens<'_>) -> Result<Command, Fault>
    ensures { Reads (spec.column tokens.old) result tokens.new }
{
    let name = name(tokens)?;
    let kind = column_kind(tokens)?;
    let key = both_words(tokens, Kind::Primary, Kind::Key)?;
    let not_null = both_words(tokens, Kind::Not, Kind::Null)?;
    Ok(Command::ColumnLine(ColumnSpec {
        name,
        kind,
        key,
        not_null,
    }))
}

#[tactic(auto, unfolding(crate::specs::Blocks::foreign))]
fn foreign(alloc: Global, tokens: &mut Tokens<'_>) -> Result<Command, Fault>
    ensures { Reads (spec.foreign tokens.old) result tokens.new }
{
    tokens.expect(Kind::Key)?;
    let columns = names(alloc, tokens)?;
    tokens.expect(Kind::References)?;
    let target = name(tokens)?;
    Ok(Command::ForeignLine(ForeignSpec { columns, target }))
}

/// A line of the block of a table.
#[tactic(auto, unfolding(crate::specs::Blocks::table_line))]
pub fn table_line(alloc: Global, tokens: &mut Tokens<'_>) -> Result<Command, Fault>
    ensures { Reads (spec.table_line tokens.old) result tokens.new }
{
    match tokens.kind() {
        Kind::End => {
            tokens.take();
            Ok(Command::End)
        }
        Kind::Unique => {
            tokens.take();
            Ok(Command::UniqueLine(names(alloc, tokens)?))
        }
        Kind::Foreign => {
            tokens.take();
            foreign(alloc, tokens)
        }
        _ => column(tokens),
    }
}
