//! Bulk statements.

ghost use Rattle.std.specs.Prelude.{◌≡◌};
ghost use Rattle.script_tokens.specs.Input.{Reads};
ghost use Rattle.script_select.specs.Bulk as spec;

use crate::select::{condition, expression, unboxed};
use base_core::{ListOf, Name, RowValues};
use script_lex::Kind;
use script_tokens::lists::separated;
use script_tokens::literals::values;
use script_tokens::names::{name, names};
use script_tokens::{Fault, Tokens};
use script_types::{Syn, SynBulk};
use std::alloc::Global;

#[tactic(auto, unfolding(crate::specs::Bulk::null_or_expression))]
fn assigned(alloc: Global, tokens: &mut Tokens<'_>) -> Result<Option<Syn>, Fault>
    ensures { Reads (spec.null_or_expression tokens.old) result tokens.new }
{
    if tokens.eat(Kind::Null) {
        Ok(None)
    } else {
        Ok(Some(expression(alloc, tokens)?))
    }
}

#[tactic(auto, unfolding(crate::specs::Bulk::cell))]
fn cell(alloc: Global, tokens: &mut Tokens<'_>) -> Result<(Name, Option<Syn>), Fault>
    ensures { Reads (spec.cell tokens.old) result tokens.new }
{
    let column = name(tokens)?;
    tokens.expect(Kind::Assign)?;
    let value = assigned(alloc, tokens)?;
    Ok((column, value))
}

#[tactic(auto, unfolding(crate::specs::Bulk::cells))]
fn cells(alloc: Global, tokens: &mut Tokens<'_>) -> Result<ListOf<(Name, Option<Syn>)>, Fault>
    ensures { Reads (spec.cells tokens.old) result tokens.new }
{
    separated(alloc, tokens, Kind::Comma, Vec::new(alloc), cell)
}

/// Values with commas between, in parentheses.
#[tactic(auto, unfolding(crate::specs::Bulk::row))]
fn row(alloc: Global, tokens: &mut Tokens<'_>) -> Result<RowValues, Fault>
    ensures { Reads (spec.row tokens.old) result tokens.new }
{
    tokens.expect(Kind::LParen)?;
    let found = values(alloc, tokens)?;
    tokens.expect(Kind::RParen)?;
    Ok(found)
}

#[tactic(auto, unfolding(crate::specs::Bulk::insert))]
fn insert(alloc: Global, tokens: &mut Tokens<'_>) -> Result<SynBulk, Fault>
    ensures { Reads (spec.insert tokens.old) result tokens.new }
{
    let table = name(tokens)?;
    let columns = names(alloc, tokens)?;
    tokens.expect(Kind::Values)?;
    let values = row(alloc, tokens)?;
    Ok(SynBulk::Insert {
        table,
        columns,
        values,
    })
}

#[tactic(auto, unfolding(crate::specs::Bulk::update))]
fn update(alloc: Global, tokens: &mut Tokens<'_>) -> Result<SynBulk, Fault>
    ensures { Reads (spec.update tokens.old) result tokens.new }
{
    let table = name(tokens)?;
    tokens.expect(Kind::Set)?;
    let cells = cells(alloc, tokens)?;
    let filter = condition(alloc, tokens, Kind::Where)?;
    Ok(SynBulk::Update {
        table,
        cells,
        filter: unboxed(filter),
    })
}

#[tactic(auto, unfolding(crate::specs::Bulk::delete))]
fn delete(alloc: Global, tokens: &mut Tokens<'_>) -> Result<SynBulk, Fault>
    ensures { Reads (spec.delete tokens.old) result tokens.new }
{
    let table = name(tokens)?;
    let filter = condition(alloc, tokens, Kind::Where)?;
    Ok(SynBulk::Delete {
        table,
        filter: unboxed(filter),
    })
}

/// A bulk statement.
#[tactic(auto, unfolding(crate::specs::Bulk::bulk))]
pub fn bulk(alloc: Global, tokens: &mut Tokens<'_>) -> Result<SynBulk, Fault>
    ensures { Reads (spec.bulk tokens.old) result tokens.new }
{
    match tokens.kind() {
        Kind::Insert => {
            tokens.take();
            insert(alloc, tokens)
        }
        Kind::Update => {
            tokens.take();
            update(alloc, tokens)
        }
        Kind::Delete => {
            tokens.take();
            delete(alloc, tokens)
        }
        _ => Err(tokens.refuse()),
    }
}
