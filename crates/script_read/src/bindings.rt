//! Lines that bind a name.

ghost use Rattle.std.specs.Prelude.{◌≡◌};
ghost use Rattle.script_tokens.specs.Input.{Reads};
ghost use Rattle.script_read.specs.Bindings as spec;

use crate::terms::member;
use base_core::{ListOf, Name, Value};
use script_lex::Kind;
use script_select::query::query;
use script_tokens::lists::separated;
use script_tokens::literals::{literals, value};
use script_tokens::names::name;
use script_tokens::{Fault, Tokens};
use script_types::Command;
use std::alloc::Global;

#[tactic(auto, unfolding(crate::specs::Bindings::cell))]
fn cell(_alloc: Global, tokens: &mut Tokens<'_>) -> Result<(Name, Value), Fault>
    ensures { Reads (spec.cell tokens.old) result tokens.new }
{
    let attribute = name(tokens)?;
    tokens.expect(Kind::Assign)?;
    let found = value(tokens)?;
    Ok((attribute, found))
}

#[tactic(auto, unfolding(crate::specs::Bindings::cells))]
fn cells(alloc: Global, tokens: &mut Tokens<'_>) -> Result<ListOf<(Name, Value)>, Fault>
    ensures { Reads (spec.cells tokens.old) result tokens.new }
{
    separated(alloc, tokens, Kind::Comma, Vec::new(alloc), cell)
}

/// Cells, or none where the line ends.
#[tactic(auto, unfolding(crate::specs::Bindings::cells_if_any))]
fn cells_if_any(alloc: Global, tokens: &mut Tokens<'_>) -> Result<ListOf<(Name, Value)>, Fault>
    ensures { Reads (spec.cells_if_any tokens.old) result tokens.new }
{
    if tokens.sees(Kind::LineEnd) {
        Ok(ListOf::new(alloc))
    } else {
        cells(alloc, tokens)
    }
}

#[tactic(auto, unfolding(crate::specs::Bindings::new_object))]
fn made(alloc: Global, tokens: &mut Tokens<'_>, bound: Name) -> Result<Command, Fault>
    ensures { Reads (spec.new_object bound tokens.old) result tokens.new }
{
    let class = name(tokens)?;
    let cells = cells_if_any(alloc, tokens)?;
    Ok(Command::New {
        name: bound,
        class,
        cells,
    })
}

#[tactic(auto, unfolding(crate::specs::Bindings::object_by_key))]
fn got(alloc: Global, tokens: &mut Tokens<'_>, bound: Name) -> Result<Command, Fault>
    ensures { Reads (spec.object_by_key bound tokens.old) result tokens.new }
{
    let class = name(tokens)?;
    tokens.expect(Kind::LParen)?;
    let key = literals(alloc, tokens)?;
    tokens.expect(Kind::RParen)?;
    Ok(Command::Get {
        name: bound,
        class,
        key,
    })
}

#[tactic(auto, unfolding(crate::specs::Bindings::related_object))]
fn related(tokens: &mut Tokens<'_>, bound: Name) -> Result<Command, Fault>
    ensures { Reads (spec.related_object bound tokens.old) result tokens.new }
{
    let (term, relation) = member(tokens)?;
    Ok(Command::Related {
        name: bound,
        term,
        relation,
    })
}

#[tactic(auto, unfolding(crate::specs::Bindings::bound_to))]
fn bound_to(alloc: Global, tokens: &mut Tokens<'_>, bound: Name) -> Result<Command, Fault>
    ensures { Reads (spec.bound_to bound tokens.old) result tokens.new }
{
    match tokens.kind() {
        Kind::New => {
            tokens.take();
            made(alloc, tokens, bound)
        }
        Kind::Get => {
            tokens.take();
            got(alloc, tokens, bound)
        }
        Kind::Objects => {
            tokens.take();
            let query = query(alloc, tokens)?;
            Ok(Command::Objects { name: bound, query })
        }
        Kind::Related => {
            tokens.take();
            related(tokens, bound)
        }
        Kind::BeginNested => {
            tokens.take();
            Ok(Command::BeginNested(bound))
        }
        _ => Err(tokens.refuse()),
    }
}

/// A line that binds a name.
#[tactic(auto, unfolding(crate::specs::Bindings::binding))]
pub fn binding(alloc: Global, tokens: &mut Tokens<'_>) -> Result<Command, Fault>
    ensures { Reads (spec.binding tokens.old) result tokens.new }
{
    let bound = name(tokens)?;
    tokens.expect(Kind::Assign)?;
    bound_to(alloc, tokens, bound)
}
