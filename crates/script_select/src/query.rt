//! Queries for objects.

ghost use Rattle.std.specs.Prelude.{◌≡◌};
ghost use Rattle.script_tokens.specs.Input.{Reads, clause};
ghost use Rattle.script_select.specs.Query as spec;

use crate::select::{condition, last_part, unboxed};
use base_core::{ListOf, Name};
use script_lex::Kind;
use script_tokens::lists::{many, separated};
use script_tokens::names::name;
use script_tokens::{Fault, Tokens};
use script_types::SynQuery;
use std::alloc::Global;

/// Two names with a dot between.
#[tactic(auto, unfolding(crate::specs::Query::pair))]
fn pair(tokens: &mut Tokens<'_>) -> Result<(Name, Name), Fault>
    ensures { Reads (spec.pair tokens.old) result tokens.new }
{
    let first = name(tokens)?;
    tokens.expect(Kind::Dot)?;
    let second = name(tokens)?;
    Ok((first, second))
}

/// What `join` introduces, where it comes next.
fn join(tokens: &mut Tokens<'_>) -> Result<Option<(Name, Name)>, Fault>
    ensures { Reads (clause Kind.Join spec.pair tokens.old) result tokens.new }
{
    if tokens.eat(Kind::Join) {
        Ok(Some(pair(tokens)?))
    } else {
        Ok(None)
    }
}

#[tactic(auto, unfolding(crate::specs::Query::joins))]
fn joins(alloc: Global, tokens: &mut Tokens<'_>) -> Result<ListOf<(Name, Name)>, Fault>
    ensures { Reads (spec.joins tokens.old) result tokens.new }
{
    many(alloc, tokens, |_alloc, tokens| join(tokens))
}

/// Whether the relationship is loaded by a join.
#[tactic(auto, unfolding(crate::specs::Query::manner))]
fn manner(tokens: &mut Tokens<'_>) -> Result<bool, Fault>
    ensures { Reads (spec.manner tokens.old) result tokens.new }
{
    match tokens.kind() {
        Kind::Joined => {
            tokens.take();
            Ok(true)
        }
        Kind::Selectin => {
            tokens.take();
            Ok(false)
        }
        _ => Err(tokens.refuse()),
    }
}

#[tactic(auto, unfolding(crate::specs::Query::option))]
fn option(tokens: &mut Tokens<'_>) -> Result<(bool, Name, Name), Fault>
    ensures { Reads (spec.option tokens.old) result tokens.new }
{
    let joined = manner(tokens)?;
    let (class, relation) = pair(tokens)?;
    Ok((joined, class, relation))
}

#[tactic(auto, unfolding(crate::specs::Query::option_list))]
fn option_list(alloc: Global, tokens: &mut Tokens<'_>) -> Result<ListOf<(bool, Name, Name)>, Fault>
    ensures { Reads (spec.option_list tokens.old) result tokens.new }
{
    separated(
        alloc,
        tokens,
        Kind::Comma,
        Vec::new(alloc),
        |_alloc, tokens| option(tokens),
    )
}

#[tactic(auto, unfolding(crate::specs::Query::options))]
fn options(alloc: Global, tokens: &mut Tokens<'_>) -> Result<ListOf<(bool, Name, Name)>, Fault>
    ensures { Reads (spec.options tokens.old) result tokens.new }
{
    if tokens.eat(Kind::With) {
        option_list(alloc, tokens)
    } else {
        Ok(ListOf::new(alloc))
    }
}

/// A query for objects.
#[tactic(auto, unfolding(crate::specs::Query::query))]
pub fn query(alloc: Global, tokens: &mut Tokens<'_>) -> Result<SynQuery, Fault>
    ensures { Reads (spec.query tokens.old) result tokens.new }
{
    let class = name(tokens)?;
    let joins = joins(alloc, tokens)?;
    let filter = condition(alloc, tokens, Kind::Where)?;
    let end = last_part(alloc, tokens)?;
    let options = options(alloc, tokens)?;
    Ok(SynQuery {
        class,
        joins,
        filter: unboxed(filter),
        order: end.order,
        limit: end.limit,
        offset: end.offset,
        options,
    })
}
