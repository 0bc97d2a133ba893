//! Selects.

ghost use Rattle.std.specs.Prelude.{◌≡◌};
ghost use Rattle.script_tokens.specs.Input.{Reads, clause};
ghost use Rattle.script_tokens.specs.Names.{name as called};
ghost use Rattle.script_expr.specs.Expr.{whole as an_expression};
ghost use Rattle.script_select.specs.Select as spec;

use base_core::{ListOf, Name};
use script_expr::source;
use script_grammar::whole;
use script_lex::Kind;
use script_tokens::lists::{many, separated};
use script_tokens::literals::int;
use script_tokens::names::name;
use script_tokens::{Fault, Tokens};
use script_types::{Syn, SynJoin, SynSelect};
use sqlite_items::Boxed;
use std::alloc::Global;

/// The end of a select or query.
#[derive(Drop)]
pub struct Ending {
    /// The expressions by which rows are ordered; true for `desc`.
    pub order: ListOf<(Syn, bool)>,
    pub limit: Option<u64>,
    pub offset: Option<u64>,
}

/// The middle of a select.
#[derive(Drop)]
pub struct Grouping {
    pub filter: Option<Boxed<Syn>>,
    pub groups: ListOf<Syn>,
    pub having: Option<Boxed<Syn>>,
}

/// A whole expression, out of its box.
pub fn expression(alloc: Global, tokens: &mut Tokens<'_>) -> Result<Syn, Fault>
    ensures { Reads (an_expression tokens.old) result tokens.new }
{
    Ok(whole(alloc, tokens)?.into_inner())
}

/// An expression out of its box, where there is one.
pub fn unboxed(tree: Option<Boxed<Syn>>) -> Option<Syn>
    ensures { result ≡ tree }
{
    match tree {
        Some(tree) => Some(tree.into_inner()),
        None => None,
    }
}

/// The name after `as`, where the word comes next.
fn given_name(tokens: &mut Tokens<'_>) -> Result<Option<Name>, Fault>
    ensures { Reads (clause Kind.As called tokens.old) result tokens.new }
{
    if tokens.eat(Kind::As) {
        Ok(Some(name(tokens)?))
    } else {
        Ok(None)
    }
}

#[tactic(auto, unfolding(crate::specs::Select::item))]
fn item(alloc: Global, tokens: &mut Tokens<'_>) -> Result<(Syn, Option<Name>), Fault>
    ensures { Reads (spec.item tokens.old) result tokens.new }
{
    let value = whole(alloc, tokens)?;
    let called = given_name(tokens)?;
    Ok((value.into_inner(), called))
}

#[tactic(auto, unfolding(crate::specs::Select::items))]
fn items(alloc: Global, tokens: &mut Tokens<'_>) -> Result<ListOf<(Syn, Option<Name>)>, Fault>
    ensures { Reads (spec.items tokens.old) result tokens.new }
{
    separated(alloc, tokens, Kind::Comma, Vec::new(alloc), item)
}

#[tactic(auto, unfolding(crate::specs::Select::is_descending))]
fn descending(tokens: &mut Tokens<'_>) -> bool
    ensures { spec.is_descending tokens.old ≡ Ok (result, tokens.new) }
{
    if tokens.eat(Kind::Desc) {
        return true;
    }
    tokens.eat(Kind::Asc);
    false
}

#[tactic(auto, unfolding(crate::specs::Select::order_item))]
fn order_item(alloc: Global, tokens: &mut Tokens<'_>) -> Result<(Syn, bool), Fault>
    ensures { Reads (spec.order_item tokens.old) result tokens.new }
{
    let value = whole(alloc, tokens)?;
    let down = descending(tokens);
    Ok((value.into_inner(), down))
}

#[tactic(auto, unfolding(crate::specs::Select::order_items))]
fn order_items(alloc: Global, tokens: &mut Tokens<'_>) -> Result<ListOf<(Syn, bool)>, Fault>
    ensures { Reads (spec.order_items tokens.old) result tokens.new }
{
    separated(alloc, tokens, Kind::Comma, Vec::new(alloc), order_item)
}

#[tactic(auto, unfolding(crate::specs::Select::order))]
fn order(alloc: Global, tokens: &mut Tokens<'_>) -> Result<ListOf<(Syn, bool)>, Fault>
    ensures { Reads (spec.order tokens.old) result tokens.new }
{
    if !tokens.eat(Kind::Order) {
        return Ok(ListOf::new(alloc));
    }
    tokens.expect(Kind::By)?;
    order_items(alloc, tokens)
}

/// A number after this word, where the word comes next.
fn int_after(tokens: &mut Tokens<'_>, word: Kind) -> Result<Option<u64>, Fault>
    ensures { Reads (spec.int_after word tokens.old) result tokens.new }
{
    if tokens.eat(word) {
        Ok(Some(int(tokens)?))
    } else {
        Ok(None)
    }
}

/// `order by .. limit n offset n`, each where there is one.
#[tactic(auto, unfolding(crate::specs::Select::last_part))]
pub fn last_part(alloc: Global, tokens: &mut Tokens<'_>) -> Result<Ending, Fault>
    ensures { Reads (spec.last_part tokens.old) result tokens.new }
{
    let order = order(alloc, tokens)?;
    let limit = int_after(tokens, Kind::Limit)?;
    let offset = int_after(tokens, Kind::Offset)?;
    Ok(Ending {
        order,
        limit,
        offset,
    })
}

#[tactic(auto, unfolding(crate::specs::Select::expressions))]
fn expressions(alloc: Global, tokens: &mut Tokens<'_>) -> Result<ListOf<Syn>, Fault>
    ensures { Reads (spec.expressions tokens.old) result tokens.new }
{
    separated(alloc, tokens, Kind::Comma, Vec::new(alloc), expression)
}

#[tactic(auto, unfolding(crate::specs::Select::groups))]
fn groups(alloc: Global, tokens: &mut Tokens<'_>) -> Result<ListOf<Syn>, Fault>
    ensures { Reads (spec.groups tokens.old) result tokens.new }
{
    if !tokens.eat(Kind::Group) {
        return Ok(ListOf::new(alloc));
    }
    tokens.expect(Kind::By)?;
    expressions(alloc, tokens)
}

/// The expression that this word introduces, where the word comes next.
#[tactic(auto, unfolding(crate::specs::Select::condition))]
pub fn condition(
    alloc: Global,
    tokens: &mut Tokens<'_>,
    word: Kind,
) -> Result<Option<Boxed<Syn>>, Fault>
    ensures { Reads (spec.condition word tokens.old) result tokens.new }
{
    if tokens.eat(word) {
        Ok(Some(whole(alloc, tokens)?))
    } else {
        Ok(None)
    }
}

#[tactic(auto, unfolding(crate::specs::Select::middle_part))]
fn middle_part(alloc: Global, tokens: &mut Tokens<'_>) -> Result<Grouping, Fault>
    ensures { Reads (spec.middle_part tokens.old) result tokens.new }
{
    let filter = condition(alloc, tokens, Kind::Where)?;
    let groups = groups(alloc, tokens)?;
    let having = condition(alloc, tokens, Kind::Having)?;
    Ok(Grouping {
        filter,
        groups,
        having,
    })
}

/// A join, after `join` or `left join`.
#[tactic(auto, unfolding(crate::specs::Select::join))]
fn join(alloc: Global, tokens: &mut Tokens<'_>, left: bool) -> Result<SynJoin, Fault>
    ensures { Reads (spec.join left tokens.old) result tokens.new }
{
    let source = source(tokens)?;
    tokens.expect(Kind::On)?;
    let on = whole(alloc, tokens)?;
    Ok(SynJoin {
        left,
        source,
        on: on.into_inner(),
    })
}

/// Whether a join comes next, and whether it is a left join.
#[tactic(auto, unfolding(crate::specs::Select::begins_join))]
fn begins_join(tokens: &mut Tokens<'_>) -> Result<Option<bool>, Fault>
    ensures { Reads (spec.begins_join tokens.old) result tokens.new }
{
    match tokens.kind() {
        Kind::Join => {
            tokens.take();
            Ok(Some(false))
        }
        Kind::Left => {
            tokens.take();
            tokens.expect(Kind::Join)?;
            Ok(Some(true))
        }
        _ => Ok(None),
    }
}

/// A join, where one comes next.
#[tactic(auto, unfolding(crate::specs::Select::begins_join))]
fn join_if_any(alloc: Global, tokens: &mut Tokens<'_>) -> Result<Option<SynJoin>, Fault>
    ensures { Reads (spec.join_if_any tokens.old) result tokens.new }
{
    match begins_join(tokens)? {
        Some(left) => Ok(Some(join(alloc, tokens, left)?)),
        None => Ok(None),
    }
}

#[tactic(auto, unfolding(crate::specs::Select::joins))]
fn joins(alloc: Global, tokens: &mut Tokens<'_>) -> Result<ListOf<SynJoin>, Fault>
    ensures { Reads (spec.joins tokens.old) result tokens.new }
{
    many(alloc, tokens, join_if_any)
}

/// A select.
#[tactic(auto, unfolding(crate::specs::Select::select))]
pub fn select(alloc: Global, tokens: &mut Tokens<'_>) -> Result<SynSelect, Fault>
    ensures { Reads (spec.select tokens.old) result tokens.new }
{
    let distinct = tokens.eat(Kind::Distinct);
    let items = items(alloc, tokens)?;
    tokens.expect(Kind::From)?;
    let first = source(tokens)?;
    let joins = joins(alloc, tokens)?;
    let part = middle_part(alloc, tokens)?;
    let end = last_part(alloc, tokens)?;
    Ok(SynSelect {
        distinct,
        items,
        first,
        joins,
        filter: unboxed(part.filter),
        groups: part.groups,
        having: unboxed(part.having),
        order: end.order,
        limit: end.limit,
        offset: end.offset,
    })
}
