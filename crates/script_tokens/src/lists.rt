//! Lists of items, with a mark between or one behind the other.

ghost use Rattle.std.specs.Prelude.{[], Option};
ghost use Rattle.script_tokens.specs.Input as spec;
ghost use Rattle.script_tokens.specs.Input.{Reader, Reads};
ghost use Rattle.script_tokens.specs.Lists.{IsReadBy};
ghost use Rattle.script_tokens.specs.Many.{many_from};

use crate::{Fault, Tokens};
use base_core::ListOf;
use script_lex::Kind;
use std::alloc::Global;

/// One item or more, with this mark between, put behind those that were found before.
pub fn separated<T: Drop, F: Fn(Global, &mut Tokens<'_>) -> Result<T, Fault>>(
    alloc: Global,
    tokens: &mut Tokens<'_>,
    mark: Kind,
    mut found: Vec<T>,
    item: F,
) -> Result<ListOf<T>, Fault>
    ghost reader: { Reader T }
    requires { IsReadBy reader (F.pre item) (F.post item) }
    ensures { Reads (spec.separated_from mark reader
        (spec.turns tokens.old) found.items tokens.old) result tokens.new }
{
    for _turn in 0..tokens.left() {
        let next = item(alloc, tokens)?;
        found.push(next)?;
        if !tokens.eat(mark) {
            return Ok(ListOf::from_vec(found));
        }
    }
    Err(tokens.refuse())
}

/// Items one behind the other, as many as there are. The reader of one reads nothing where none comes next.
pub fn many<T: Drop, F: Fn(Global, &mut Tokens<'_>) -> Result<Option<T>, Fault>>(
    alloc: Global,
    tokens: &mut Tokens<'_>,
    item: F,
) -> Result<ListOf<T>, Fault>
    ghost reader: { Reader (Option T) }
    requires { IsReadBy reader (F.pre item) (F.post item) }
    ensures { Reads (many_from reader (spec.turns tokens.old) [] tokens.old) result tokens.new }
{
    let mut found = Vec::new(alloc);
    for _turn in 0..tokens.left() {
        let Some(next) = item(alloc, tokens)? else {
            return Ok(ListOf::from_vec(found));
        };
        found.push(next)?;
    }
    Ok(ListOf::from_vec(found))
}
