//! Names that the script binds, and their members.

ghost use Rattle.std.specs.Prelude.{◌≡◌};
ghost use Rattle.script_tokens.specs.Input.{Reads};
ghost use Rattle.script_read.specs.Terms as spec;

use base_core::Name;
use script_lex::Kind;
use script_tokens::literals::int;
use script_tokens::names::name;
use script_tokens::{Fault, Tokens};
use script_types::Term;

#[tactic(auto, unfolding(crate::specs::Terms::index))]
fn index(tokens: &mut Tokens<'_>) -> Result<Option<u64>, Fault>
    ensures { Reads (spec.index tokens.old) result tokens.new }
{
    if !tokens.eat(Kind::LBracket) {
        return Ok(None);
    }
    let place = int(tokens)?;
    tokens.expect(Kind::RBracket)?;
    Ok(Some(place))
}

/// A bound name, or a member of the list that it is bound to.
#[tactic(auto, unfolding(crate::specs::Terms::term))]
pub fn term(tokens: &mut Tokens<'_>) -> Result<Term, Fault>
    ensures { Reads (spec.term tokens.old) result tokens.new }
{
    let name = name(tokens)?;
    let index = index(tokens)?;
    Ok(Term { name, index })
}

/// A term and the name of an attribute or relationship.
#[tactic(auto, unfolding(crate::specs::Terms::member))]
pub fn member(tokens: &mut Tokens<'_>) -> Result<(Term, Name), Fault>
    ensures { Reads (spec.member tokens.old) result tokens.new }
{
    let owner = term(tokens)?;
    tokens.expect(Kind::Dot)?;
    let called = name(tokens)?;
    Ok((owner, called))
}

#[tactic(auto, unfolding(crate::specs::Terms::two))]
pub fn two(tokens: &mut Tokens<'_>) -> Result<(Term, Term), Fault>
    ensures { Reads (spec.two tokens.old) result tokens.new }
{
    let first = term(tokens)?;
    let second = term(tokens)?;
    Ok((first, second))
}

/// A member and another term.
#[tactic(auto, unfolding(crate::specs::Terms::member_and_term))]
pub fn linked(tokens: &mut Tokens<'_>) -> Result<((Term, Name), Term), Fault>
    ensures { Reads (spec.member_and_term tokens.old) result tokens.new }
{
    let owner = member(tokens)?;
    let other = term(tokens)?;
    Ok((owner, other))
}
