//! Heads of classes, and lines of the block of a class.

ghost use Rattle.std.specs.Prelude.{◌≡◌, IfOk};
ghost use Rattle.script_tokens.specs.Input.{Reads};
ghost use Rattle.script_blocks.specs.Classes as spec;

use base_core::{ListOf, Name, Value};
use class_types::{Cascade, RelationSpec};
use script_lex::Kind;
use script_tokens::literals::literal;
use script_tokens::names::{name, names};
use script_tokens::{Fault, Tokens};
use script_types::Command;
use std::alloc::Global;

/// Names in parentheses after this word, or none where it does not come next.
fn names_after(alloc: Global, tokens: &mut Tokens<'_>, word: Kind) -> Result<ListOf<Name>, Fault>
    ensures { Reads (spec.names_after word tokens.old) result tokens.new }
{
    if tokens.eat(word) {
        names(alloc, tokens)
    } else {
        Ok(ListOf::new(alloc))
    }
}

/// The name after this word, or none where it does not come next.
fn name_after(tokens: &mut Tokens<'_>, word: Kind) -> Result<Option<Name>, Fault>
    ensures { Reads (spec.name_after word tokens.old) result tokens.new }
{
    if tokens.eat(word) {
        Ok(Some(name(tokens)?))
    } else {
        Ok(None)
    }
}

#[tactic(auto, unfolding(crate::specs::Classes::identity))]
fn identity(tokens: &mut Tokens<'_>) -> Result<Value, Fault>
    ensures { Reads (spec.identity tokens.old) result tokens.new }
{
    tokens.expect(Kind::Identity)?;
    literal(tokens)
}

#[tactic(auto, unfolding(crate::specs::Classes::discriminator_if_any))]
fn discriminated(tokens: &mut Tokens<'_>) -> Result<Option<(Name, Value)>, Fault>
    ensures { Reads (spec.discriminator_if_any tokens.old) result tokens.new }
{
    if !tokens.eat(Kind::Discriminator) {
        return Ok(None);
    }
    let column = name(tokens)?;
    let own = identity(tokens)?;
    Ok(Some((column, own)))
}

fn root_head(
    alloc: Global,
    name: Name,
    table: Name,
    discriminated: Option<(Name, Value)>,
) -> Command
    ensures { result ≡ spec.root_head name table discriminated }
{
    let (discriminator, identity) = match discriminated {
        Some((column, own)) => (Some(column), Some(own)),
        None => (None, None),
    };
    Command::ClassHead {
        name,
        base: None,
        table: Some(table),
        discriminator,
        identity,
        owned: ListOf::new(alloc),
    }
}

#[tactic(auto, unfolding(crate::specs::Classes::root_class))]
fn root_class(alloc: Global, tokens: &mut Tokens<'_>, class: Name) -> Result<Command, Fault>
    ensures { Reads (spec.root_class class tokens.old) result tokens.new }
{
    let table = name(tokens)?;
    let column = discriminated(tokens)?;
    Ok(root_head(alloc, class, table, column))
}

#[tactic(auto, unfolding(crate::specs::Classes::extending_class))]
fn extending_class(alloc: Global, tokens: &mut Tokens<'_>, class: Name) -> Result<Command, Fault>
    ensures { Reads (spec.extending_class class tokens.old) result tokens.new }
{
    let base = name(tokens)?;
    let table = name_after(tokens, Kind::Table)?;
    let own = identity(tokens)?;
    let owned = names_after(alloc, tokens, Kind::Owns)?;
    Ok(Command::ClassHead {
        name: class,
        base: Some(base),
        table,
        discriminator: None,
        identity: Some(own),
        owned,
    })
}

/// The head of a class, after `class`.
#[tactic(auto, unfolding(crate::specs::Classes::class_head))]
pub fn class_head(alloc: Global, tokens: &mut Tokens<'_>) -> Result<Command, Fault>
    ensures { Reads (spec.class_head tokens.old) result tokens.new }
{
    let class = name(tokens)?;
    match tokens.kind() {
        Kind::Table => {
            tokens.take();
            root_class(alloc, tokens, class)
        }
        Kind::Extends => {
            tokens.take();
            extending_class(alloc, tokens, class)
        }
        _ => Err(tokens.refuse()),
    }
}

/// Whether `-` comes next, also directly before a digit.
fn sees_dash(tokens: &Tokens<'_>) -> bool
    ensures { result ≡ spec.sees_dash tokens.now }
{
    tokens.sees(Kind::Minus) || tokens.sees(Kind::Signed)
}

/// Goes past `-`, if it comes next.
#[tactic(auto, unfolding(crate::specs::Classes::eat_dash))]
fn eat_dash(tokens: &mut Tokens<'_>) -> bool
    ensures { spec.eat_dash tokens.old ≡ Ok (result, tokens.new) }
{
    let found = sees_dash(tokens);
    if found {
        tokens.take();
    }
    found
}

#[tactic(auto, unfolding(crate::specs::Classes::dash))]
fn dash(tokens: &mut Tokens<'_>) -> Result<(), Fault>
    ensures { Reads (spec.dash tokens.old) result tokens.new }
{
    if sees_dash(tokens) {
        tokens.take();
        Ok(())
    } else {
        Err(tokens.refuse())
    }
}

/// `-` and a word.
fn dashed(tokens: &mut Tokens<'_>, word: Kind) -> Result<(), Fault>
    ensures { Reads (spec.dash_and_word word tokens.old) result tokens.new }
{
    dash(tokens)?;
    tokens.expect(word)
}

/// After `delete`: `delete` or `delete-orphan`.
fn deleting(tokens: &mut Tokens<'_>, so_far: Cascade) -> Result<Cascade, Fault>
    ensures { Reads (spec.after_delete so_far tokens.old) result tokens.new }
{
    if eat_dash(tokens) {
        tokens.expect(Kind::Orphan)?;
        Ok(Cascade {
            delete_orphan: true,
            ..so_far
        })
    } else {
        Ok(Cascade {
            delete: true,
            ..so_far
        })
    }
}

/// One word of a cascade, added to those so far.
#[tactic(auto, unfolding(crate::specs::Classes::cascade_word))]
fn cascade_word(tokens: &mut Tokens<'_>, so_far: Cascade) -> Result<Cascade, Fault>
    ensures { Reads (spec.cascade_word so_far tokens.old) result tokens.new }
{
    match tokens.kind() {
        Kind::Save => {
            tokens.take();
            dashed(tokens, Kind::Update)?;
            Ok(Cascade {
                save_update: true,
                ..so_far
            })
        }
        Kind::Merge => {
            tokens.take();
            Ok(Cascade {
                merge: true,
                ..so_far
            })
        }
        Kind::Refresh => {
            tokens.take();
            dashed(tokens, Kind::Expire)?;
            Ok(Cascade {
                refresh_expire: true,
                ..so_far
            })
        }
        Kind::Expunge => {
            tokens.take();
            Ok(Cascade {
                expunge: true,
                ..so_far
            })
        }
        Kind::Delete => {
            tokens.take();
            deleting(tokens, so_far)
        }
        Kind::All => {
            tokens.take();
            Ok(Cascade {
                save_update: true,
                merge: true,
                refresh_expire: true,
                expunge: true,
                delete: true,
                delete_orphan: so_far.delete_orphan,
            })
        }
        Kind::NoneWord => {
            tokens.take();
            Ok(so_far)
        }
        _ => Err(tokens.refuse()),
    }
}

fn cascade(tokens: &mut Tokens<'_>) -> Result<Cascade, Fault>
    ensures { Reads (spec.cascade tokens.old) result tokens.new }
{
    let mut so_far = Cascade {
        save_update: false,
        merge: false,
        refresh_expire: false,
        expunge: false,
        delete: false,
        delete_orphan: false,
    };
    for _turn in 0..tokens.left() {
        so_far = cascade_word(tokens, so_far)?;
        if !tokens.eat(Kind::Comma) {
            return Ok(so_far);
        }
    }
    Err(tokens.refuse())
}

#[tactic(auto, unfolding(crate::specs::Classes::cascade_if_any))]
fn cascade_if_any(tokens: &mut Tokens<'_>) -> Result<Option<Cascade>, Fault>
    ensures { Reads (spec.cascade_if_any tokens.old) result tokens.new }
{
    if tokens.eat(Kind::Cascade) {
        Ok(Some(cascade(tokens)?))
    } else {
        Ok(None)
    }
}

/// Whether the partner is made by this line.
#[tactic(auto, unfolding(crate::specs::Classes::back))]
fn back(tokens: &mut Tokens<'_>) -> Result<bool, Fault>
    ensures { Reads (spec.back tokens.old) result tokens.new }
{
    match tokens.kind() {
        Kind::Back => {
            tokens.take();
            Ok(false)
        }
        Kind::Backref => {
            tokens.take();
            Ok(true)
        }
        _ => Err(tokens.refuse()),
    }
}

/// `secondary name`, which only `many` may have.
#[tactic(auto, unfolding(crate::specs::Classes::secondary))]
fn secondary(tokens: &mut Tokens<'_>, many: bool) -> Result<Option<Name>, Fault>
    ensures { Reads (spec.secondary many tokens.old) result tokens.new }
{
    if many {
        name_after(tokens, Kind::Secondary)
    } else {
        Ok(None)
    }
}

/// `post_update`, which only `one` may have.
#[tactic(auto, unfolding(crate::specs::Classes::post_update))]
fn post_update(tokens: &mut Tokens<'_>, many: bool) -> bool
    ensures { spec.post_update many tokens.old ≡ Ok (result, tokens.new) }
{
    !many && tokens.eat(Kind::PostUpdate)
}

/// The relationship's name, its target, its secondary table, whether the partner is made by this line, and the partner.
#[tactic(auto, unfolding(crate::specs::Classes::sides))]
fn sides(
    tokens: &mut Tokens<'_>,
    many: bool,
) -> Result<(Name, Name, Option<Name>, bool, Name), Fault>
    ensures { Reads (spec.sides many tokens.old) result tokens.new }
{
    let called = name(tokens)?;
    let target = name(tokens)?;
    let secondary = secondary(tokens, many)?;
    let backref = back(tokens)?;
    let partner = name(tokens)?;
    Ok((called, target, secondary, backref, partner))
}

/// A relationship, after `one` or `many`.
#[tactic(auto, unfolding(crate::specs::Classes::relation))]
fn relation(alloc: Global, tokens: &mut Tokens<'_>, many: bool) -> Result<Command, Fault>
    ensures { Reads (spec.relation many tokens.old) result tokens.new }
{
    let (called, target, secondary, backref, partner) = sides(tokens, many)?;
    let using = names_after(alloc, tokens, Kind::Using)?;
    let cascade = cascade_if_any(tokens)?;
    let post_update = post_update(tokens, many);
    Ok(Command::RelationLine(RelationSpec {
        many,
        name: called,
        target,
        secondary,
        partner,
        backref,
        using,
        cascade,
        post_update,
    }))
}

#[tactic(auto, unfolding(crate::specs::Classes::validate))]
fn validate(tokens: &mut Tokens<'_>) -> Result<Command, Fault>
    ensures { Reads (spec.validate tokens.old) result tokens.new }
{
    let attribute = name(tokens)?;
    tokens.expect(Kind::With)?;
    let hook = name(tokens)?;
    Ok(Command::ValidateLine(attribute, hook))
}

/// A line of the block of a class.
#[tactic(auto, unfolding(crate::specs::Classes::class_line))]
pub fn class_line(alloc: Global, tokens: &mut Tokens<'_>) -> Result<Command, Fault>
    ensures { Reads (spec.class_line tokens.old) result tokens.new }
{
    match tokens.kind() {
        Kind::End => {
            tokens.take();
            Ok(Command::End)
        }
        Kind::Validate => {
            tokens.take();
            validate(tokens)
        }
        Kind::One => {
            tokens.take();
            relation(alloc, tokens, false)
        }
        Kind::Many => {
            tokens.take();
            relation(alloc, tokens, true)
        }
        _ => Err(tokens.refuse()),
    }
}
