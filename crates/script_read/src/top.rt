//! Lines outside every block that bind nothing.

ghost use Rattle.std.specs.Prelude.{◌≡◌};
ghost use Rattle.script_tokens.specs.Input.{Reads};
ghost use Rattle.script_read.specs.Top as spec;

use crate::terms::{linked, member, term, two};
use base_core::{Dialect, Name};
use script_blocks::class_head;
use script_lex::{Kind, same_kind};
use script_select::bulk::bulk;
use script_select::query::query;
use script_select::select::select;
use script_tokens::literals::{begins_literal, value};
use script_tokens::names::name;
use script_tokens::{Fault, Tokens};
use script_types::{Command, Term};
use std::alloc::Global;

#[tactic(auto, unfolding(crate::specs::Top::set_to))]
fn set_to(tokens: &mut Tokens<'_>, term: Term, member: Name) -> Result<Command, Fault>
    ensures { Reads (spec.set_to term member tokens.old) result tokens.new }
{
    let kind = tokens.kind();
    if same_kind(kind, Kind::Null) || begins_literal(kind) {
        let value = value(tokens)?;
        Ok(Command::SetValue {
            term,
            member,
            value,
        })
    } else {
        let other = crate::terms::term(tokens)?;
        Ok(Command::SetTerm {
            term,
            member,
            other,
        })
    }
}

#[tactic(auto, unfolding(crate::specs::Top::set))]
fn set(tokens: &mut Tokens<'_>) -> Result<Command, Fault>
    ensures { Reads (spec.set tokens.old) result tokens.new }
{
    let (owner, called) = member(tokens)?;
    tokens.expect(Kind::Assign)?;
    set_to(tokens, owner, called)
}

#[tactic(auto, unfolding(crate::specs::Top::append))]
fn append(tokens: &mut Tokens<'_>) -> Result<Command, Fault>
    ensures { Reads (spec.append tokens.old) result tokens.new }
{
    let ((term, member), other) = linked(tokens)?;
    Ok(Command::Append {
        term,
        member,
        other,
    })
}

#[tactic(auto, unfolding(crate::specs::Top::remove))]
fn remove(tokens: &mut Tokens<'_>) -> Result<Command, Fault>
    ensures { Reads (spec.remove tokens.old) result tokens.new }
{
    let ((term, member), other) = linked(tokens)?;
    Ok(Command::Remove {
        term,
        member,
        other,
    })
}

#[tactic(auto, unfolding(crate::specs::Top::show))]
fn show(tokens: &mut Tokens<'_>) -> Result<Command, Fault>
    ensures { Reads (spec.show tokens.old) result tokens.new }
{
    let owner = term(tokens)?;
    if tokens.eat(Kind::Dot) {
        let called = name(tokens)?;
        Ok(Command::ShowMember(owner, called))
    } else {
        Ok(Command::Show(owner))
    }
}

#[tactic(auto, unfolding(crate::specs::Top::same))]
fn same(tokens: &mut Tokens<'_>) -> Result<Command, Fault>
    ensures { Reads (spec.same tokens.old) result tokens.new }
{
    let (first, second) = two(tokens)?;
    Ok(Command::Same(first, second))
}

/// A name, or none where the line ends.
#[tactic(auto, unfolding(crate::specs::Top::name_if_any))]
fn name_if_any(tokens: &mut Tokens<'_>) -> Result<Option<Name>, Fault>
    ensures { Reads (spec.name_if_any tokens.old) result tokens.new }
{
    if tokens.sees(Kind::LineEnd) {
        Ok(None)
    } else {
        Ok(Some(name(tokens)?))
    }
}

#[tactic(auto, unfolding(crate::specs::Top::dialect))]
fn dialect(tokens: &mut Tokens<'_>) -> Result<Dialect, Fault>
    ensures { Reads (spec.dialect tokens.old) result tokens.new }
{
    match tokens.kind() {
        Kind::Sqlite => {
            tokens.take();
            Ok(Dialect::Sqlite)
        }
        Kind::Postgresql => {
            tokens.take();
            Ok(Dialect::Postgresql)
        }
        Kind::Mysql => {
            tokens.take();
            Ok(Dialect::Mysql)
        }
        _ => Err(tokens.refuse()),
    }
}

#[tactic(auto, unfolding(crate::specs::Top::compilation))]
fn compiled(alloc: Global, tokens: &mut Tokens<'_>, dialect: Dialect) -> Result<Command, Fault>
    ensures { Reads (spec.compilation dialect tokens.old) result tokens.new }
{
    match tokens.kind() {
        Kind::Rows => {
            tokens.take();
            Ok(Command::CompileRows(dialect, select(alloc, tokens)?))
        }
        Kind::Objects => {
            tokens.take();
            Ok(Command::CompileObjects(dialect, query(alloc, tokens)?))
        }
        Kind::Bulk => {
            tokens.take();
            Ok(Command::CompileBulk(dialect, bulk(alloc, tokens)?))
        }
        Kind::Table => {
            tokens.take();
            Ok(Command::CompileTable(dialect, name(tokens)?))
        }
        _ => Err(tokens.refuse()),
    }
}

#[tactic(auto, unfolding(crate::specs::Top::compile))]
fn compile(alloc: Global, tokens: &mut Tokens<'_>) -> Result<Command, Fault>
    ensures { Reads (spec.compile tokens.old) result tokens.new }
{
    let dialect = dialect(tokens)?;
    compiled(alloc, tokens, dialect)
}

/// A line of one word.
#[tactic(auto, unfolding(crate::specs::Top::bare))]
fn bare(tokens: &mut Tokens<'_>) -> Result<Command, Fault>
    ensures { Reads (spec.bare tokens.old) result tokens.new }
{
    match tokens.kind() {
        Kind::Configure => {
            tokens.take();
            Ok(Command::Configure)
        }
        Kind::CreateAll => {
            tokens.take();
            Ok(Command::CreateAll)
        }
        Kind::DropAll => {
            tokens.take();
            Ok(Command::DropAll)
        }
        Kind::Dump => {
            tokens.take();
            Ok(Command::Dump)
        }
        Kind::Flush => {
            tokens.take();
            Ok(Command::Flush)
        }
        Kind::Close => {
            tokens.take();
            Ok(Command::Close)
        }
        _ => Err(tokens.refuse()),
    }
}

/// A line of a word and a term, or of one word.
#[tactic(auto, unfolding(crate::specs::Top::term_command))]
fn termed(tokens: &mut Tokens<'_>) -> Result<Command, Fault>
    ensures { Reads (spec.term_command tokens.old) result tokens.new }
{
    match tokens.kind() {
        Kind::Add => {
            tokens.take();
            Ok(Command::Add(term(tokens)?))
        }
        Kind::Delete => {
            tokens.take();
            Ok(Command::Delete(term(tokens)?))
        }
        Kind::Expunge => {
            tokens.take();
            Ok(Command::Expunge(term(tokens)?))
        }
        Kind::Expire => {
            tokens.take();
            Ok(Command::Expire(term(tokens)?))
        }
        Kind::Refresh => {
            tokens.take();
            Ok(Command::Refresh(term(tokens)?))
        }
        Kind::State => {
            tokens.take();
            Ok(Command::State(term(tokens)?))
        }
        _ => bare(tokens),
    }
}

/// A line that changes or shows objects, or of a scope.
#[tactic(auto, unfolding(crate::specs::Top::action))]
fn acting(tokens: &mut Tokens<'_>) -> Result<Command, Fault>
    ensures { Reads (spec.action tokens.old) result tokens.new }
{
    match tokens.kind() {
        Kind::Set => {
            tokens.take();
            set(tokens)
        }
        Kind::Append => {
            tokens.take();
            append(tokens)
        }
        Kind::Remove => {
            tokens.take();
            remove(tokens)
        }
        Kind::Show => {
            tokens.take();
            show(tokens)
        }
        Kind::Is => {
            tokens.take();
            same(tokens)
        }
        Kind::Commit => {
            tokens.take();
            Ok(Command::Commit(name_if_any(tokens)?))
        }
        Kind::Rollback => {
            tokens.take();
            Ok(Command::Rollback(name_if_any(tokens)?))
        }
        _ => termed(tokens),
    }
}

/// A line outside every block that binds nothing.
#[tactic(auto, unfolding(crate::specs::Top::top))]
pub fn top(alloc: Global, tokens: &mut Tokens<'_>) -> Result<Command, Fault>
    ensures { Reads (spec.top tokens.old) result tokens.new }
{
    match tokens.kind() {
        Kind::Table => {
            tokens.take();
            Ok(Command::TableHead(name(tokens)?))
        }
        Kind::Class => {
            tokens.take();
            class_head(alloc, tokens)
        }
        Kind::Rows => {
            tokens.take();
            Ok(Command::Rows(select(alloc, tokens)?))
        }
        Kind::Bulk => {
            tokens.take();
            Ok(Command::Bulk(bulk(alloc, tokens)?))
        }
        Kind::Compile => {
            tokens.take();
            compile(alloc, tokens)
        }
        _ => acting(tokens),
    }
}
