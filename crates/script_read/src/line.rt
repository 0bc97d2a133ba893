//! A line.

ghost use Rattle.std.specs.Prelude.{◌≡◌, IfErr};
ghost use Rattle.base_core.specs.Answers.{Gives};
ghost use Rattle.script_tokens.specs.Input.{Reads};
ghost use Rattle.script_read.specs.Line as spec;

use crate::bindings::binding;
use crate::top::top;
use base_core::Refusal;
use script_blocks::{class_line, table_line};
use script_lex::{Kind, same_kind, skipped, tokens};
use script_tokens::{Fault, Tokens};
use script_types::{Command, Inside};
use std::alloc::Global;

#[tactic(auto, unfolding(crate::specs::Line::outer))]
fn outer(alloc: Global, tokens: &mut Tokens<'_>) -> Result<Command, Fault>
    ensures { Reads (spec.outer tokens.old) result tokens.new }
{
    if same_kind(tokens.second_kind(), Kind::Assign) {
        binding(alloc, tokens)
    } else {
        top(alloc, tokens)
    }
}

fn command(alloc: Global, tokens: &mut Tokens<'_>, inside: Inside) -> Result<Command, Fault>
    ensures { Reads (spec.command_by inside tokens.old) result tokens.new }
{
    match inside {
        Inside::Top => outer(alloc, tokens),
        Inside::Table => table_line(alloc, tokens),
        Inside::Class => class_line(alloc, tokens),
    }
}

/// That the line ends behind the command.
#[tactic(auto, unfolding(crate::specs::Line::ends))]
fn ends(tokens: &Tokens<'_>, command: Command) -> Result<Command, Fault>
    ensures { Reads (spec.ends command tokens.now) result tokens.now }
{
    if tokens.sees(Kind::LineEnd) {
        return Ok(command);
    }
    command.let_go();
    Err(tokens.refuse())
}

#[tactic(auto, unfolding(crate::specs::Line::line_of))]
fn whole_line(alloc: Global, tokens: &mut Tokens<'_>, inside: Inside) -> Result<Command, Fault>
    ensures { Reads (spec.line_of inside tokens.old) result tokens.new }
{
    let command = command(alloc, tokens, inside)?;
    ends(tokens, command)
}

fn refusal_of(number: u32, fault: Fault) -> Refusal
    ensures { result ≡ spec.refusal_of number fault }
{
    match fault {
        Fault::Memory => Refusal::Memory,
        Fault::At(at) => Refusal::ScriptError(number, column(at)),
    }
}

/// The column of a place in a line, from 1.
fn column(at: usize) -> u32
    ensures { result ≡ spec.column at }
{
    if at < 4294967295 {
        at as u32 + 1
    } else {
        4294967295
    }
}

/// The command or block line that a line says: the one of the language's forms that its tokens are. A blank line or a comment gives `Skip`.
///
/// `line` has no line end, `number` is its number from 1, and `inside` is the block in which it stands.
///
/// # Errors
/// `ScriptError` tells the line and the column, in bytes from 1, of the first token with which no form goes on, of a byte that begins
/// no token, or one past the line's last byte. `Memory`.
#[tactic(auto, using(crate::proofs::Faults::faults), unfolding(crate::specs::Line::line))]
pub fn read_line(
    alloc: Global,
    line: &[u8],
    number: u32,
    inside: Inside,
) -> Result<Command, Refusal>
    ensures answer { Gives (λ command. command) result (spec.line line.now number inside) }
    ensures cause { IfErr result spec.IsOfReading }
{
    if skipped(line) {
        return Ok(Command::Skip);
    }
    let found = tokens(alloc, line)?;
    let mut ahead = Tokens::new(&found);
    match whole_line(alloc, &mut ahead, inside) {
        Ok(command) => Ok(command),
        Err(fault) => Err(refusal_of(number, fault)),
    }
}
