//! Lines are read, and the selects and bulk statements that they say are of the kind that lines can say: `and` and `or` join two
//! parts or more, NULL is no literal, and a number of rows is less than 2^63. So where one is resolved and not refused, a select
//! is plain and a bulk statement fits its table, with nothing else to suppose.
#![tactic(auto)]

ghost use Rattle.std.specs.Prelude.{IfErr, IfOk};
ghost use Rattle.base_core.specs.Answers.{Gives};
ghost use Rattle.sayable_lines.specs.Sayable.{BulksOfLinesFit, IsSayable, SelectsOfLinesAnswerAsWritten, SelectsOfLinesArePlain};
ghost use Rattle.script_read.specs.Line as spec;

use base_core::Refusal;
use script_types::{Command, Inside};
use std::alloc::Global;

/// The command or block line that a line says, as `script_read::read_line` answers it: its select or bulk statement, where it
/// has one, meets what `resolve_select` and `resolve_bulk` suppose of what a line can say.
///
/// # Errors
/// `ScriptError` with the line's number and the column at which no line of the forms goes on, and `Memory`.
#[tactic(auto, using(crate::proofs::Lines::reading))]
pub fn read_line(
    alloc: Global,
    line: &[u8],
    number: u32,
    inside: Inside,
) -> Result<Command, Refusal>
    ensures command { Gives (λ command. command) result (spec.line line.now number inside) }
    ensures cause { IfErr result spec.IsOfReading }
    ensures sayable { IfOk result IsSayable }
{
    script_read::read_line(alloc, line, number, inside)
}

/// A law that does nothing when it runs: the select that a line says is plain where it is resolved and not refused, and has the
/// answer of what is written over all tables whose rows fit their columns; and the bulk statement fits its table.
pub fn what_lines_say_is_plain()
    ensures selects { SelectsOfLinesArePlain }
    ensures answers { SelectsOfLinesAnswerAsWritten }
    ensures bulks { BulksOfLinesFit }
{}
