//! Lines that flush.

ghost use Rattle.std.specs.Prelude.{None};
ghost use Rattle.script_types.specs.declared.command.Command.TheVariants as command;
ghost use Rattle.script_laws.specs.Answers.Lines.{BeginsSavepoints, BehindLines, CarriesOut, WordsAreRead};

use crate::scripts_stay_whole;
use session_laws::stated_objects_are_written;

/// Behind whatever lines of a script, over whatever classes it has configured, and with objects that are to be deleted or without: a line
/// `flush` is carried out, and so is `commit`, wherever what the objects of the session state at that moment can be written. So is a line
/// that begins a savepoint, where fewer than 64 are open. Nothing is asked of the session but what it states. It does nothing when it
/// runs.
pub fn lines_that_flush_are_carried_out()
    ensures flush { BehindLines (CarriesOut command.Flush) }
    ensures commit { BehindLines (CarriesOut (command.Commit None)) }
    ensures begin { BehindLines BeginsSavepoints }
{
    stated_objects_are_written();
    scripts_stay_whole();
}

/// The words `flush` and `commit` are such lines, where no block is open. It does nothing when it runs.
pub fn words_that_flush_are_read()
    ensures { WordsAreRead }
{}
