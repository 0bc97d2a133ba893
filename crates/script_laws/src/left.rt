//! What lines leave that flush.

ghost use Rattle.std.specs.Prelude.{ℕ, List, None};
ghost use Rattle.script_types.specs.declared.command.Command.TheVariants as command;
ghost use Rattle.script_laws.specs.Answers.Left.{LeavesWhatIsStated};
ghost use Rattle.script_laws.specs.Answers.Lines.{BehindLines};

use crate::scripts_stay_whole;
use session_laws::flushes_leave_the_stated_rows;

/// Behind whatever lines of a script, over classes of any form, with objects that are to be deleted and pairs that are taken away too: a
/// line `flush` that is not refused leaves exactly the rows that the objects of the session state, once all is read that is to be known
/// of those that are to be deleted. So do `commit` and a line that begins a savepoint. The rows of deleted objects are gone, changed cells
/// are written, new rows are put in, and every other row is as it was. It does nothing when it runs.
pub fn lines_that_flush_leave_the_stated_rows()
    ensures flush { BehindLines (LeavesWhatIsStated command.Flush) }
    ensures commit { BehindLines (LeavesWhatIsStated (command.Commit None)) }
    ensures begin { (name : List ℕ) → BehindLines (LeavesWhatIsStated (command.BeginNested name)) }
{
    flushes_leave_the_stated_rows();
    scripts_stay_whole();
}
