//! The lines of a script, each done and answered before the next is read.

ghost use Rattle.std.specs.Prelude.{◌≡◌, [], None, true, false, IfOk, OnOk};
ghost use Rattle.class_types.specs.Shown.{rules_of};
ghost use Rattle.keeper_core.specs.Programs.{as_refusal};
ghost use Rattle.keeper_core.specs.Moment.{Runs};
ghost use Rattle.byte_streams.specs.Cutting.{FitsSource, Pending, to_come};
ghost use Rattle.shell_stage.specs.Stages.{IsReady};
ghost use Rattle.sqla_shell.specs.Causes.{CountsFaults, faults, stop_refusal};
ghost use Rattle.sqla_shell.specs.Outcome.{DoesLines, DoesScript, HasNothingLeft, HasWritten, moment_writing};
ghost use Rattle.sqla_shell.specs.Reference.{close_and_tell, do_and_reply, end_script, writes};
ghost use Rattle.sqla_shell.specs.Seen.{Keeps, moment_seen};

use crate::ending::Ending;
use crate::stop::Stop;
use byte_streams::{LineBuffer, NextLine, Sink, Source};
use class_types::Hooks;
use keeper_core::Keeper;
use shell_steps::Shell;
use std::alloc::Global;

/// Writes all of a piece.
pub fn write_all<O: Sink>(sink: &mut O, piece: &[u8]) -> Result<(), Stop>
    ensures bytes { HasWritten (O.written sink.old) piece.now result (O.written sink.new) }
    ensures faults { CountsFaults result (faults 0 (O.faults sink.old) 0)
        (faults 0 (O.faults sink.new) 0) }
{
    let mut written = 0;
    while written < piece.len() {
        written += sink.write(&piece[written..])?;
    }
    Ok(())
}

/// Does the lines of a script, and then what its end asks for.
pub fn do_script<S: Source, O: Sink, K: Keeper>(
    alloc: Global,
    shell: &mut Shell,
    source: &mut S,
    sink: &mut O,
    keeper: &mut K,
    hooks: &Hooks,
) -> Result<Ending, Stop>
    requires ready { IsReady shell.old.stage (K.moment keeper.old) }
    ensures reference { DoesScript (rules_of hooks.now) (S.left source.old) (moment_writing K.moment O.written)
        (shell.old, keeper.old, sink.old) (as_refusal stop_refusal result)
        (shell.new, keeper.new, sink.new) }
    ensures through { IfOk result (λ ending. ending ≡ Ending.Finished
        → HasNothingLeft (S.left source.old) (S.left source.new)) }
    ensures keeps { Keeps
        (moment_seen (S.left source.old) (S.faults source.old) (O.written sink.old) (O.faults sink.old)
        (K.moment keeper.old))
        result
        (moment_seen (S.left source.new) (S.faults source.new) (O.written sink.new) (O.faults sink.new)
        (K.moment keeper.new)) }
    ensures outside { IfOk result
        (λ ending. ending ≡ Ending.Finished → (K.moment keeper.new).depth ≡ 0) }
{
    let mut lines = LineBuffer::new(alloc);
    match do_lines(&mut lines, shell, source, sink, keeper, hooks)? {
        Ending::Finished => finish(shell, sink, keeper),
        Ending::TooLong => Ok(Ending::TooLong),
    }
}

/// Does the lines of a script, and tells whether a limit was passed behind them.
fn do_lines<S: Source, O: Sink, K: Keeper>(
    lines: &mut LineBuffer,
    shell: &mut Shell,
    source: &mut S,
    sink: &mut O,
    keeper: &mut K,
    hooks: &Hooks,
) -> Result<Ending, Stop>
    requires start { lines.old ≡ record { bytes = []; taken = 0; ended = false } }
    requires ready { IsReady shell.old.stage (K.moment keeper.old) }
    ensures reference { DoesLines (rules_of hooks.now) (S.left source.old) (moment_writing K.moment O.written)
        (shell.old, keeper.old, sink.old) (as_refusal stop_refusal result)
        (shell.new, keeper.new, sink.new) }
    ensures through { IfOk result (λ ending. ending ≡ Ending.Finished
        → HasNothingLeft (S.left source.old) (S.left source.new)) }
    ensures ready { OnOk result (IsReady shell.new.stage (K.moment keeper.new)) }
    ensures keeps { Keeps
        (moment_seen (S.left source.old) (S.faults source.old) (O.written sink.old) (O.faults sink.old)
        (K.moment keeper.old))
        result
        (moment_seen (S.left source.new) (S.faults source.new) (O.written sink.new) (O.faults sink.new)
        (K.moment keeper.new)) }
{
    for _turn in 0..u64::MAX {
        match lines.next_line(source)? {
            NextLine::End => return Ok(Ending::Finished),
            NextLine::TooLong => return Ok(Ending::TooLong),
            NextLine::Line(line) => answer_line(shell, sink, keeper, hooks, line.as_slice())?,
        }
    }
    Ok(Ending::TooLong)
}

/// Does a line, and then its reply goes out.
fn answer_line<O: Sink, K: Keeper>(
    shell: &mut Shell,
    sink: &mut O,
    keeper: &mut K,
    hooks: &Hooks,
    line: &[u8],
) -> Result<(), Stop>
    requires { IsReady shell.old.stage (K.moment keeper.old) }
    ensures step { Runs (moment_writing K.moment O.written) (λ u. u)
        (do_and_reply (rules_of hooks.now) line.now tt)
        (shell.old, keeper.old, sink.old) (as_refusal stop_refusal result)
        (shell.new, keeper.new, sink.new) }
    ensures ready { OnOk result (IsReady shell.new.stage (K.moment keeper.new)) }
    ensures keeps { Keeps
        (moment_seen None 0 (O.written sink.old) (O.faults sink.old) (K.moment keeper.old))
        result
        (moment_seen None 0 (O.written sink.new) (O.faults sink.new) (K.moment keeper.new)) }
{
    let reply = shell.answer(keeper, hooks, line)?;
    write_all(sink, reply.bytes())
}

/// Ends a script: a block that is open is refused, and the session is closed.
fn finish<O: Sink, K: Keeper>(
    shell: &mut Shell,
    sink: &mut O,
    keeper: &mut K,
) -> Result<Ending, Stop>
    requires { IsReady shell.old.stage (K.moment keeper.old) }
    ensures step { Runs (moment_writing K.moment O.written) (λ e. e) end_script
        (shell.old, keeper.old, sink.old) (as_refusal stop_refusal result)
        (shell.new, keeper.new, sink.new) }
    ensures finished { IfOk result (λ ending. ending ≡ Ending.Finished) }
    ensures outside { OnOk result ((K.moment keeper.new).depth ≡ 0) }
    ensures keeps { Keeps
        (moment_seen None 0 (O.written sink.old) (O.faults sink.old) (K.moment keeper.old))
        result
        (moment_seen None 0 (O.written sink.new) (O.faults sink.new) (K.moment keeper.new)) }
{
    let reply = shell.answer_end(keeper)?;
    write_all(sink, reply.bytes())?;
    close(shell, sink, keeper)?;
    Ok(Ending::Finished)
}

/// Closes the session, and then what is told of that goes out.
fn close<O: Sink, K: Keeper>(shell: &mut Shell, sink: &mut O, keeper: &mut K) -> Result<(), Stop>
    requires { IsReady shell.old.stage (K.moment keeper.old) }
    ensures step { Runs (moment_writing K.moment O.written) (λ u. u) close_and_tell
        (shell.old, keeper.old, sink.old) (as_refusal stop_refusal result)
        (shell.new, keeper.new, sink.new) }
    ensures outside { OnOk result ((K.moment keeper.new).depth ≡ 0) }
    ensures keeps { Keeps
        (moment_seen None 0 (O.written sink.old) (O.faults sink.old) (K.moment keeper.old))
        result
        (moment_seen None 0 (O.written sink.new) (O.faults sink.new) (K.moment keeper.new)) }
{
    let reply = shell.close(keeper)?;
    write_all(sink, reply.bytes())
}
