//! The top call.

ghost use Rattle.std.specs.Prelude.{◌≡◌, ◌≢◌, ◌≤◌, ℕ, Bool, map, None, Some, true, Ok, Err, IfOk, string_bytes};
ghost use Rattle.class_types.specs.Shown.{rules_of};
ghost use Rattle.program_words.specs.Asked.{options_asked};
ghost use Rattle.sqla_shell.specs.Causes.{CountsFaults, ShowsFaults, done_status, faults, stop_status};
ghost use Rattle.sqla_shell.specs.Outcome.{Concludes, IsDone, IsReadThrough, IsReference, IsRolledBack, IsUsage, Rests};
ghost use Rattle.sqla_shell.specs.Seen.{KeepsKeeper, moment_seen};
ghost use Rattle.sqla_shell.specs.Words.{IsGiven, IsRun, print_options, untaken_status};

use crate::ending::Ending;
use crate::script::{do_script, write_all};
use crate::status::Status;
use crate::stop::Stop;
use byte_streams::{Sink, Source};
use class_types::Hooks;
use keeper_core::{Keeper, KeeperStop};
use program_words::{Options, WordsRefusal, read_words};
use shell_replies::PrintOptions;
use shell_steps::Shell;
use std::alloc::Global;

/// What a run with other words writes.
const USAGE: &[u8] = b"usage: sqla [--dialect D] [--echo] [--store FILE] [--generate N]\n";

/// Does a script over a keeper, and answers to the sink.
///
/// `words` are the words after the program's name. They name the keeper's target, memory or a file, the dialect in which texts of
/// statements are printed, and whether those that each line sends are. Where they are none that the program takes, the run writes
/// the usage line and ends with `Usage`. `hooks` are the validators that classes may name. Lines are done one by one as they are
/// read, and what a line answers goes out after it has ended. At the script's end the session is closed; where the run ends before
/// it, the keeper's transaction is rolled back.
///
/// Where the source, the sink and the keeper tell what they have, the keeper once it has its target, what is written, the statements
/// that are sent, the status and the tables at the end are those of the reference session (`specs/Reference.antt`), from the tables
/// in the target, where no statement had been sent: none in memory, and in a file those that the keeper was to tell of it, which
/// ascend.
pub fn run<S: Source, O: Sink, K: Keeper>(
    alloc: Global,
    words: &Vec<String>,
    source: &mut S,
    sink: &mut O,
    keeper: &mut K,
    hooks: &Hooks,
) -> Status
    requires { (K.moment keeper.old).target ≡ None }
    // With words that are none of the program's the usage line is written, and nothing else happens.
    ensures usage { options_asked (map string_bytes words.now.items) ≡ None
        → IsUsage (O.written sink.old) result (O.written sink.new) }
    ensures unread { options_asked (map string_bytes words.now.items) ≡ None
        → source.new ≡ source.old }
    ensures unused { options_asked (map string_bytes words.now.items) ≡ None
        → keeper.new ≡ keeper.old }
    // Where the keeper was given no target, it is as before, and nothing was read.
    ensures ungiven { (K.moment keeper.new).target ≡ None → keeper.new ≡ keeper.old }
    ensures unasked { (K.moment keeper.new).target ≡ None → source.new ≡ source.old }
    // With words of the program the run is the reference's, from the tables in the target that they name.
    ensures reference { (options : Options) →
        options_asked (map string_bytes words.now.items) ≡ Some options
        → IsRun options
        (rules_of hooks.now)
        (K.opening keeper.old)
        (moment_seen (S.left source.old) (S.faults source.old) (O.written sink.old) (O.faults sink.old)
        (K.moment keeper.old))
        result
        (moment_seen (S.left source.new) (S.faults source.new) (O.written sink.new) (O.faults sink.new)
        (K.moment keeper.new)) }
    ensures through { IsReadThrough result (S.left source.old) (S.left source.new) }
    ensures target { (options : Options) →
        options_asked (map string_bytes words.now.items) ≡ Some options
        → IsGiven (K.moment keeper.old) options.target result (K.moment keeper.new) }
    ensures words { result ≡ Status.Usage
        → options_asked (map string_bytes words.now.items) ≡ None }
    ensures faults { ShowsFaults result (K.moment keeper.new).attached
        (faults (S.faults source.old) (O.faults sink.old) (K.moment keeper.old).faults)
        (faults (S.faults source.new) (O.faults sink.new) (K.moment keeper.new).faults) }
{
    match options_of(alloc, words) {
        Ok(options) => run_with(alloc, options, source, sink, keeper, hooks),
        Err(WordsRefusal::Usage) => refuse_words(sink),
        Err(WordsRefusal::Memory) => Status::Memory,
    }
}

/// What the words ask for.
fn options_of(alloc: Global, words: &Vec<String>) -> Result<Options, WordsRefusal>
    ensures ok { IfOk result
        (λ options. options_asked (map string_bytes words.now.items) ≡ Some options) }
    ensures usage { result ≡ Err WordsRefusal.Usage
        → options_asked (map string_bytes words.now.items) ≡ None }
{
    read_words(alloc, words.as_slice())
}

/// Does a script as the words ask for.
fn run_with<S: Source, O: Sink, K: Keeper>(
    alloc: Global,
    options: Options,
    source: &mut S,
    sink: &mut O,
    keeper: &mut K,
    hooks: &Hooks,
) -> Status
    requires { (K.moment keeper.old).target ≡ None }
    ensures reference { IsReference (print_options options) (rules_of hooks.now) options.target
        (K.opening keeper.old options.target)
        (moment_seen (S.left source.old) (S.faults source.old) (O.written sink.old) (O.faults sink.old)
        (K.moment keeper.old))
        result
        (moment_seen (S.left source.new) (S.faults source.new) (O.written sink.new) (O.faults sink.new)
        (K.moment keeper.new)) }
    ensures through { IsReadThrough result (S.left source.old) (S.left source.new) }
    ensures target { (K.moment keeper.new).target ≡ Some options.target }
    ensures usage { result ≢ Status.Usage }
    ensures faults { ShowsFaults result (K.moment keeper.new).attached
        (faults (S.faults source.old) (O.faults sink.old) (K.moment keeper.old).faults)
        (faults (S.faults source.new) (O.faults sink.new) (K.moment keeper.new).faults) }
{
    let Options {
        dialect,
        echo,
        target,
    } = options;
    match keeper.attach(alloc, target) {
        Ok(()) => run_script(
            alloc,
            PrintOptions { dialect, echo },
            source,
            sink,
            keeper,
            hooks,
        ),
        Err(stop) => status_untaken(stop),
    }
}

/// The status of a run whose keeper did not take its target.
fn status_untaken(stop: KeeperStop) -> Status
    ensures { result ≡ untaken_status stop }
{
    match stop {
        KeeperStop::Fault => Status::KeeperFault,
        KeeperStop::Memory => Status::Memory,
    }
}

/// Answers words that the program does not take: writes the usage line.
pub fn refuse_words<O: Sink>(sink: &mut O) -> Status
    ensures usage { IsUsage (O.written sink.old) result (O.written sink.new) }
    ensures faults { (attached : Bool) (source keeper : ℕ) → ShowsFaults result attached
        (faults source (O.faults sink.old) keeper) (faults source (O.faults sink.new) keeper) }
{
    match write_all(sink, USAGE) {
        Ok(()) => Status::Usage,
        Err(Stop::Write) => Status::WriteFault,
        Err(_) => Status::Memory,
    }
}

/// Does a script over a keeper that took its target.
fn run_script<S: Source, O: Sink, K: Keeper>(
    alloc: Global,
    print: PrintOptions,
    source: &mut S,
    sink: &mut O,
    keeper: &mut K,
    hooks: &Hooks,
) -> Status
    requires attached { (K.moment keeper.old).attached ≡ true }
    requires outside { (K.moment keeper.old).depth ≡ 0 }
    ensures reference { IsDone print (rules_of hooks.now)
        (moment_seen (S.left source.old) (S.faults source.old) (O.written sink.old) (O.faults sink.old)
        (K.moment keeper.old))
        result
        (moment_seen (S.left source.new) (S.faults source.new) (O.written sink.new) (O.faults sink.new)
        (K.moment keeper.new)) }
    ensures through { IsReadThrough result (S.left source.old) (S.left source.new) }
    ensures keeper { KeepsKeeper (K.moment keeper.old) (K.moment keeper.new) }
    ensures usage { result ≢ Status.Usage }
    ensures faults { ShowsFaults result true
        (faults (S.faults source.old) (O.faults sink.old) (K.moment keeper.old).faults)
        (faults (S.faults source.new) (O.faults sink.new) (K.moment keeper.new).faults) }
{
    let mut shell = Shell::new(alloc, print);
    let done = do_script(alloc, &mut shell, source, sink, keeper, hooks);
    conclude(&shell, keeper, done)
}

#[tactic(auto, using(crate::proofs::EndLemmas::resting))]
/// The status of a script that was done or stopped. Where it was not done to its end, the transaction is rolled back.
fn conclude<K: Keeper>(shell: &Shell, keeper: &mut K, done: Result<Ending, Stop>) -> Status
    requires attached { (K.moment keeper.old).attached ≡ true }
    requires outside { done ≡ Ok Ending.Finished → (K.moment keeper.old).depth ≡ 0 }
    ensures concluded { Concludes done shell.now.desk.refused (K.moment keeper.old).told result
        (K.moment keeper.new).told }
    ensures rests { Rests (K.moment keeper.old) (K.moment keeper.new) }
    ensures counted { IfOk done (λ ending. ending ≡ Ending.Finished
        → (K.moment keeper.new).faults ≡ (K.moment keeper.old).faults) }
{
    match done {
        Ok(Ending::Finished) => end_status(shell),
        Ok(Ending::TooLong) => {
            roll_back(keeper);
            Status::TooLong
        }
        Err(stop) => {
            roll_back(keeper);
            status_of(stop)
        }
    }
}

/// Rolls the keeper's transaction back, where one is in progress. A failure there leaves the run's status.
fn roll_back<K: Keeper>(keeper: &mut K)
    requires { (K.moment keeper.old).attached ≡ true }
    ensures undone { IsRolledBack (K.moment keeper.old).told (K.moment keeper.new).told }
    ensures rests { Rests (K.moment keeper.old) (K.moment keeper.new) }
{
    if keeper.depth() > 0 {
        let _rolled_back = keeper.rollback();
    }
}

/// The status of a run that stopped.
fn status_of(stop: Stop) -> Status
    ensures { result ≡ stop_status stop }
{
    match stop {
        Stop::Read => Status::ReadFault,
        Stop::Write => Status::WriteFault,
        Stop::Keeper => Status::KeeperFault,
        Stop::Memory => Status::Memory,
    }
}

/// The status of a run that came to its script's end.
fn end_status(shell: &Shell) -> Status
    ensures { result ≡ done_status shell.now.desk.refused }
{
    if shell.has_refused() {
        Status::Refused
    } else {
        Status::Done
    }
}
