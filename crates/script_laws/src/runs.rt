//! Whole runs.

ghost use Rattle.std.specs.Prelude.{◌≡◌, None, Some, map, string_bytes};
ghost use Rattle.class_types.specs.Shown.{rules_of};
ghost use Rattle.program_words.specs.Asked.{options_asked};
ghost use Rattle.program_words.specs.declared.options.Options.{Options};
ghost use Rattle.keeper_core.specs.declared.target.Target.TheVariants as targets;
ghost use Rattle.sqla_shell.specs.Seen.{moment_seen};
ghost use Rattle.sqla_shell.specs.Words.{print_options};
ghost use Rattle.script_laws.specs.Answers.Runs.{EndsAsItsLinesAnswer};

use byte_streams::{Sink, Source};
use class_types::Hooks;
use keeper_core::Keeper;
use sqla_shell::{Status, run};
use std::alloc::Global;

/// Does a script over a keeper, as `run` does. With words that name memory, a script that passes no limit, and no fault of the source,
/// the sink or the keeper, it is done where each line of the script is answered and no block is open at its end, and refused where that
/// is not so; or memory ran out. There is no other end.
pub fn run_to_its_end<S: Source, O: Sink, K: Keeper>(
    alloc: Global,
    words: &Vec<String>,
    source: &mut S,
    sink: &mut O,
    keeper: &mut K,
    validators: &Hooks,
) -> Status
    requires { (K.moment keeper.old).target ≡ None }
    ensures ends { (options : Options) →
        options_asked (map string_bytes words.now.items) ≡ Some options
        → options.target ≡ targets.Memory → EndsAsItsLinesAnswer (print_options options)
        (rules_of validators.now)
        (moment_seen (S.left source.old) (S.faults source.old) (O.written sink.old) (O.faults sink.old)
        (K.moment keeper.old))
        result
        (moment_seen (S.left source.new) (S.faults source.new) (O.written sink.new) (O.faults sink.new)
        (K.moment keeper.new)) }
{
    run(alloc, words, source, sink, keeper, validators)
}
