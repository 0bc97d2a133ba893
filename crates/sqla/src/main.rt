//! The program `sqla`: a script from standard input, done over a keeper in memory or in a file, and answered to standard output.
#![tactic(auto)]

ghost use Rattle.std.specs.Prelude.{◌≡◌, None, IsSome};

use byte_streams::{StdSink, StdSource};
use class_types::Hooks;
use keeper_core::Keeper;
use keeper_shelf::{OverKeepers, over_shelf};
use shipped_validators::{WithValidators, with_shipped};
use sqla_shell::{Status, refuse_words, run};
use sqlite_database::Database;
use sqlite_links::{OverDatabases, over_sqlite};
use std::io::writer;
use std::process::ExitCode;
use std::rt::Env;
use std::{env, io};

/// The program, over databases of any type.
struct Program;

impl OverDatabases for Program {
    fn run<D: Database + Drop>(rt: HostRuntime) -> u8 {
        status_of::<D>(rt).code()
    }
}

fn main(rt: HostRuntime) -> ExitCode {
    ExitCode::from(over_sqlite::<Program>(rt))
}

/// The words after the program's name.
fn words_of(rt: &(impl Env + AllocGlobal)) -> io::Result<Vec<String>> {
    let mut words = Vec::new(rt.alloc());
    for word in env::args(rt)?.skip(1) {
        words.push(word)?;
    }
    Ok(words)
}

/// Runs the script of standard input. A word that is no UTF-8 is none that the program takes.
fn status_of<D: Database + Drop>(rt: HostRuntime) -> Status {
    match words_of(&rt) {
        Ok(words) => run_words::<D>(rt, &words),
        Err(error) => status_without_words(&rt, error.kind()),
    }
}

/// The status where the words could not be read.
fn status_without_words(rt: &(impl Print + AllocGlobal), kind: io::ErrorKind) -> Status {
    match kind {
        io::ErrorKind::InvalidData => refuse_words(&mut StdSink::new(writer(rt))),
        _ => Status::Memory,
    }
}

/// A run with these words, and how it ended once it was done.
#[derive(Drop)]
struct ScriptRun<'x> {
    rt: HostRuntime,
    words: &'x Vec<String>,
    status: Option<Status>,
}

impl OverKeepers for ScriptRun<'_> {
    ghost is_done = { λ s. IsSome s.status };

    fn run<K: Keeper>(&mut self, keeper: &mut K) {
        if with_shipped(self.rt.alloc(), keeper, self).is_err() {
            self.status = Some(Status::Memory);
        }
    }
}

impl WithValidators for ScriptRun<'_> {
    ghost is_done = { λ s. IsSome s.status };

    fn run<K: Keeper>(&mut self, keeper: &mut K, hooks: &Hooks) {
        self.status = Some(run_streams(&self.rt, self.words, keeper, hooks));
    }
}

/// Runs the script of standard input with these words.
fn run_words<D: Database + Drop>(rt: HostRuntime, words: &Vec<String>) -> Status {
    let mut program = ScriptRun {
        rt,
        words,
        status: None,
    };
    match over_shelf::<D, _>(rt, &mut program) {
        Ok(()) => program.status.unwrap(),
        Err(_) => Status::Memory,
    }
}

/// Runs the script of standard input, and answers to standard output.
fn run_streams<K: Keeper>(
    rt: &(impl Input + Print + AllocGlobal),
    words: &Vec<String>,
    keeper: &mut K,
    hooks: &Hooks,
) -> Status
    requires { (K.moment keeper.old).target ≡ None }
{
    let mut source = StdSource::new(rt.reader());
    let mut sink = StdSink::new(writer(rt));
    run(rt.alloc(), words, &mut source, &mut sink, keeper, hooks)
}
