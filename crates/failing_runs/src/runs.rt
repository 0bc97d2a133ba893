//! Runs of a script.

use base_core::Refusal;
use byte_streams::{MemSink, MemSource};
use class_types::Hooks;
use keeper_core::Keeper;
use keeper_mem::{OverKeepers, over_memory};
use keeper_sqlite::SqliteKeeper;
use sqla_shell::{Status, run};
use sqlite_database::Database;
use std::alloc::Global;

/// The number of the read, of the write and of the call that fails, from 1; 0 where none does.
#[derive(Clone, Copy)]
pub struct Failing {
    read: u64,
    write: u64,
    call: u64,
}

/// Nothing fails.
pub const NOTHING: Failing = Failing {
    read: 0,
    write: 0,
    call: 0,
};

/// The call of a kind with this number fails alone.
pub fn only(kind: &str, number: u64) -> Failing {
    match kind {
        "read" => Failing {
            read: number,
            write: 0,
            call: 0,
        },
        "write" => Failing {
            read: 0,
            write: number,
            call: 0,
        },
        _ => Failing {
            read: 0,
            write: 0,
            call: number,
        },
    }
}

/// A run of a script: what it is read from and what it is answered to, and how it ended.
pub struct Run {
    alloc: Global,
    words: Vec<String>,
    source: MemSource,
    pub sink: MemSink,
    pub status: Status,
}

impl Drop for Run {
    fn drop(self) {
        let Run {
            alloc: _,
            words: _,
            source: _,
            sink: _,
            status: _,
        } = self;
    }
}

impl OverKeepers for Run {
    fn run<K: Keeper>(&mut self, keeper: &mut K) {
        let hooks = Hooks::new(self.alloc);
        self.status = run(
            self.alloc,
            &self.words,
            &mut self.source,
            &mut self.sink,
            keeper,
            &hooks,
        );
    }
}

/// The run of a script with these words, before it has begun.
fn new_run(
    alloc: Global,
    words: Vec<String>,
    script: &str,
    failing: Failing,
) -> Result<Run, Refusal> {
    Ok(Run {
        alloc,
        words,
        source: MemSource::new(alloc, script.as_bytes(), &[failing.read])?,
        sink: MemSink::new(alloc, &[failing.write])?,
        status: Status::Memory,
    })
}

/// Runs a script over a new keeper in memory, where these calls fail.
pub fn run_once(alloc: Global, script: &str, failing: Failing) -> Result<Run, Refusal> {
    let mut run = new_run(alloc, Vec::new(alloc), script, failing)?;
    over_memory(alloc, &[failing.call], &mut run)?;
    Ok(run)
}

/// Runs a script over a new keeper over SQLite, on a database in memory, and echoes what each line sends.
pub fn run_over_sqlite<D: Database + Drop>(rt: HostRuntime, script: &str) -> Result<Run, Refusal> {
    let alloc = rt.alloc();
    let mut words = Vec::new(alloc);
    words.push(String::from_str(alloc, "--echo")?)?;
    let mut run = new_run(alloc, words, script, NOTHING)?;
    let mut keeper = SqliteKeeper::<D>::new(rt, alloc);
    run.run(&mut keeper);
    Ok(run)
}

/// The status of a run that wrote the first of what the whole one wrote, and all of it where it ended as that one did.
pub fn ended(whole: &Run, one: &Run) -> Option<u8> {
    let (all, first) = (whole.sink.bytes(), one.sink.bytes());
    let ends_alike = whole.status == one.status;
    if all.starts_with(first) && (!ends_alike || all.len() == first.len()) {
        Some(one.status.code())
    } else {
        None
    }
}
