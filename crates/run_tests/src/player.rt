//! Plays lines.

use failing_runs::{NOTHING, Run, ended, only, run_once, run_over_sqlite};
use notations::{Page, Plays, parted};
use sqlite_database::Database;
use std::alloc::Global;
use std::mem;

/// The script so far.
#[derive(Drop)]
pub(crate) struct Player {
    script: String,
}

/// What a run wrote, and its status.
fn say_run(run: &Run, page: &mut Page) {
    page.put(std::str::from_utf8(run.sink.bytes()).unwrap_or("no text\n"));
    page.put_number("status ", u64::from(run.status.code()));
    page.push('\n');
}

/// Runs a script over the keeper over SQLite.
pub(crate) fn say_over_sqlite<D: Database + Drop>(rt: HostRuntime, script: &str, page: &mut Page) {
    match run_over_sqlite::<D>(rt, script) {
        Ok(run) => say_run(&run, page),
        Err(_) => page.lack(),
    }
}

/// How the run ends in which the call of a kind with this number fails, as `ended` tells it beside the whole one.
fn failed_at(script: &str, whole: &Run, kind: &str, number: u64, page: &mut Page) -> Option<u8> {
    match run_once(page.alloc(), script, only(kind, number)) {
        Ok(one) => ended(whole, &one),
        Err(_) => {
            page.lack();
            None
        }
    }
}

/// The status of all runs before the one that is whole, or the first run that differs from the one before it.
fn say_each(script: &str, whole: &Run, kind: &str, page: &mut Page) {
    let first = failed_at(script, whole, kind, 1, page);
    for number in 2..1000 {
        let status = failed_at(script, whole, kind, number, page);
        if status != first {
            let is_whole = status == Some(whole.status.code());
            say_status(kind, number, if is_whole { first } else { None }, page);
            return;
        }
    }
    page.put("no run is whole\n");
}

/// The status of all runs before the one of this number; with none, this run is neither as they are nor whole.
fn say_status(kind: &str, number: u64, status: Option<u8>, page: &mut Page) {
    page.put("each ");
    page.put(kind);
    match status {
        Some(status) => page.put_number(": status ", u64::from(status)),
        None => page.put_number(" is answered otherwise: ", number),
    }
    page.push('\n');
}

impl Player {
    /// No script.
    pub(crate) fn new(alloc: Global) -> Player {
        Player {
            script: String::new(alloc),
        }
    }

    /// Begins another script.
    fn restart(&mut self, line: &str, page: &mut Page) {
        drop(mem::replace(&mut self.script, String::new(page.alloc())));
        page.put(line);
        page.push('\n');
    }

    /// Runs the script, where what a text names fails: its kind, and its number behind a blank.
    fn run(&self, failing: &str, page: &mut Page) {
        let (kind, number) = parted(failing, ' ');
        let failing = only(kind, number.parse::<u64>().unwrap_or(0));
        match run_once(page.alloc(), self.script.as_str(), failing) {
            Ok(run) => say_run(&run, page),
            Err(_) => page.lack(),
        }
    }

    /// Runs the script with each call of a kind failing in turn.
    fn run_each(&self, kind: &str, page: &mut Page) {
        match run_once(page.alloc(), self.script.as_str(), NOTHING) {
            Ok(whole) => say_each(self.script.as_str(), &whole, kind, page),
            Err(_) => page.lack(),
        }
    }

    /// A line goes to the end of the script.
    fn take(&mut self, line: &str, page: &mut Page) {
        let done = self.script.push_str(line);
        page.note(done);
        let done = self.script.push('\n');
        page.note(done);
    }
}

impl Plays for Player {
    fn play(&mut self, line: &str, page: &mut Page) {
        let (word, text) = parted(line, ' ');
        match word {
            "#" => self.restart(line, page),
            "run" => self.run(text, page),
            "each" => self.run_each(text, page),
            _ => self.take(text, page),
        }
    }
}
