//! Runs scripts over the keeper in memory where calls of the keeper, reads and writes fail, and scripts over the keeper over SQLite. What
//! scripts answer over the keeper in memory where nothing fails, and over a file, stands in the folder `scripts/`.
//!
//! `# ` begins a line that is written as it stands, and with it another script, of which each line stands behind `> `. `run` with
//! `call`, `read` or `write` and a number is answered by what a run writes in which that one fails, and its status. `each call`,
//! `each read` and `each write` run the script once for each of these, which fails then, until a run is as the one in which none fails:
//! the answer is the status of all runs before it, each of which has written the first of what the whole run writes, or the first run
//! that is not so.
//!
//! Behind a line `====` stand whole scripts, with such lines between them. Each is run over a keeper over SQLite, on a new database in
//! memory, and answered by what the run writes, with the statements that it sends, and its status.
#![tactic(auto)]

mod player;

use notations::{Page, play_all};
use player::{Player, say_over_sqlite};
use sqlite_database::Database;
use sqlite_links::{OverDatabases, over_sqlite};
use std::alloc::AllocError;
use std::io;
use std::process::ExitCode;

/// What is written for the lines of a text, and for the scripts behind them.
fn told<D: Database + Drop>(rt: HostRuntime, text: &str) -> Result<String, AllocError> {
    let (lines, scripts) = text.split_once("====\n").unwrap_or((text, ""));
    let mut page = Page::new(rt.alloc());
    play_all(&mut Player::new(rt.alloc()), lines, &mut page);
    for script in scripts.split("====\n") {
        page.put("====\n");
        say_over_sqlite::<D>(rt, script, &mut page);
    }
    page.into_text()
}

/// Writes what standard input comes to.
fn play<D: Database + Drop>(rt: HostRuntime) -> io::Result<()> {
    let text = io::read_to_string(rt.alloc(), rt.reader())?;
    match told::<D>(rt, &text) {
        Ok(shown) => rt.print(shown),
        Err(_) => rt.println("refused"),
    }
}

/// The program, over databases of one kind.
struct Program;

impl OverDatabases for Program {
    fn run<D: Database + Drop>(rt: HostRuntime) -> u8 {
        if play::<D>(rt).is_ok() { 0 } else { 1 }
    }
}

fn main(rt: HostRuntime) -> ExitCode {
    ExitCode::from(over_sqlite::<Program>(rt))
}
