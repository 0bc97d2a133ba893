//! Calls of the keeper in memory, and then of the keeper over SQLite, given as lines, with what each answers (`keeper_calls` has
//! the lines and the letters). Input and output have these two parts, with a line `====` between them; each begins with the same lines. A
//! line that begins with `#` is written as it is.
//!
//! A line `keeper` begins anew with a keeper, and answers what its first call, `attach`, does. In the first part numbers behind it
//! are those of calls that fail, and behind `shown` the lines end with the entries of the log, each a table, a key and the row
//! before, the places of the scopes in it, and how many statements were sent.
//!
//! The second has the lines on which the keeper in memory is tried too, on a database in memory and on one in a file, that of the
//! name behind `keeper`; what SQLite does in its own way; and stores that are opened again or cannot be opened.
#![tactic(auto)]

mod laws;

use keeper_calls::two_tables;
use laws::{one_open_key_alone, thousand_is_the_most};
use notations::Page;
use played_calls::{play_in_memory, play_over_sqlite};
use sqlite_database::Database;
use sqlite_links::{OverDatabases, over_sqlite};
use std::alloc::AllocError;
use std::io;
use std::process::ExitCode;

/// What is written for both parts.
fn told<D: Database + Drop>(rt: HostRuntime, text: &str) -> Result<String, AllocError> {
    let (memory, sqlite) = text.split_once("\n====\n").unwrap_or((text, ""));
    let mut page = Page::new(rt.alloc());
    let schema = two_tables(&mut page);
    play_in_memory(&schema, memory, &mut page);
    page.put("====\n");
    play_over_sqlite::<D>(rt, &schema, sqlite, &mut page);
    page.into_text()
}

/// Answers the lines of standard input.
fn answer<D: Database + Drop>(rt: HostRuntime) -> io::Result<()> {
    let text = io::read_to_string(rt.alloc(), rt.reader())?;
    match told::<D>(rt, &text) {
        Ok(shown) => rt.print(shown),
        Err(_) => rt.println("refused"),
    }
}

/// The answers to the lines of standard input, over databases of one kind.
struct Answers;

impl OverDatabases for Answers {
    fn run<D: Database + Drop>(rt: HostRuntime) -> u8 {
        match answer::<D>(rt) {
            Ok(()) => 0,
            Err(_) => 1,
        }
    }
}

fn main(rt: HostRuntime) -> ExitCode {
    thousand_is_the_most();
    one_open_key_alone();
    ExitCode::from(over_sqlite::<Answers>(rt))
}
