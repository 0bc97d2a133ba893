//! Statements that start scopes and end them.

use sqlite_database::{Database, Ending};
use std::alloc::Global;

/// Runs a statement without values.
pub fn run<D: Database>(database: &mut D, alloc: Global, text: &str) -> Result<(), Ending> {
    match database.run(alloc, text, &[]) {
        Ok(_) => Ok(()),
        Err(ending) => Err(ending),
    }
}

/// Runs words with the name of the savepoint of a number behind them.
fn run_named<D: Database>(
    database: &mut D,
    alloc: Global,
    words: &str,
    number: u32,
) -> Result<(), Ending> {
    let text = format!(in alloc; "{words} sa_savepoint_{number}")?;
    run(database, alloc, text.as_str())
}

/// Starts the savepoint of a number.
pub fn start<D: Database>(database: &mut D, alloc: Global, number: u32) -> Result<(), Ending> {
    run_named(database, alloc, "SAVEPOINT", number)
}

/// Ends the savepoint of a number, and keeps its rows.
pub fn release<D: Database>(database: &mut D, alloc: Global, number: u32) -> Result<(), Ending> {
    run_named(database, alloc, "RELEASE SAVEPOINT", number)
}

/// Goes back to the start of the savepoint of a number, and ends it and all inside it.
pub fn go_back_to<D: Database>(database: &mut D, alloc: Global, number: u32) -> Result<(), Ending> {
    run_named(database, alloc, "ROLLBACK TO SAVEPOINT", number)?;
    release(database, alloc, number)
}
