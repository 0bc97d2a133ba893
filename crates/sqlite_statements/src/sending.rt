//! Statements sent with their values.

use expr_types::Statement;
use schema_core::Schema;
use sql_statements::has_cuts;
use sql_statements::sqlite::compile;
use sql_text::Compiled;
use sqlite_database::{Database, Ending};
use sqlite_items::Boxed;
use std::alloc::{AllocError, Global};

/// Runs a text with its values, where it could be made, and answers how many rows it changed.
fn run_compiled<D: Database>(
    database: &mut D,
    alloc: Global,
    compiled: Result<Compiled, Ending>,
) -> Result<u64, Ending> {
    let compiled = compiled?;
    database.run(alloc, compiled.text.get(), compiled.values.as_slice())
}

/// The text of a statement with its values. One whose cuts SQLite does not take has none.
pub(crate) fn text_of(
    alloc: Global,
    schema: &Schema,
    statement: &Statement,
) -> Result<Compiled, Ending> {
    if !has_cuts(statement) {
        return Err(Ending::Fault);
    }
    Ok(compile(alloc, schema, statement)?)
}

/// Runs a statement, where there was memory for it, and answers how many rows it changed.
pub(crate) fn run_statement<D: Database>(
    database: &mut D,
    alloc: Global,
    schema: &Schema,
    statement: Result<Boxed<Statement>, AllocError>,
) -> Result<u64, Ending> {
    let statement = statement?;
    run_compiled(database, alloc, text_of(alloc, schema, statement.get()))
}
