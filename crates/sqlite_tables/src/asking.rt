//! Texts sent with their values, and what they answer.

use base_core::{Kind, Name, RowList, Value};
use sql_text::{Compiled, Page};
use sqlite_database::{Database, Ending};
use std::alloc::Global;

/// The rows of a select, where its text could be made, with a value of each kind.
pub fn ask_compiled<D: Database>(
    database: &mut D,
    alloc: Global,
    compiled: Result<Compiled, Ending>,
    kinds: &[Kind],
) -> Result<RowList, Ending> {
    let compiled = compiled?;
    database.ask(
        alloc,
        compiled.text.get(),
        compiled.values.as_slice(),
        kinds,
    )
}

/// The integer that is the first value of the first row, or none where it is NULL. Another answer is a fault.
pub(crate) fn integer_of(rows: &RowList) -> Result<Option<i64>, Ending> {
    let Some(row) = rows.get(0) else {
        return Err(Ending::Fault);
    };
    match row.get(0) {
        Some(Value::Int(n)) => Ok(Some(*n)),
        Some(Value::Null) => Ok(None),
        _ => Err(Ending::Fault),
    }
}

/// What was written, where it could be.
pub(crate) fn finished(page: Page) -> Result<Compiled, Ending> {
    Ok(page.written()?.finish())
}

/// Whether a select of a count, where its text could be made, counts some row.
pub(crate) fn counts_some<D: Database>(
    database: &mut D,
    alloc: Global,
    select: Result<Compiled, Ending>,
) -> Result<bool, Ending> {
    let rows = ask_compiled(database, alloc, select, &[Kind::Integer])?;
    Ok(integer_of(&rows)? != Some(0))
}

/// Writes words, and a name behind them.
pub(crate) fn put_words_and_name(page: &mut Page, words: &'static str, name: &Name) {
    page.put_words(words);
    page.put_name(name);
}
