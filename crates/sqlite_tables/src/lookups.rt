//! What is looked up among the rows of a table for the statements that write them.

use crate::asking::{ask_compiled, counts_some, finished, integer_of, put_words_and_name};
use crate::tables::put_names;
use base_core::{ColumnNo, Dialect, Key, Kind};
use expr_types::Expr;
use schema_core::TableSpec;
use sql_text::Page;
use sqlite_database::{Database, Ending};
use std::alloc::Global;

// ---- the greatest key

/// Writes the select of a table's greatest key, for which SQLite reads the last row alone.
fn put_greatest_key(page: &mut Page, spec: &TableSpec) {
    put_names(page, "SELECT ", spec.columns.as_slice(), true);
    put_words_and_name(page, " FROM ", &spec.name);
    put_names(page, " ORDER BY ", spec.columns.as_slice(), true);
    page.put_words(" DESC LIMIT 1");
}

/// The greatest key of a table, none where it is empty.
pub fn greatest_key<D: Database>(
    database: &mut D,
    alloc: Global,
    spec: &TableSpec,
) -> Result<Option<i64>, Ending> {
    let mut page = Page::new(alloc, Dialect::Sqlite);
    put_greatest_key(&mut page, spec);
    let rows = ask_compiled(database, alloc, finished(page), &[Kind::Integer])?;
    if rows.is_empty() {
        return Ok(None);
    }
    integer_of(&rows)
}

// ---- a key

/// Writes the select that counts the rows of a key.
fn put_count_of_key(page: &mut Page, spec: &TableSpec, key: &Key) {
    put_words_and_name(page, "SELECT count(*) FROM ", &spec.name);
    page.put_words(" WHERE 1 = 1");
    let mut place = 0;
    for column in spec.columns.as_slice() {
        if column.key {
            let Some(value) = key.get(place) else {
                return;
            };
            put_words_and_name(page, " AND ", &column.name);
            page.put_words(" = ");
            page.put_value(&column.name, value);
            place = place.saturating_add(1);
        }
    }
}

/// Whether a key is of a row of the table.
pub fn is_taken<D: Database>(
    database: &mut D,
    alloc: Global,
    spec: &TableSpec,
    key: &Key,
) -> Result<bool, Ending> {
    let mut page = Page::new(alloc, Dialect::Sqlite);
    put_count_of_key(&mut page, spec, key);
    counts_some(database, alloc, finished(page))
}

// ---- numbers that are no integers

/// Writes the select that counts the rows of a table in which one of the columns holds a number that is no integer.
fn put_count_of_reals(page: &mut Page, spec: &TableSpec, cells: &[(ColumnNo, Option<Expr>)]) {
    put_words_and_name(page, "SELECT count(*) FROM ", &spec.name);
    page.put_words(" WHERE 1 = 0");
    for cell in cells {
        if let Some(column) = spec.columns.get(cell.0.0 as usize) {
            put_words_and_name(page, " OR typeof(", &column.name);
            page.put_words(") = 'real'");
        }
    }
}

/// Whether one of the columns holds a number that is no integer.
pub fn has_reals<D: Database>(
    database: &mut D,
    alloc: Global,
    spec: &TableSpec,
    cells: &[(ColumnNo, Option<Expr>)],
) -> Result<bool, Ending> {
    let mut page = Page::new(alloc, Dialect::Sqlite);
    put_count_of_reals(&mut page, spec, cells);
    counts_some(database, alloc, finished(page))
}
