//! Tables of the database: made, dropped, looked for and read whole.

ghost use Rattle.std.specs.Prelude.{◌≡◌, length, IfOk, IfSome, OnOk};
ghost use Rattle.schema_core.specs.Catalog.{IsTable};
ghost use Rattle.keeper_core.specs.Keeping.{AreRowsOf};

use crate::asking::{ask_compiled, counts_some, finished, put_words_and_name};
use base_core::{Dialect, Kind, Name, RowList, TableId, Text, Value};
use schema_core::{ColumnSpec, Schema, TableSpec, kind_of};
use sql_statements::sqlite::{ddl, drop_text};
use sql_text::{Compiled, Page};
use sqlite_database::{Database, Ending};
use sqlite_selects::legal_rows;
use std::alloc::{AllocError, Global};
use table_log::TableLog;

/// Writes the select that counts the tables of a name.
fn put_count_of_name(page: &mut Page, name: &Name) {
    page.put_words("SELECT count(*) FROM sqlite_schema WHERE type = 'table' AND name = ");
    match String::from_str(page.alloc(), name.get()) {
        Ok(text) => page.put_value(name, &Value::Text(Text::new(text))),
        Err(_) => page.give_up(),
    }
}

/// Whether a table of this name is there.
pub fn has_table<D: Database>(
    database: &mut D,
    alloc: Global,
    name: &Name,
) -> Result<bool, Ending> {
    let mut page = Page::new(alloc, Dialect::Sqlite);
    put_count_of_name(&mut page, name);
    counts_some(database, alloc, finished(page))
}

/// Makes a table; true where it was not there.
pub fn create<D: Database>(
    database: &mut D,
    alloc: Global,
    schema: &Schema,
    table: TableId,
) -> Result<bool, Ending>
    requires { IsTable schema.now table }
{
    if has_table(database, alloc, &schema.spec(table).name)? {
        return Ok(false);
    }
    let text = ddl(alloc, schema, table, &[])?;
    database.run(alloc, text.get(), &[])?;
    Ok(true)
}

/// Drops a table; true where it was there.
pub fn drop_table<D: Database>(
    database: &mut D,
    alloc: Global,
    schema: &Schema,
    table: TableId,
) -> Result<bool, Ending>
    requires { IsTable schema.now table }
{
    if !has_table(database, alloc, &schema.spec(table).name)? {
        return Ok(false);
    }
    let text = drop_text(alloc, schema, table)?;
    database.run(alloc, text.get(), &[])?;
    Ok(true)
}

/// The kinds of columns.
fn kinds_of(alloc: Global, columns: &[ColumnSpec]) -> Result<Vec<Kind>, AllocError> {
    let mut kinds = Vec::with_capacity(alloc, columns.len())?;
    for column in columns {
        kinds.push(kind_of(column.kind))?;
    }
    Ok(kinds)
}

/// What stands before the next name of a list.
fn lead(first: bool, word: &'static str) -> &'static str {
    if first { word } else { ", " }
}

/// The names of columns behind a word; of the key alone, where that is asked for.
pub(crate) fn put_names(page: &mut Page, word: &'static str, columns: &[ColumnSpec], key: bool) {
    let mut first = true;
    for column in columns {
        if column.key || !key {
            put_words_and_name(page, lead(first, word), &column.name);
            first = false;
        }
    }
}

/// Writes the select of all rows of a table, ascending by key.
fn put_whole_table(page: &mut Page, spec: &TableSpec) {
    put_names(page, "SELECT ", spec.columns.as_slice(), false);
    put_words_and_name(page, " FROM ", &spec.name);
    put_names(page, " ORDER BY ", spec.columns.as_slice(), true);
}

/// The select of all rows of a table, ascending by key.
fn whole_table(alloc: Global, spec: &TableSpec) -> Result<Compiled, Ending> {
    let mut page = Page::new(alloc, Dialect::Sqlite);
    put_whole_table(&mut page, spec);
    finished(page)
}

/// The rows that SQLite answers for a table, ascending by key. Texts and bytes are ordered by their bytes, as keys are.
fn all_rows<D: Database>(
    database: &mut D,
    alloc: Global,
    spec: &TableSpec,
) -> Result<RowList, Ending> {
    let kinds = kinds_of(alloc, spec.columns.as_slice())?;
    ask_compiled(database, alloc, whole_table(alloc, spec), kinds.as_slice())
}

/// The rows of a table, ascending by key, or none where it is not there. A value of another kind than its column's, or NULL where
/// the column takes none, is a fault.
pub fn scan<D: Database>(
    database: &mut D,
    alloc: Global,
    schema: &Schema,
    table: TableId,
) -> Result<Option<RowList>, Ending>
    requires { IsTable schema.now table }
    ensures { IfOk result (λ found. IfSome found (AreRowsOf schema.now table)) }
{
    let spec = schema.spec(table);
    if !has_table(database, alloc, &spec.name)? {
        return Ok(None);
    }
    let rows = all_rows(database, alloc, spec)?;
    match legal_rows(schema, table, rows) {
        Ok(rows) => Ok(Some(rows)),
        Err(ending) => Err(ending),
    }
}

/// Makes a table in a store where it is there, with no rows.
fn make_if_there<D: Database>(
    database: &mut D,
    alloc: Global,
    schema: &Schema,
    store: &mut TableLog,
    table: TableId,
) -> Result<(), Ending>
    requires declared { IsTable schema.now table }
    requires outside { length store.old.seen.scopes ≡ 0 }
    ensures { OnOk result (length store.new.seen.scopes ≡ 0) }
{
    if !has_table(database, alloc, &schema.spec(table).name)? {
        return Ok(());
    }
    store.create(alloc, table)?;
    Ok(())
}

/// A store in memory with the declared tables that are there, which have no rows.
pub fn store_without_rows<D: Database>(
    database: &mut D,
    alloc: Global,
    schema: &Schema,
) -> Result<TableLog, Ending> {
    let mut store = TableLog::new(alloc);
    for number in 0..schema.count() {
        make_if_there(database, alloc, schema, &mut store, TableId(number))?;
    }
    Ok(store)
}
