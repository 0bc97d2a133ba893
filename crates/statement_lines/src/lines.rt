//! The lines that are written of statements.

ghost use Rattle.std.specs.Prelude.{◌≡◌, ◌<◌, ◌++◌, length, true, OnOk, string_bytes};
ghost use Rattle.std.specs.List.{All, flat_map};
ghost use Rattle.schema_core.specs.Catalog.{IsTable, spec_of};
ghost use Rattle.sql_semantics.specs.Plain.{is_limit};
ghost use Rattle.sql_statements.specs.Texts.{HasCuts};
ghost use Rattle.expr_types.specs.declared.select.Statement.TheVariants as statements;
ghost use Rattle.statement_lines.specs.Echo as spec;

use crate::later::later_foreigns;
use crate::text::StatementText;
use base_core::{Copied, Dialect, Refusal, TableId};
use expr_types::{Bulk, CopiedIn, Select, Statement};
use keeper_core::{Note, Sent};
use schema_core::{RowStmt, Schema};
use sql_statements::compiled;
use sql_tables::{alter, ddl, drop_text};
use sql_text::Compiled;
use sqlite_items::Boxed;
use std::alloc::{AllocError, Global};

// ---- single lines

/// Writes the line of a text.
fn put_text(text: &mut String, shown: &str) -> Result<(), AllocError>
    ensures { OnOk result
        (string_bytes text.new ≡ string_bytes text.old ++ spec.sql_line shown.now) }
{
    write!(text, "sql> {shown}\n")
}

/// Writes the line of a statement on the savepoint of a number.
fn put_savepoint(text: &mut String, words: &str, number: u32) -> Result<(), AllocError>
    ensures { OnOk result (string_bytes text.new
        ≡ string_bytes text.old ++ spec.savepoint_line words.now number) }
{
    write!(text, "sql> {words} sa_savepoint_{number}\n")
}

/// Writes the line of a text with marks, and that of its values.
fn put_compiled(text: &mut String, dialect: Dialect, compiled: &Compiled) -> Result<(), AllocError>
    ensures { OnOk result (string_bytes text.new
        ≡ string_bytes text.old ++ spec.compiled_lines dialect compiled.now) }
{
    let shown = StatementText { dialect, compiled };
    write!(text, "sql> {shown}\n")
}

// ---- statements on rows

/// Writes the lines of a statement with values.
fn put_statement(
    text: &mut String,
    alloc: Global,
    dialect: Dialect,
    schema: &Schema,
    statement: &Statement,
) -> Result<(), AllocError>
    requires { HasCuts statement.now }
    ensures { OnOk result (string_bytes text.new
        ≡ string_bytes text.old ++ spec.statement_lines dialect schema.now statement.now) }
{
    let compiled = compiled(alloc, dialect, schema, statement)?;
    put_compiled(text, dialect, &compiled)
}

/// Writes the lines of a statement on rows.
fn put_row(
    text: &mut String,
    alloc: Global,
    dialect: Dialect,
    schema: &Schema,
    statement: &RowStmt,
) -> Result<(), AllocError>
    ensures { OnOk result (string_bytes text.new ≡ string_bytes text.old
        ++ spec.statement_lines dialect schema.now (statements.Row statement.now)) }
{
    let statement = Boxed::new(alloc, Statement::Row(statement.copied()?))?;
    put_statement(text, alloc, dialect, schema, statement.get())
}

/// Writes the lines of a bulk statement.
fn put_bulk(
    text: &mut String,
    alloc: Global,
    dialect: Dialect,
    schema: &Schema,
    statement: &Bulk,
) -> Result<(), AllocError>
    ensures { OnOk result (string_bytes text.new ≡ string_bytes text.old
        ++ spec.statement_lines dialect schema.now (statements.Bulk statement.now)) }
{
    let statement = Boxed::new(alloc, Statement::Bulk(statement.copied_in(alloc)?))?;
    put_statement(text, alloc, dialect, schema, statement.get())
}

/// Whether a number of rows has a text.
fn is_limit(number: Option<u64>) -> bool
    ensures { result ≡ is_limit number }
{
    match number {
        Some(number) => number < 0x8000_0000_0000_0000,
        None => true,
    }
}

/// Writes the lines of a select.
#[tactic(auto, using(crate::proofs::Cuts::cuts))]
fn put_select(
    text: &mut String,
    alloc: Global,
    dialect: Dialect,
    schema: &Schema,
    select: &Select,
) -> Result<(), AllocError>
    ensures { OnOk result (string_bytes text.new
        ≡ string_bytes text.old ++ spec.select_lines dialect schema.now select.now) }
{
    if !is_limit(select.limit) || !is_limit(select.offset) {
        return Ok(());
    }
    let statement = Boxed::new(alloc, Statement::Select(select.copied_in(alloc)?))?;
    put_statement(text, alloc, dialect, schema, statement.get())
}

// ---- tables

/// Writes the line that makes a table.
fn put_create(
    text: &mut String,
    alloc: Global,
    dialect: Dialect,
    schema: &Schema,
    table: TableId,
) -> Result<(), AllocError>
    requires { schema.now.resolved ≡ true }
    ensures { OnOk result (string_bytes text.new
        ≡ string_bytes text.old ++ spec.create_line dialect schema.now table) }
{
    if table.0 >= schema.count() {
        return Ok(());
    }
    let later = later_foreigns(alloc, dialect, schema, table)?;
    match ddl(alloc, dialect, schema, table, later.as_slice()) {
        Ok(made) => put_text(text, made.get()),
        Err(Refusal::CompileError(_, _)) => Ok(()),
        Err(_) => Err(AllocError),
    }
}

/// Writes the line that drops a table.
fn put_drop(
    text: &mut String,
    alloc: Global,
    dialect: Dialect,
    schema: &Schema,
    table: TableId,
) -> Result<(), AllocError>
    ensures { OnOk result (string_bytes text.new
        ≡ string_bytes text.old ++ spec.drop_line dialect schema.now table) }
{
    let shown = drop_text(alloc, dialect, schema, table)?;
    put_text(text, shown.get())
}

/// Writes the line that adds a foreign key to its table.
fn put_alter(
    text: &mut String,
    alloc: Global,
    dialect: Dialect,
    schema: &Schema,
    table: TableId,
    number: u32,
) -> Result<(), AllocError>
    requires declared { IsTable schema.now table }
    requires numbered { number < length (spec_of schema.now table).foreigns }
    ensures { OnOk result (string_bytes text.new
        ≡ string_bytes text.old ++ spec.alter_line dialect schema.now table number) }
{
    let shown = alter(alloc, dialect, schema, table, number)?;
    put_text(text, shown.get())
}

/// Writes the lines that add foreign keys to their table.
fn put_each_alter(
    text: &mut String,
    alloc: Global,
    dialect: Dialect,
    schema: &Schema,
    table: TableId,
    numbers: &[u32],
) -> Result<(), AllocError>
    requires declared { IsTable schema.now table }
    requires numbered { All (λ number. number < length (spec_of schema.now table).foreigns) numbers.now }
    ensures { OnOk result (string_bytes text.new ≡ string_bytes text.old
        ++ flat_map (spec.alter_line dialect schema.now table) numbers.now) }
{
    for number in numbers {
        put_alter(text, alloc, dialect, schema, table, *number)?;
    }
    Ok(())
}

/// Writes the lines that add a table's foreign keys once all tables are made.
fn put_alters(
    text: &mut String,
    alloc: Global,
    dialect: Dialect,
    schema: &Schema,
    table: TableId,
) -> Result<(), AllocError>
    requires { schema.now.resolved ≡ true }
    ensures { OnOk result (string_bytes text.new
        ≡ string_bytes text.old ++ spec.alter_lines dialect schema.now table) }
{
    if table.0 >= schema.count() {
        return Ok(());
    }
    let later = later_foreigns(alloc, dialect, schema, table)?;
    put_each_alter(text, alloc, dialect, schema, table, later.as_slice())
}

// ---- all that was sent

/// Writes the lines of a statement that a keeper was sent behind a text. Nothing is written of a table that is not declared or
/// has no text in the dialect, and of a select with a number of rows from 2 ^ 63 on, none of which is ever sent.
pub fn put_sent(
    text: &mut String,
    alloc: Global,
    dialect: Dialect,
    schema: &Schema,
    sent: &Sent,
) -> Result<(), AllocError>
    requires { schema.now.resolved ≡ true }
    ensures { OnOk result (string_bytes text.new
        ≡ string_bytes text.old ++ spec.sent_lines dialect schema.now sent.now) }
{
    match sent {
        Sent::Create(table) => put_create(text, alloc, dialect, schema, *table),
        Sent::Drop(table) => put_drop(text, alloc, dialect, schema, *table),
        Sent::Begin => put_text(text, "BEGIN"),
        Sent::Savepoint(number) => put_savepoint(text, "SAVEPOINT", *number),
        Sent::Release(number) => put_savepoint(text, "RELEASE SAVEPOINT", *number),
        Sent::RollbackTo(number) => put_savepoint(text, "ROLLBACK TO SAVEPOINT", *number),
        Sent::Rollback => put_text(text, "ROLLBACK"),
        Sent::Commit => put_text(text, "COMMIT"),
        Sent::Write(statement) => put_row(text, alloc, dialect, schema, statement),
        Sent::Bulk(statement) => put_bulk(text, alloc, dialect, schema, statement),
        Sent::Query(select) => put_select(text, alloc, dialect, schema, select),
    }
}

/// Writes the lines that add foreign keys, where a note is one of a table that was made.
fn put_note_alters(
    text: &mut String,
    alloc: Global,
    dialect: Dialect,
    schema: &Schema,
    note: &Note,
) -> Result<(), AllocError>
    requires { schema.now.resolved ≡ true }
    ensures { OnOk result (string_bytes text.new
        ≡ string_bytes text.old ++ spec.note_alters dialect schema.now note.now) }
{
    match note {
        Note::Sent(Sent::Create(table)) => put_alters(text, alloc, dialect, schema, *table),
        _ => Ok(()),
    }
}

/// Writes the lines that add foreign keys once all tables are made, behind a text: of the tables that were made, by what a command
/// noted, the foreign keys whose targets come later follow as ALTER TABLE, but for SQLite, which has them with the table.
pub fn put_later_foreigns(
    text: &mut String,
    alloc: Global,
    dialect: Dialect,
    schema: &Schema,
    notes: &[Note],
) -> Result<(), AllocError>
    requires { schema.now.resolved ≡ true }
    ensures { OnOk result (string_bytes text.new
        ≡ string_bytes text.old ++ flat_map (spec.note_alters dialect schema.now) notes.now) }
{
    for note in notes {
        put_note_alters(text, alloc, dialect, schema, note)?;
    }
    Ok(())
}
