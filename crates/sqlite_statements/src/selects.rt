//! Selects.

ghost use Rattle.std.specs.Prelude.{IfErr, IfOk};
ghost use Rattle.sql_semantics.specs.Plain.{IsPlainSelect};
ghost use Rattle.expr_typing.specs.ItemShapes.{AreAnswers};
ghost use Rattle.sqlite_statements.specs.Endings.{IfRefused, MayRefuseSelect};

use crate::sending::text_of;
use base_core::RowList;
use expr_types::Select;
use expr_typing::{ItemShape, item_shapes};
use keeper_core::QueryRefusal;
use schema_core::{Schema, Violation};
use sql_text::Compiled;
use sqlite_database::{Database, Ending};
use sqlite_selects::{answers, kinds_of, statement_of};
use sqlite_tables::ask_compiled;
use sqlite_tables::tables::store_without_rows;
use std::alloc::Global;
use table_log::TableLog;

/// The text of a select with its values.
fn select_text(alloc: Global, schema: &Schema, select: &Select) -> Result<Compiled, Ending> {
    let statement = statement_of(alloc, select)?;
    text_of(alloc, schema, &statement)
}

/// The rows that SQLite answers.
fn ask_rows<D: Database>(
    database: &mut D,
    alloc: Global,
    schema: &Schema,
    select: &Select,
    shapes: &[ItemShape],
) -> Result<RowList, Ending> {
    let kinds = kinds_of(alloc, shapes)?;
    ask_compiled(
        database,
        alloc,
        select_text(alloc, schema, select),
        kinds.as_slice(),
    )
}

/// The rows of a select. A value of another kind than its item's, or NULL where the item never is, is a fault.
fn rows_that_fit<D: Database>(
    database: &mut D,
    alloc: Global,
    schema: &Schema,
    select: &Select,
) -> Result<RowList, Ending>
    ensures rows { IfOk result (AreAnswers schema.now select.now) }
{
    let shapes = item_shapes(alloc, schema, select)?;
    let rows = ask_rows(database, alloc, schema, select, shapes.as_slice())?;
    answers(schema, select, shapes.as_slice(), rows)
}

/// The first table of a select's text that a store has not, as a refusal; else it is a fault.
fn first_absent(alloc: Global, schema: &Schema, store: &TableLog, select: &Select) -> Ending
    requires { IsPlainSelect schema.now select.now }
    ensures { IfRefused (MayRefuseSelect schema.now select.now) result }
{
    match table_store::query(alloc, schema, store, select) {
        Err(QueryRefusal::NoTable(table)) => Ending::Refused(Violation::NoTable(table)),
        Err(QueryRefusal::Memory) => Ending::Memory,
        _ => Ending::Fault,
    }
}

/// Why SQLite did not answer a select: the first table of its text is not there; else it is a fault. A store with the same
/// tables, which have no rows, knows which one that is.
fn why_not_run<D: Database>(
    database: &mut D,
    alloc: Global,
    schema: &Schema,
    select: &Select,
) -> Ending
    requires { IsPlainSelect schema.now select.now }
    ensures { IfRefused (MayRefuseSelect schema.now select.now) result }
{
    match store_without_rows(database, alloc, schema) {
        Ok(store) => first_absent(alloc, schema, &store, select),
        Err(Ending::Memory) => Ending::Memory,
        Err(_) => Ending::Fault,
    }
}

/// The rows of a select over the tables now.
pub fn query<D: Database>(
    database: &mut D,
    alloc: Global,
    schema: &Schema,
    select: &Select,
) -> Result<RowList, Ending>
    requires plain { IsPlainSelect schema.now select.now }
    ensures rows { IfOk result (AreAnswers schema.now select.now) }
    ensures refuses { IfErr result (IfRefused (MayRefuseSelect schema.now select.now)) }
{
    match rows_that_fit(database, alloc, schema, select) {
        Ok(rows) => Ok(rows),
        Err(Ending::Memory) => Err(Ending::Memory),
        Err(_) => Err(why_not_run(database, alloc, schema, select)),
    }
}
