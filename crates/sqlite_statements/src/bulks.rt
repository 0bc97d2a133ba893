//! Bulk statements.

ghost use Rattle.std.specs.Prelude.{IfErr, IsTrue};
ghost use Rattle.schema_core.specs.Catalog.{Catalog, IsTable};
ghost use Rattle.sql_semantics.specs.Plain.{IsPlainBulk};
ghost use Rattle.sqlite_statements.specs.Endings.{IfRefused, MayRefuseBulk};

use crate::rows::insert;
use crate::sending::run_statement;
use base_core::{ColumnNo, Copied, ListOf, RowList, RowValues, TableId, Value};
use expr_types::{Bulk, CopiedIn, Expr, Statement};
use keeper_core::WriteRefusal;
use schema_core::{Schema, Violation};
use sqlite_database::{Database, Ending};
use sqlite_items::Boxed;
use sqlite_tables::lookups::has_reals;
use sqlite_tables::tables::store_without_rows;
use std::alloc::{AllocError, Global};
use table_log::TableLog;
use table_store::write_bulk;

/// A copy of a bulk statement.
fn statement_of(alloc: Global, statement: &Bulk) -> Result<Boxed<Statement>, AllocError> {
    Boxed::new(alloc, Statement::Bulk(statement.copied_in(alloc)?))
}

// ---- an INSERT

/// A row of so many NULLs.
fn null_row(alloc: Global, width: usize) -> Result<Vec<Value>, AllocError> {
    let mut row = Vec::with_capacity(alloc, width)?;
    for _ in 0..width {
        row.push(Value::Null)?;
    }
    Ok(row)
}

/// The row of a table with the values in their columns, NULL in the others.
fn row_with(
    alloc: Global,
    width: usize,
    columns: &[ColumnNo],
    values: &[Value],
) -> Result<RowValues, AllocError> {
    let mut row = null_row(alloc, width)?;
    for (column, value) in columns.iter().zip(values) {
        let place = column.0 as usize;
        if place < row.len() {
            row[place] = value.copied()?;
        }
    }
    Ok(ListOf::from_vec(row))
}

/// A list of one row.
fn one_row(alloc: Global, row: RowValues) -> Result<RowList, AllocError> {
    let mut rows = Vec::new(alloc);
    rows.push(row)?;
    Ok(ListOf::from_vec(rows))
}

/// Writes the row of these values.
fn put_row<D: Database>(
    database: &mut D,
    alloc: Global,
    schema: &Schema,
    table: TableId,
    columns: &[ColumnNo],
    values: &[Value],
) -> Result<u64, Ending>
    requires { IsTable schema.now table }
{
    let row = row_with(alloc, schema.spec(table).columns.len(), columns, values)?;
    let rows = one_row(alloc, row)?;
    let keys = insert(database, alloc, schema, table, &rows)?;
    Ok(keys.len() as u64)
}

// ---- an UPDATE

/// Rewrites rows. What leaves 64 bits is a number that is no integer to SQLite, and a fault.
fn rewrite<D: Database>(
    database: &mut D,
    alloc: Global,
    schema: &Schema,
    table: TableId,
    statement: &Bulk,
    cells: &[(ColumnNo, Option<Expr>)],
) -> Result<u64, Ending>
    requires { IsTable schema.now table }
{
    let count = run_statement(database, alloc, schema, statement_of(alloc, statement))?;
    if has_reals(database, alloc, schema.spec(table), cells)? {
        return Err(Ending::Fault);
    }
    Ok(count)
}

// ---- a statement

/// Does a statement, and answers the number of its rows.
fn apply<D: Database>(
    database: &mut D,
    alloc: Global,
    schema: &Schema,
    statement: &Bulk,
) -> Result<u64, Ending>
    requires { IsPlainBulk schema.now statement.now }
{
    match statement {
        Bulk::Insert {
            table,
            columns,
            values,
        } => put_row(
            database,
            alloc,
            schema,
            *table,
            columns.as_slice(),
            values.as_slice(),
        ),
        Bulk::Update { table, cells, .. } => rewrite(
            database,
            alloc,
            schema,
            *table,
            statement,
            cells.as_slice(),
        ),
        Bulk::Delete { .. } => {
            run_statement(database, alloc, schema, statement_of(alloc, statement))
        }
    }
}

/// Whether a statement may violate a rule of its table.
fn may_violate(statement: &Bulk, violation: Violation) -> bool
    ensures { (schema : Catalog) → IsTrue result → MayRefuseBulk schema statement.now violation }
{
    match violation {
        Violation::NoTable(_) | Violation::Missing => false,
        Violation::Foreign => true,
        Violation::NotNull | Violation::Unique => !matches!(statement, Bulk::Delete { .. }),
        Violation::KeysSpent | Violation::PrimaryKey => matches!(statement, Bulk::Insert { .. }),
    }
}

/// The first table of a statement's text that a store has not, as a refusal; else it is a fault.
fn first_absent(alloc: Global, schema: &Schema, store: &mut TableLog, statement: &Bulk) -> Ending
    requires { IsPlainBulk schema.now statement.now }
    ensures { IfRefused (MayRefuseBulk schema.now statement.now) result }
{
    match write_bulk(alloc, schema, store, statement) {
        Err(WriteRefusal::NoTable(table)) => Ending::Refused(Violation::NoTable(table)),
        Err(WriteRefusal::Memory) => Ending::Memory,
        _ => Ending::Fault,
    }
}

/// Why SQLite cannot run a statement: the first table of its text is not there; else it is a fault. A store with the same tables,
/// which have no rows, knows which one that is.
fn why_not_run<D: Database>(
    database: &mut D,
    alloc: Global,
    schema: &Schema,
    statement: &Bulk,
) -> Ending
    requires { IsPlainBulk schema.now statement.now }
    ensures { IfRefused (MayRefuseBulk schema.now statement.now) result }
{
    match store_without_rows(database, alloc, schema) {
        Ok(mut store) => first_absent(alloc, schema, &mut store, statement),
        Err(Ending::Memory) => Ending::Memory,
        Err(_) => Ending::Fault,
    }
}

/// Why a statement is not done. A rule that it cannot violate is SQLite's fault.
fn admitted_ending<D: Database>(
    database: &mut D,
    alloc: Global,
    schema: &Schema,
    statement: &Bulk,
    ending: Ending,
) -> Ending
    requires { IsPlainBulk schema.now statement.now }
    ensures { IfRefused (MayRefuseBulk schema.now statement.now) result }
{
    match ending {
        Ending::Memory => ending,
        Ending::Refused(violation) if may_violate(statement, violation) => ending,
        _ => why_not_run(database, alloc, schema, statement),
    }
}

/// Does a bulk statement, judged on the rows that it leaves, and answers their number. A refused one changes nothing.
pub fn bulk<D: Database>(
    database: &mut D,
    alloc: Global,
    schema: &Schema,
    statement: &Bulk,
) -> Result<u64, Ending>
    requires { IsPlainBulk schema.now statement.now }
    ensures { IfErr result (IfRefused (MayRefuseBulk schema.now statement.now)) }
{
    match apply(database, alloc, schema, statement) {
        Ok(count) => Ok(count),
        Err(ending) => Err(admitted_ending(database, alloc, schema, statement, ending)),
    }
}
