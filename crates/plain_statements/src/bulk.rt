//! Which bulk statements fit their tables, and which a keeper may be sent.

ghost use Rattle.std.specs.Prelude.{◌≡◌, ◌==◌, ◌∷◌, [], ◌↔◌, IsTrue, is_some, IfOk, None};
ghost use Rattle.std.specs.List.{list_all, list_any};
ghost use Rattle.std.specs.Cmp.Lexicographic.{pointwise};
ghost use Rattle.schema_core.specs.Declaration.{some_two};
ghost use Rattle.sql_semantics.specs.Kinds as kinds;
ghost use Rattle.sql_semantics.specs.Plain as plain;
ghost use Rattle.sql_semantics.specs.Plain.{IsPlainBulk};
ghost use Rattle.sql_semantics.specs.PlainStatement.{IsFittingBulk};
ghost use Rattle.expr_scopes.specs.Scopes as scopes;
ghost use Rattle.plain_statements.specs.Tested as spec;

use crate::select::is_filtered;
use crate::standing::{Sources, stands_as};
use base_core::{ColumnNo, TableId, Value};
use expr_scopes::{column_in, is_for, is_free_column, is_known, table_name};
use expr_types::{Bulk, Expr};
use expr_typing::has_aggregate;
use schema_core::{Schema, kind_of};
use std::alloc::{AllocError, Global};

/// The table of a bulk statement alone, under its own name.
fn alone(alloc: Global, schema: &Schema, table: TableId) -> Result<Sources, AllocError>
    ensures tables { IfOk result (λ around. around.tables.items ≡ table ∷ []) }
    ensures names { IfOk result (λ around. around.names.items ≡ spec.names_alone schema.now table) }
{
    let mut around = Sources::new(alloc);
    around.names.push(table_name(alloc, schema, table)?)?;
    around.tables.push(table)?;
    Ok(around)
}

/// Whether each value is for the column at its place.
#[tactic(auto, using(schema_core::proofs::Steps::pair_steps))]
fn are_for(schema: &Schema, table: TableId, columns: &[ColumnNo], values: &[Value]) -> bool
    ensures { result ≡ pointwise (scopes.is_for schema.now table) columns.now values.now }
{
    for (place, column) in columns.iter().enumerate() {
        if place >= values.len() || !is_for(schema, table, *column, &values[place]) {
            return false;
        }
    }
    values.len() == columns.len()
}

fn has_column(columns: &[ColumnNo], column: ColumnNo) -> bool
    ensures { result ≡ plain.has_column columns.now column }
{
    for other in columns {
        if other.0 == column.0 {
            return true;
        }
    }
    false
}

/// Whether a column is named twice.
#[tactic(auto, using(schema_core::proofs::SomeTwo::some_two_steps))]
fn repeats(columns: &[ColumnNo]) -> bool
    ensures { result ≡ some_two (λ other column. other.0 == column.0) columns.now }
{
    for (place, column) in columns.iter().enumerate() {
        if has_column(&columns[place + 1..], *column) {
            return true;
        }
    }
    false
}

fn has_cell(cells: &[(ColumnNo, Option<Expr>)], column: ColumnNo) -> bool
    ensures { result ≡ list_any (λ other. other.0.0 == column.0) cells.now }
{
    for other in cells {
        if other.0.0 == column.0 {
            return true;
        }
    }
    false
}

/// Whether a column is written twice.
#[tactic(auto, using(schema_core::proofs::SomeTwo::some_two_steps))]
fn writes_twice(cells: &[(ColumnNo, Option<Expr>)]) -> bool
    ensures { result ≡ some_two (λ other cell. other.0.0 == cell.0.0) cells.now }
{
    for (place, cell) in cells.iter().enumerate() {
        if has_cell(&cells[place + 1..], cell.0) {
            return true;
        }
    }
    false
}

/// Whether each cell's column is there.
fn all_there(schema: &Schema, table: TableId, cells: &[(ColumnNo, Option<Expr>)]) -> bool
    ensures { result ≡ list_all
        (λ cell. is_some (kinds.column_in schema.now (table ∷ []) 0 cell.0)) cells.now }
{
    for cell in cells {
        if column_in(schema, &[table], 0, cell.0).is_none() {
            return false;
        }
    }
    true
}

/// Whether each cell's column is there and no part of the primary key.
fn all_free(schema: &Schema, table: TableId, cells: &[(ColumnNo, Option<Expr>)]) -> bool
    ensures { result ≡ list_all (λ cell. plain.is_free_column schema.now table cell.0) cells.now }
{
    for cell in cells {
        if !is_free_column(schema, table, cell.0) {
            return false;
        }
    }
    true
}

/// Whether the expression may be written into the column of the table, which alone is around it.
fn is_written(
    alloc: Global,
    schema: &Schema,
    table: TableId,
    around: &Sources,
    column: ColumnNo,
    e: &Expr,
) -> Result<bool, AllocError>
    requires { around.now.tables.items ≡ table ∷ [] }
    ensures { IfOk result (λ written. written
        ≡ spec.is_written schema.now table around.now.names.items column e.now) }
{
    let Some(column) = column_in(schema, around.tables.as_slice(), 0, column) else {
        return Ok(false);
    };
    if has_aggregate(e) {
        return Ok(false);
    }
    stands_as(alloc, schema, around, kind_of(column.kind), e)
}

fn are_written(
    alloc: Global,
    schema: &Schema,
    table: TableId,
    around: &Sources,
    cells: &[(ColumnNo, Option<Expr>)],
) -> Result<bool, AllocError>
    requires { around.now.tables.items ≡ table ∷ [] }
    ensures { IfOk result (λ written. written
        ≡ list_all (spec.is_cell schema.now table around.now.names.items) cells.now) }
{
    for cell in cells {
        if let Some(e) = &cell.1 {
            if !is_written(alloc, schema, table, around, cell.0, e)? {
                return Ok(false);
            }
        }
    }
    Ok(true)
}

fn is_fitting_update(
    alloc: Global,
    schema: &Schema,
    table: TableId,
    cells: &[(ColumnNo, Option<Expr>)],
    filter: &Option<Expr>,
) -> Result<bool, AllocError>
    ensures { IfOk result (λ fitting. fitting
        ≡ spec.fitting_update schema.now table cells.now filter.now) }
{
    if !all_there(schema, table, cells) {
        return Ok(false);
    }
    let around = alone(alloc, schema, table)?;
    if !are_written(alloc, schema, table, &around, cells)? {
        return Ok(false);
    }
    is_filtered(alloc, schema, &around, filter)
}

fn is_fitting_delete(
    alloc: Global,
    schema: &Schema,
    table: TableId,
    filter: &Option<Expr>,
) -> Result<bool, AllocError>
    ensures { IfOk result (λ fitting. fitting
        ≡ spec.is_bulk_filter schema.now table filter.now) }
{
    let around = alone(alloc, schema, table)?;
    is_filtered(alloc, schema, &around, filter)
}

fn fitting_bulk(alloc: Global, schema: &Schema, bulk: &Bulk) -> Result<bool, AllocError>
    ensures { IfOk result (λ fitting. fitting ≡ spec.fitting_bulk schema.now bulk.now) }
{
    match bulk {
        Bulk::Insert {
            table,
            columns,
            values,
        } => Ok(
            is_known(schema, *table)
                && are_for(schema, *table, columns.as_slice(), values.as_slice()),
        ),
        Bulk::Update {
            table,
            cells,
            filter,
        } => {
            if !is_known(schema, *table) {
                return Ok(false);
            }
            is_fitting_update(alloc, schema, *table, cells.as_slice(), filter)
        }
        Bulk::Delete { table, filter } => {
            if !is_known(schema, *table) {
                return Ok(false);
            }
            is_fitting_delete(alloc, schema, *table, filter)
        }
    }
}

/// Whether no column is named twice, and an UPDATE spares the key.
fn is_sparing(schema: &Schema, bulk: &Bulk) -> bool
    ensures { result ≡ spec.sparing_bulk schema.now bulk.now }
{
    match bulk {
        Bulk::Insert { columns, .. } => !repeats(columns.as_slice()),
        Bulk::Update { table, cells, .. } => {
            !writes_twice(cells.as_slice()) && all_free(schema, *table, cells.as_slice())
        }
        Bulk::Delete { .. } => true,
    }
}

/// Whether the parts of a bulk statement fit its table: an INSERT has one value for each of its columns, NULL or of the
/// column's kind; what an UPDATE writes is well typed, in normal form, without an aggregate and of its column's kind; a
/// condition on rows stands as in a select.
#[tactic(auto, using(crate::proofs::Bulks::fitting_decided))]
pub fn is_fitting_bulk(alloc: Global, schema: &Schema, bulk: &Bulk) -> Result<bool, AllocError>
    ensures { IfOk result (λ fitting. IsTrue fitting ↔ IsFittingBulk schema.now bulk.now) }
{
    Ok(fitting_bulk(alloc, schema, bulk)?)
}

/// Whether a keeper may be sent the bulk statement: its parts fit its table, it names no column twice, and an UPDATE
/// spares the primary key.
#[tactic(auto, using(crate::proofs::Bulks::plain_decided))]
pub fn is_plain_bulk(alloc: Global, schema: &Schema, bulk: &Bulk) -> Result<bool, AllocError>
    ensures { IfOk result (λ plain. IsTrue plain ↔ IsPlainBulk schema.now bulk.now) }
{
    if !is_sparing(schema, bulk) {
        return Ok(false);
    }
    Ok(fitting_bulk(alloc, schema, bulk)?)
}
