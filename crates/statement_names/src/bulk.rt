//! Names of bulk statements.

ghost use Rattle.std.specs.Prelude.{◌≡◌, [], map, IfOk};
ghost use Rattle.schema_core.specs.Catalog.{has_name};
ghost use Rattle.statement_names.specs.BulkNames as spec;
ghost use Rattle.script_names.specs.Faults.{TellsFirst};

use base_core::{ColumnNo, Copied, ListOf, Name, Refusal, RequestKind, RowValues};
use expr_types::{Bulk, Expr};
use schema_core::{Schema, TableSpec};
use script_names::{Scope, find_column, named_if_given, pair, table_named, unknown};
use script_types::{Syn, SynBulk, SynSource};
use std::alloc::{AllocError, Global};

/// The table alone in scope, under its own name.
fn scope_alone(alloc: Global, table: &Name) -> Result<Scope, AllocError>
    ensures { IfOk result (λ scope. scope.items ≡ spec.scope_alone table.now) }
{
    let source = SynSource {
        table: table.copied()?,
        alias: None,
    };
    let mut scope = Vec::new(alloc);
    scope.push((0, source))?;
    Ok(scope)
}

/// Whether a name is in the list.
fn has_name(names: &[Name], name: &Name) -> bool
    ensures { result ≡ has_name names.now name.now }
{
    names.iter().any(|other| *other == *name)
}

/// The column of a name that is not among those before it.
fn column_named(table: &TableSpec, before: &[Name], name: &Name) -> Result<ColumnNo, Refusal>
    ensures value { IfOk result (λ said. said ≡ spec.column_number table.now name.now) }
    ensures told { TellsFirst (spec.column_faults table.now before.now name.now) result }
{
    let Some(number) = find_column(table, name)? else {
        return Err(unknown(name)?);
    };
    if has_name(before, name) {
        return Err(Refusal::InvalidRequestError(RequestKind::WrongKind));
    }
    Ok(number)
}

/// Columns in the order of the text, none of them twice.
#[tactic(auto, using(script_names::proofs::Firsts::firsts))]
fn columns_named(
    alloc: Global,
    table: &TableSpec,
    names: &[Name],
) -> Result<ListOf<ColumnNo>, Refusal>
    ensures value { IfOk result (λ said. said ≡ map (spec.column_number table.now) names.now) }
    ensures told { TellsFirst (spec.columns_faults table.now [] names.now) result }
{
    let mut before = Vec::new(alloc);
    let mut numbers = ListOf::new(alloc);
    for name in names {
        numbers.push(column_named(table, before.as_slice(), name)?)?;
        before.push(name.copied()?)?;
    }
    Ok(numbers)
}

/// A column that is not among those before it, and what is written into it.
#[tactic(auto, using(script_names::proofs::Firsts::firsts))]
fn cell_named(
    alloc: Global,
    schema: &Schema,
    table: &TableSpec,
    scope: &[(u32, SynSource)],
    before: &[Name],
    cell: &(Name, Option<Syn>),
) -> Result<(ColumnNo, Option<Expr>), Refusal>
    ensures value { IfOk result (λ said. said ≡ spec.named_cell schema.now table.now scope.now
        cell.now) }
    ensures told { TellsFirst (spec.cell_faults schema.now table.now scope.now before.now
        cell.now) result }
{
    pair(
        column_named(table, before, &cell.0),
        named_if_given(alloc, schema, scope, &cell.1),
    )
}

/// Cells in the order of the text, no column of them twice.
#[tactic(auto, using(script_names::proofs::Firsts::firsts))]
fn cells_named(
    alloc: Global,
    schema: &Schema,
    table: &TableSpec,
    scope: &[(u32, SynSource)],
    cells: &[(Name, Option<Syn>)],
) -> Result<ListOf<(ColumnNo, Option<Expr>)>, Refusal>
    ensures value { IfOk result (λ said. said ≡ map (spec.named_cell schema.now table.now
        scope.now) cells.now) }
    ensures told { TellsFirst (spec.cells_faults schema.now table.now scope.now [] cells.now)
        result }
{
    let mut before = Vec::new(alloc);
    let mut named = ListOf::new(alloc);
    for cell in cells {
        named.push(cell_named(alloc, schema, table, scope, before.as_slice(), cell)?)?;
        before.push(cell.0.copied()?)?;
    }
    Ok(named)
}

#[tactic(auto, using(script_names::proofs::Firsts::firsts))]
fn insert_named(
    alloc: Global,
    schema: &Schema,
    table: &Name,
    columns: &[Name],
    values: &RowValues,
) -> Result<Bulk, Refusal>
    ensures value { IfOk result (λ said. said ≡ spec.named_insert schema.now table.now columns.now
        values.now) }
    ensures told { TellsFirst (spec.insert_faults schema.now table.now columns.now values.now)
        result }
{
    let number = table_named(schema, table)?;
    let numbers = columns_named(alloc, schema.spec(number), columns)?;
    if values.len() != columns.len() {
        return Err(Refusal::InvalidRequestError(RequestKind::WrongKind));
    }
    Ok(Bulk::Insert {
        table: number,
        columns: numbers,
        values: values.copied()?,
    })
}

#[tactic(auto, using(script_names::proofs::Firsts::firsts))]
fn update_named(
    alloc: Global,
    schema: &Schema,
    table: &Name,
    cells: &[(Name, Option<Syn>)],
    filter: &Option<Syn>,
) -> Result<Bulk, Refusal>
    ensures value { IfOk result (λ said. said ≡ spec.named_update schema.now table.now cells.now
        filter.now) }
    ensures told { TellsFirst (spec.update_faults schema.now table.now cells.now filter.now)
        result }
{
    let number = table_named(schema, table)?;
    let scope = scope_alone(alloc, table)?;
    let scope = scope.as_slice();
    let (cells, filter) = pair(
        cells_named(alloc, schema, schema.spec(number), scope, cells),
        named_if_given(alloc, schema, scope, filter),
    )?;
    Ok(Bulk::Update {
        table: number,
        cells,
        filter,
    })
}

#[tactic(auto, using(script_names::proofs::Firsts::firsts))]
fn delete_named(
    alloc: Global,
    schema: &Schema,
    table: &Name,
    filter: &Option<Syn>,
) -> Result<Bulk, Refusal>
    ensures value { IfOk result (λ said. said ≡ spec.named_delete schema.now table.now filter.now) }
    ensures told { TellsFirst (spec.delete_faults schema.now table.now filter.now) result }
{
    let number = table_named(schema, table)?;
    let scope = scope_alone(alloc, table)?;
    let filter = named_if_given(alloc, schema, scope.as_slice(), filter)?;
    Ok(Bulk::Delete {
        table: number,
        filter,
    })
}

/// The bulk statement with numbers for its names, in the form in which it is written.
///
/// # Errors
/// The first in reading order: `Unknown` of a name that stands for nothing (a table that is not declared, a column that it
/// lacks, a source that is not in scope), `WrongKind` of a column that is given twice, and behind its operands of a function
/// that takes another number, and at the end of an INSERT with another number of values than columns.
pub fn name_bulk(alloc: Global, schema: &Schema, b: &SynBulk) -> Result<Bulk, Refusal>
    ensures value { IfOk result (λ said. said ≡ spec.named_bulk schema.now b.now) }
    ensures told { TellsFirst (spec.bulk_name_faults schema.now b.now) result }
{
    match b {
        SynBulk::Insert {
            table,
            columns,
            values,
        } => insert_named(alloc, schema, table, columns.as_slice(), values),
        SynBulk::Update {
            table,
            cells,
            filter,
        } => update_named(alloc, schema, table, cells.as_slice(), filter),
        SynBulk::Delete { table, filter } => delete_named(alloc, schema, table, filter),
    }
}
