//! Foreign keys that are added once all tables are made.

ghost use Rattle.std.specs.Prelude.{◌≡◌, ◌<◌, ◌+◌, ◌++◌, length, true, IfOk, OnOk};
ghost use Rattle.std.specs.List.{All};
ghost use Rattle.schema_core.specs.Catalog.{IsTable, spec_of};
ghost use Rattle.statement_lines.specs.Later as spec;

use base_core::{Dialect, TableId};
use schema_core::Schema;
use std::alloc::{AllocError, Global};

/// The place of a table in an order.
fn place_in(order: &[TableId], table: TableId) -> Option<usize>
    ensures { result ≡ spec.place_in order.now table }
{
    order.iter().position(|other| other.0 == table.0)
}

/// Whether one place stands before another.
fn is_before(one: Option<usize>, other: Option<usize>) -> bool
    ensures { result ≡ spec.is_before one other }
{
    match (one, other) {
        (Some(one), Some(other)) => one < other,
        _ => false,
    }
}

/// Whether the target of a table's foreign key comes behind the table.
fn is_behind(order: &[TableId], table: TableId, target: Option<TableId>) -> bool
    ensures { result ≡ spec.is_behind order.now table target }
{
    match target {
        Some(target) => is_before(place_in(order, table), place_in(order, target)),
        None => false,
    }
}

/// The next number. One past 32 bits, which no memory holds, is answered as memory that ran out.
fn next_number(number: u32) -> Result<u32, AllocError>
    ensures { IfOk result (λ next. next ≡ number + 1) }
{
    match number.checked_add(1) {
        Some(next) => Ok(next),
        None => Err(AllocError),
    }
}

/// Puts the number of a foreign key behind others, if its target comes behind its table.
fn put_number(numbers: &mut Vec<u32>, behind: bool, number: u32) -> Result<(), AllocError>
    ensures { OnOk result
        (numbers.new.items ≡ numbers.old.items ++ spec.number_if behind number) }
{
    if behind {
        numbers.push(number)?;
    }
    Ok(())
}

/// The numbers of the foreign keys whose targets come behind their table in an order.
fn numbers_behind(
    alloc: Global,
    schema: &Schema,
    order: &[TableId],
    table: TableId,
) -> Result<Vec<u32>, AllocError>
    requires { IsTable schema.now table }
    ensures numbers { IfOk result
        (λ numbers. numbers.items ≡ spec.numbers_behind schema.now order.now table) }
    ensures numbered { IfOk result (λ numbers.
        All (λ number. number < length (spec_of schema.now table).foreigns) numbers.items) }
{
    let foreigns = schema.spec(table).foreigns.as_slice();
    let mut numbers = Vec::new(alloc);
    let mut number = 0;
    for foreign in foreigns {
        let behind = is_behind(order, table, schema.find(&foreign.target));
        put_number(&mut numbers, behind, number)?;
        number = next_number(number)?;
    }
    Ok(numbers)
}

/// The numbers of a table's foreign keys that are added once all tables are made.
pub(crate) fn later_foreigns(
    alloc: Global,
    dialect: Dialect,
    schema: &Schema,
    table: TableId,
) -> Result<Vec<u32>, AllocError>
    requires declared { IsTable schema.now table }
    requires resolved { schema.now.resolved ≡ true }
    ensures numbers { IfOk result
        (λ numbers. numbers.items ≡ spec.later_foreigns dialect schema.now table) }
    ensures numbered { IfOk result (λ numbers.
        All (λ number. number < length (spec_of schema.now table).foreigns) numbers.items) }
{
    match dialect {
        Dialect::Sqlite => Ok(Vec::new(alloc)),
        Dialect::Postgresql | Dialect::Mysql => {
            let order = schema.tables_in_order(alloc)?;
            numbers_behind(alloc, schema, order.as_slice(), table)
        }
    }
}
