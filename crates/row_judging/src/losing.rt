//! Rows that refer to rows that were taken out, looked up in the indexes of their tables.

ghost use Rattle.std.specs.Prelude.{◌≡◌, ◌&&◌, List, not, IfOk};
ghost use Rattle.std.specs.List.{list_any};
ghost use Rattle.base_core.specs.declared.value.Value.{Value};
ghost use Rattle.schema_core.specs.Catalog.{spec_of};
ghost use Rattle.schema_core.specs.Tables.{cells_of, row_under};
ghost use Rattle.table_index.specs.Indexed.{IsComplete, cells_at};
ghost use Rattle.table_rows.specs.Rows.{rows_present, tables_present};
ghost use Rattle.row_judging.specs.Lost.{has_there, is_gone, is_lost, key_lost, refers_to, some_lost, some_row_has};

use crate::cells::{cells_of, has_null};
use crate::judging::{names_row, same_values};
use base_core::{Key, Name, TableId};
use schema_core::{ForeignSpec, Schema, TableSpec};
use std::alloc::{AllocError, Global};
use std::collections::BTreeSet;
use table_index::{ValueIndex, column_places};
use table_rows::{IndexedRows, TableMap, TableRows};

/// What was there before rows were taken out, beside the tables that are left: the row of a key of one table, or rows of it.
#[derive(Clone, Copy)]
pub enum Before<'a> {
    Row(TableId, &'a Key),
    Rows(TableId, &'a TableRows),
}

/// Whether a foreign key refers to a table.
pub fn refers_to(schema: &Schema, foreign: &ForeignSpec, table: TableId) -> bool
    ensures { result ≡ refers_to schema.now foreign.now table }
{
    match schema.find(&foreign.target) {
        Some(target) => target.0.cmp(&table.0).is_eq(),
        None => false,
    }
}

/// Whether the row of a key has these values in columns of these names, if there is one.
fn has_there(
    alloc: Global,
    spec: &TableSpec,
    names: &[Name],
    rows: &TableRows,
    key: &Key,
    value: &Key,
) -> Result<bool, AllocError>
    ensures { IfOk result (λ yes. yes
        ≡ has_there spec.now names.now value.now (row_under (rows_present rows.now) key.now)) }
{
    let Some(row) = rows.get(key) else {
        return Ok(false);
    };
    let cells = cells_of(alloc, spec.columns.as_slice(), row.as_slice(), names)?;
    Ok(same_values(&cells, value))
}

#[tactic(auto, using(schema_core::proofs::AnySteps::any_steps))]
/// Whether the row of one of these keys has.
fn some_key_has(
    alloc: Global,
    spec: &TableSpec,
    names: &[Name],
    rows: &TableRows,
    keys: &BTreeSet<Key>,
    value: &Key,
) -> Result<bool, AllocError>
    ensures { IfOk result (λ yes. yes ≡ list_any
        (λ key. has_there spec.now names.now value.now (row_under (rows_present rows.now) key)) keys.now.keys) }
{
    for key in keys {
        if has_there(alloc, spec, names, rows, key, value)? {
            return Ok(true);
        }
    }
    Ok(false)
}

/// Whether some row has, going through all of them.
fn some_has(
    alloc: Global,
    spec: &TableSpec,
    names: &[Name],
    rows: &TableRows,
    value: &Key,
) -> Result<bool, AllocError>
    ensures { IfOk result (λ yes. yes
        ≡ some_row_has spec.now names.now (rows_present rows.now) value.now) }
{
    for (_, place) in rows.places() {
        let Some(row) = place else {
            continue;
        };
        let cells = cells_of(alloc, spec.columns.as_slice(), row.as_slice(), names)?;
        if same_values(&cells, value) {
            return Ok(true);
        }
    }
    Ok(false)
}

/// Whether some row has, by an index on these columns.
fn some_has_by(
    alloc: Global,
    spec: &TableSpec,
    names: &[Name],
    rows: &IndexedRows,
    index: &ValueIndex,
    value: &Key,
) -> Result<bool, AllocError>
    requires complete { IsComplete (row_under (rows_present rows.now)) index.now }
    requires columns { (cells : List Value) → cells_at index.now.columns.items cells
        ≡ cells_of spec.now cells names.now }
    ensures { IfOk result (λ yes. yes
        ≡ some_row_has spec.now names.now (rows_present rows.now) value.now) }
{
    let present = rows.rows();
    let Some(keys) = index.keys(value) else {
        return Ok(false);
    };
    some_key_has(alloc, spec, names, present, keys, value)
}

/// Whether some row has these values in columns of these names. The rows are gone through only where there is no index on
/// the columns.
fn some_row_has(
    alloc: Global,
    spec: &TableSpec,
    names: &[Name],
    rows: &IndexedRows,
    value: &Key,
) -> Result<bool, AllocError>
    ensures { IfOk result (λ yes. yes
        ≡ some_row_has spec.now names.now (rows_present rows.now) value.now) }
{
    let Some(places) = column_places(alloc, spec.columns.as_slice(), names)? else {
        return some_has(alloc, spec, names, rows.rows(), value);
    };
    match rows.index_on(places.as_slice()) {
        Some(index) => some_has_by(alloc, spec, names, rows, index, value),
        None => some_has(alloc, spec, names, rows.rows(), value),
    }
}

/// Whether a key has no NULL and names no row of the tables that are left.
fn is_gone(schema: &Schema, left: &TableMap, foreign: &ForeignSpec, key: &Key) -> bool
    ensures { result ≡ is_gone schema.now (tables_present left.now) foreign.now key.now }
{
    !has_null(key.as_slice()) && !names_row(schema, left, foreign, key)
}

/// Whether a row's foreign key is one that is gone.
fn key_lost(
    alloc: Global,
    schema: &Schema,
    left: &TableMap,
    spec: &TableSpec,
    rows: &IndexedRows,
    foreign: &ForeignSpec,
    key: &Key,
) -> Result<bool, AllocError>
    ensures { IfOk result (λ yes. yes ≡ key_lost
        schema.now (tables_present left.now) spec.now (rows_present rows.now) foreign.now key.now) }
{
    if !is_gone(schema, left, foreign, key) {
        return Ok(false);
    }
    some_row_has(alloc, spec, foreign.columns.as_slice(), rows, key)
}

/// Whether a row's foreign key is one of those that are gone.
fn some_key_lost(
    alloc: Global,
    schema: &Schema,
    left: &TableMap,
    spec: &TableSpec,
    rows: &IndexedRows,
    foreign: &ForeignSpec,
    taken: &TableRows,
) -> Result<bool, AllocError>
    ensures { IfOk result (λ yes. yes ≡ list_any
        (λ entry. key_lost schema.now (tables_present left.now) spec.now (rows_present rows.now) foreign.now entry.0)
        (rows_present taken.now)) }
{
    for (key, place) in taken.places() {
        let Some(_row) = place else {
            continue;
        };
        if key_lost(alloc, schema, left, spec, rows, foreign, key)? {
            return Ok(true);
        }
    }
    Ok(false)
}

/// Whether a row's foreign key named a row before, and names none of the tables that are left.
fn foreign_lost(
    alloc: Global,
    schema: &Schema,
    before: &Before,
    left: &TableMap,
    spec: &TableSpec,
    rows: &IndexedRows,
    foreign: &ForeignSpec,
) -> Result<bool, AllocError>
    ensures { IfOk result (λ yes. yes ≡ list_any
        (λ row. is_lost schema.now before.now (tables_present left.now) spec.now row.1 foreign.now)
        (rows_present rows.now)) }
{
    match before {
        Before::Row(table, key) => {
            if !refers_to(schema, foreign, *table) {
                return Ok(false);
            }
            key_lost(alloc, schema, left, spec, rows, foreign, key)
        }
        Before::Rows(table, taken) => {
            if !refers_to(schema, foreign, *table) {
                return Ok(false);
            }
            some_key_lost(alloc, schema, left, spec, rows, foreign, taken)
        }
    }
}

#[tactic(auto, using(schema_core::proofs::AnySteps::any_steps))]
/// Whether one of a row's foreign keys did.
fn some_foreign_lost(
    alloc: Global,
    schema: &Schema,
    before: &Before,
    left: &TableMap,
    spec: &TableSpec,
    rows: &IndexedRows,
) -> Result<bool, AllocError>
    ensures { IfOk result (λ yes. yes ≡ list_any (λ foreign. list_any
        (λ row. is_lost schema.now before.now (tables_present left.now) spec.now row.1 foreign)
        (rows_present rows.now)) spec.now.foreigns) }
{
    for foreign in spec.foreigns.as_slice() {
        if foreign_lost(alloc, schema, before, left, spec, rows, foreign)? {
            return Ok(true);
        }
    }
    Ok(false)
}

/// Whether one of a table's rows did; a table that is not declared has no foreign keys.
fn table_lost(
    alloc: Global,
    schema: &Schema,
    before: &Before,
    left: &TableMap,
    table: TableId,
    rows: &IndexedRows,
) -> Result<bool, AllocError>
    ensures { IfOk result (λ yes. yes
        ≡ list_any (λ row. list_any
        (is_lost schema.now before.now (tables_present left.now) (spec_of schema.now table) row.1)
        (spec_of schema.now table).foreigns) (rows_present rows.now)) }
{
    if schema.count() <= table.0 {
        return Ok(false);
    }
    some_foreign_lost(alloc, schema, before, left, schema.spec(table), rows)
}

/// Whether a row that is left refers to one that was taken out.
pub fn some_lost(
    alloc: Global,
    schema: &Schema,
    before: &Before,
    left: &TableMap,
) -> Result<bool, AllocError>
    ensures { IfOk result (λ yes. yes ≡ some_lost schema.now before.now (tables_present left.now)) }
{
    for (table, rows) in left.entries() {
        if table_lost(alloc, schema, before, left, *table, rows)? {
            return Ok(true);
        }
    }
    Ok(false)
}
