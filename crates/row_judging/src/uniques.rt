//! Unique values of written rows, looked up in the indexes of their table.

ghost use Rattle.std.specs.Prelude.{◌≡◌, true, List, is_some, IfOk, IfSome};
ghost use Rattle.std.specs.List.{list_any};
ghost use Rattle.base_core.specs.declared.value.Value.{Value};
ghost use Rattle.schema_core.specs.Judged.{some_repeats};
ghost use Rattle.schema_core.specs.Tables.{cells_of, row_under, rows_in};
ghost use Rattle.table_index.specs.Indexed.{IsComplete, cells_at};
ghost use Rattle.table_rows.specs.Rows.{rows_at, rows_present, tables_present};
ghost use Rattle.row_judging.specs.Holders.{collides_there, is_held, some_key_collides};

use crate::cells::{cells_of, has_null};
use crate::judging::{collide, same_values, some_collides};
use base_core::{Key, Name, RowValues, TableId, Value};
use schema_core::TableSpec;
use std::alloc::{AllocError, Global};
use std::collections::BTreeSet;
use table_index::{ValueIndex, column_places};
use table_rows::{IndexedRows, TableMap, TableRows};

/// Whether a row collides with the one of a key, if there is one.
fn collides_there(
    alloc: Global,
    rows: &TableRows,
    key: &Key,
    spec: &TableSpec,
    unique: &[Name],
    row: &[Value],
) -> Result<bool, AllocError>
    ensures { IfOk result (λ yes. yes
        ≡ collides_there spec.now unique.now row.now (row_under (rows_present rows.now) key.now)) }
{
    match rows.get(key) {
        Some(other) => collide(alloc, spec, unique, row, other.as_slice()),
        None => Ok(false),
    }
}

#[tactic(auto, using(schema_core::proofs::AnySteps::any_steps))]
/// Whether another one of these keys has a row that collides with this one.
fn some_key_collides(
    alloc: Global,
    spec: &TableSpec,
    unique: &[Name],
    rows: &TableRows,
    keys: &BTreeSet<Key>,
    key: &Key,
    row: &[Value],
) -> Result<bool, AllocError>
    ensures { IfOk result (λ yes. yes ≡ some_key_collides
        spec.now unique.now (rows_present rows.now) keys.now.keys key.now row.now) }
{
    for other in keys {
        if !same_values(key, other) && collides_there(alloc, rows, other, spec, unique, row)? {
            return Ok(true);
        }
    }
    Ok(false)
}

/// Whether another row has the value that a row has without a NULL, by an index on the columns of the constraint.
fn is_held_by(
    alloc: Global,
    spec: &TableSpec,
    unique: &[Name],
    rows: &IndexedRows,
    index: &ValueIndex,
    key: &Key,
    row: &[Value],
) -> Result<bool, AllocError>
    requires complete { IsComplete (row_under (rows_present rows.now)) index.now }
    requires columns { (cells : List Value) → cells_at index.now.columns.items cells
        ≡ cells_of spec.now cells unique.now }
    ensures { IfOk result (λ yes. yes
        ≡ is_held spec.now unique.now (rows_present rows.now) key.now row.now) }
{
    let present = rows.rows();
    let value = cells_of(alloc, spec.columns.as_slice(), row, unique)?;
    if has_null(value.as_slice()) {
        return Ok(false);
    }
    let Some(keys) = index.keys(&value) else {
        return Ok(false);
    };
    some_key_collides(alloc, spec, unique, present, keys, key, row)
}

/// Whether another row has the value that a row has without a NULL. The rows are gone through only where there is no index on
/// the columns of the constraint.
fn is_held(
    alloc: Global,
    spec: &TableSpec,
    unique: &[Name],
    rows: &IndexedRows,
    key: &Key,
    row: &[Value],
) -> Result<bool, AllocError>
    ensures { IfOk result (λ yes. yes
        ≡ is_held spec.now unique.now (rows_present rows.now) key.now row.now) }
{
    let Some(places) = column_places(alloc, spec.columns.as_slice(), unique)? else {
        return some_collides(alloc, spec, unique, rows.rows(), key, row);
    };
    match rows.index_on(places.as_slice()) {
        Some(index) => is_held_by(alloc, spec, unique, rows, index, key, row),
        None => some_collides(alloc, spec, unique, rows.rows(), key, row),
    }
}

#[tactic(auto, using(schema_core::proofs::AnySteps::any_steps))]
/// Whether a written row has the value of another row that is left in a unique constraint.
fn some_held(
    alloc: Global,
    spec: &TableSpec,
    unique: &[Name],
    left: &IndexedRows,
    entries: &[(Key, RowValues)],
) -> Result<bool, AllocError>
    ensures { IfOk result (λ yes. yes
        ≡ list_any (λ entry. is_held spec.now unique.now (rows_present left.now) entry.0 entry.1) entries.now) }
{
    for entry in entries {
        if is_held(alloc, spec, unique, left, &entry.0, entry.1.as_slice())? {
            return Ok(true);
        }
    }
    Ok(false)
}

#[tactic(auto, using(schema_core::proofs::AnySteps::any_steps))]
/// Whether a written row has the value of another row in one of the constraints.
fn some_unique_held(
    alloc: Global,
    spec: &TableSpec,
    left: &IndexedRows,
    entries: &[(Key, RowValues)],
) -> Result<bool, AllocError>
    ensures { IfOk result (λ yes. yes
        ≡ list_any (λ unique. list_any
        (λ entry. is_held spec.now unique (rows_present left.now) entry.0 entry.1) entries.now)
        spec.now.uniques) }
{
    for unique in spec.uniques.as_slice() {
        if some_held(alloc, spec, unique.as_slice(), left, entries)? {
            return Ok(true);
        }
    }
    Ok(false)
}

/// Whether a row that was written in a created table has a unique value of another row that is left. The rows of the table
/// are gone through only for a constraint without an index.
pub fn some_repeats(
    alloc: Global,
    spec: &TableSpec,
    left: &TableMap,
    table: TableId,
    entries: &[(Key, RowValues)],
) -> Result<bool, AllocError>
    requires { is_some (rows_in (tables_present left.now) table) ≡ true }
    ensures { IfOk result (λ yes. yes
        ≡ some_repeats spec.now (rows_at (tables_present left.now) table) entries.now) }
{
    let Some(rows) = left.find(table) else {
        return Ok(false);
    };
    some_unique_held(alloc, spec, rows, entries)
}
