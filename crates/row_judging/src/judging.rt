//! Rows that collide, and references that dangle.

ghost use Rattle.std.specs.Prelude.{◌≡◌, ◌&&◌, not, IfOk};
ghost use Rattle.std.specs.List.{list_any};
ghost use Rattle.schema_core.specs.Judged.{some_written_dangles};
ghost use Rattle.schema_core.specs.Tables.{collide, dangles, names_row, same_values, some_dangles};
ghost use Rattle.table_rows.specs.Rows.{rows_present, tables_present};

use crate::cells::{cells_of, has_null};
use base_core::{Key, ListOf, Name, RowValues, Value};
use schema_core::{ForeignSpec, Schema, TableSpec};
use std::alloc::{AllocError, Global};
use table_rows::{TableMap, TableRows};

/// Whether two lists of values are equal.
pub(crate) fn same_values(one: &ListOf<Value>, other: &ListOf<Value>) -> bool
    ensures { result ≡ same_values one.now other.now }
{
    one.cmp(other).is_eq()
}

/// Whether two rows have the same value, without a NULL, in the columns of a unique constraint.
pub(crate) fn collide(
    alloc: Global,
    spec: &TableSpec,
    unique: &[Name],
    one: &[Value],
    other: &[Value],
) -> Result<bool, AllocError>
    ensures { IfOk result (λ yes. yes ≡ collide spec.now unique.now one.now other.now) }
{
    let here = cells_of(alloc, spec.columns.as_slice(), one, unique)?;
    if has_null(here.as_slice()) {
        return Ok(false);
    }
    let there = cells_of(alloc, spec.columns.as_slice(), other, unique)?;
    Ok(same_values(&here, &there))
}

/// Whether a key names a row of the table to which a foreign key refers.
pub(crate) fn names_row(
    schema: &Schema,
    tables: &TableMap,
    foreign: &ForeignSpec,
    key: &Key,
) -> bool
    ensures { result ≡ names_row schema.now (tables_present tables.now) foreign.now key.now }
{
    let Some(target) = schema.find(&foreign.target) else {
        return false;
    };
    let Some(rows) = tables.get(target) else {
        return false;
    };
    rows.get(key).is_some()
}

/// Whether a row's foreign key has no NULL and names no row.
fn dangles(
    alloc: Global,
    schema: &Schema,
    tables: &TableMap,
    spec: &TableSpec,
    row: &[Value],
    foreign: &ForeignSpec,
) -> Result<bool, AllocError>
    ensures { IfOk result (λ yes. yes
        ≡ dangles schema.now (tables_present tables.now) spec.now row.now foreign.now) }
{
    let key = cells_of(
        alloc,
        spec.columns.as_slice(),
        row,
        foreign.columns.as_slice(),
    )?;
    if has_null(key.as_slice()) {
        return Ok(false);
    }
    Ok(!names_row(schema, tables, foreign, &key))
}

#[tactic(auto, using(schema_core::proofs::AnySteps::any_steps))]
/// Whether some foreign key of a row dangles.
fn some_dangles(
    alloc: Global,
    schema: &Schema,
    tables: &TableMap,
    spec: &TableSpec,
    row: &[Value],
) -> Result<bool, AllocError>
    ensures { IfOk result (λ yes. yes ≡ some_dangles schema.now (tables_present tables.now) spec.now row.now) }
{
    for foreign in spec.foreigns.as_slice() {
        if dangles(alloc, schema, tables, spec, row, foreign)? {
            return Ok(true);
        }
    }
    Ok(false)
}

#[tactic(auto, using(schema_core::proofs::AnySteps::any_steps))]
/// Whether a foreign key of a written row names no row of the tables that are left.
pub fn some_written_dangles(
    alloc: Global,
    schema: &Schema,
    left: &TableMap,
    spec: &TableSpec,
    entries: &[(Key, RowValues)],
) -> Result<bool, AllocError>
    ensures { IfOk result (λ yes. yes
        ≡ some_written_dangles schema.now (tables_present left.now) spec.now entries.now) }
{
    for entry in entries {
        if some_dangles(alloc, schema, left, spec, entry.1.as_slice())? {
            return Ok(true);
        }
    }
    Ok(false)
}

/// Whether a row under another key collides with this one in a unique constraint.
pub(crate) fn some_collides(
    alloc: Global,
    spec: &TableSpec,
    unique: &[Name],
    rows: &TableRows,
    key: &Key,
    row: &[Value],
) -> Result<bool, AllocError>
    ensures { IfOk result (λ yes. yes
        ≡ list_any (λ other. not
        (same_values key.now other.0) && collide spec.now unique.now row.now other.1) (rows_present rows.now)) }
{
    for (other_key, place) in rows.places() {
        let Some(other) = place else {
            continue;
        };
        if !same_values(key, other_key) && collide(alloc, spec, unique, row, other.as_slice())? {
            return Ok(true);
        }
    }
    Ok(false)
}
