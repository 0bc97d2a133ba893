//! Whether a statement on rows is well formed.

ghost use Rattle.std.specs.Prelude.{◌≡◌, ◌↔◌, ◌&&◌, ◌+◌, ◌≤◌, length, IsTrue};
ghost use Rattle.std.specs.List.{filter, list_all, list_any};
ghost use Rattle.std.specs.Cmp.Lexicographic.{pointwise};
ghost use Rattle.schema_core.specs.Apply.{wants_key};
ghost use Rattle.schema_core.specs.Tables.{fits, has_null, key_cells};
ghost use Rattle.schema_core.specs.WellFormed.{IsWellFormed, are_cells, is_row, may_hold};
ghost use Rattle.schema_core.specs.WellFormedTest as test;

use crate::cells::fits;
use crate::keys::has_generated_key;
use crate::{ColumnSpec, RowStmt, Schema, TableSpec};
use base_core::{ColumnNo, RowValues, Value};

/// Whether a value is NULL or of a column's kind.
fn may_hold(column: &ColumnSpec, value: &Value) -> bool
    ensures { result ≡ may_hold column.now value.now }
{
    matches!(value, Value::Null) || fits(column, value)
}

/// Whether a row has one value for each column, NULL or of its kind.
fn is_row(columns: &[ColumnSpec], row: &[Value]) -> bool
    ensures { result ≡ pointwise may_hold columns.now row.now }
{
    let Some((column, columns)) = columns.split_first() else {
        return row.is_empty();
    };
    let Some((value, row)) = row.split_first() else {
        return false;
    };
    may_hold(column, value) && is_row(columns, row)
}

/// Whether a key has one value for each key column, of its kind and not NULL.
fn is_key(columns: &[ColumnSpec], key: &[Value]) -> bool
    ensures { result ≡ pointwise fits (filter (λ column. column.key) columns.now) key.now }
{
    let Some((column, columns)) = columns.split_first() else {
        return key.is_empty();
    };
    if !column.key {
        return is_key(columns, key);
    }
    let Some((value, key)) = key.split_first() else {
        return false;
    };
    fits(column, value) && is_key(columns, key)
}

/// Whether a part of a row's key is NULL.
fn has_open_key(columns: &[ColumnSpec], row: &[Value]) -> bool
    ensures { result ≡ has_null (key_cells columns.now row.now) }
{
    let Some((column, columns)) = columns.split_first() else {
        return false;
    };
    let Some((value, row)) = row.split_first() else {
        return false;
    };
    (column.key && matches!(value, Value::Null)) || has_open_key(columns, row)
}

/// Whether cells are of columns from this place on, in order, each once and none of the key, and each holds NULL or a value of
/// its column's kind.
fn are_cells(place: usize, columns: &[ColumnSpec], cells: &[(ColumnNo, Value)]) -> bool
    requires { place + length columns.now ≤ 18446744073709551615 }
    ensures { result ≡ are_cells place columns.now cells.now }
{
    let Some((cell, later)) = cells.split_first() else {
        return true;
    };
    let Some((column, columns)) = columns.split_first() else {
        return false;
    };
    let number = cell.0.0 as usize;
    if place < number {
        return are_cells(place + 1, columns, cells);
    }
    place == number
        && !column.key
        && may_hold(column, &cell.1)
        && are_cells(place + 1, columns, later)
}

/// Whether a row leaves its key open for a generated one.
fn wants_key(spec: &TableSpec, row: &RowValues) -> bool
    ensures { result ≡ wants_key spec.now row.now }
{
    has_generated_key(spec) && has_open_key(spec.columns.as_slice(), row.as_slice())
}

/// Whether all rows leave their key open for a generated one.
fn do_all_want_keys(spec: &TableSpec, rows: &[RowValues]) -> bool
    ensures { result ≡ list_all (wants_key spec.now) rows.now }
{
    rows.iter().all(|row| wants_key(spec, row))
}

/// Whether a row leaves its key open for a generated one.
fn does_one_want_a_key(spec: &TableSpec, rows: &[RowValues]) -> bool
    ensures { result ≡ list_any (wants_key spec.now) rows.now }
{
    rows.iter().any(|row| wants_key(spec, row))
}

/// Whether all rows leave their key open for a generated one, or none does, and there is one row where that is all that it
/// has.
#[tactic(auto, using(std::proofs::lemmas::Bool::Decides::nat_tests))]
fn are_alike(spec: &TableSpec, rows: &[RowValues]) -> bool
    ensures { result ≡ (test.are_alike spec.now rows.now && test.are_wide_enough spec.now rows.now) }
{
    if !does_one_want_a_key(spec, rows) {
        return true;
    }
    if spec.columns.len() == 1 && rows.len() != 1 {
        return false;
    }
    do_all_want_keys(spec, rows)
}

/// Whether each row has one value for each column, NULL or of its kind.
fn are_rows(spec: &TableSpec, rows: &[RowValues]) -> bool
    ensures { result ≡ list_all (is_row spec.now) rows.now }
{
    rows.iter()
        .all(|row| is_row(spec.columns.as_slice(), row.as_slice()))
}

/// Whether one INSERT can write the rows.
#[tactic(auto, using(std::proofs::lemmas::Bool::Decides::nat_tests))]
fn are_new_rows(spec: &TableSpec, rows: &[RowValues]) -> bool
    ensures { result ≡ test.are_new_rows spec.now rows.now }
{
    if rows.is_empty() {
        return false;
    }
    if 1000 < rows.len() {
        return false;
    }
    are_rows(spec, rows) && are_alike(spec, rows)
}

/// Whether a table's row of a key can be written in these cells.
fn is_update_of(spec: &TableSpec, key: &[Value], cells: &[(ColumnNo, Value)]) -> bool
    ensures { result ≡ test.is_update_of spec.now key.now cells.now }
{
    let columns = spec.columns.as_slice();
    is_key(columns, key) && !cells.is_empty() && are_cells(0, columns, cells)
}

/// Whether a statement on rows is well formed: it names a declared table, and its rows, its key and its cells fit the
/// table's columns. An INSERT has 1 to 1000 rows, which all give their keys or all leave them open for generated ones, and
/// one row where a generated key is all that it has. A keeper may be sent it then. It takes no memory.
#[tactic(auto, using(crate::proofs::WellFormedTests::decided))]
pub fn is_well_formed(schema: &Schema, statement: &RowStmt) -> bool
    ensures test { result ≡ test.is_well_formed schema.now statement.now }
    ensures formed { IsTrue result ↔ IsWellFormed schema.now statement.now }
{
    match statement {
        RowStmt::Insert { table, rows } => {
            table.0 < schema.count() && are_new_rows(schema.spec(*table), rows.as_slice())
        }
        RowStmt::Update { table, key, cells } => {
            table.0 < schema.count()
                && is_update_of(schema.spec(*table), key.as_slice(), cells.as_slice())
        }
        RowStmt::Delete { table, key } => {
            table.0 < schema.count()
                && is_key(schema.spec(*table).columns.as_slice(), key.as_slice())
        }
    }
}
