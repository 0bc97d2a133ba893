//! A statement on rows, done on tables with scopes.

ghost use Rattle.std.specs.Prelude.{◌≡◌, ◌&&◌, ◌<◌, [], ◌∷◌, ◌++◌, true, is_some, length, IfOk, OnOk};
ghost use Rattle.std.specs.List.{list_any};
ghost use Rattle.schema_core.specs.Apply.{apply, delete_row, entry_of, insert_rows, is_demanded, keys_of_entries, next_key, update_row, wants_key, with_own_key};
ghost use Rattle.schema_core.specs.Catalog.{spec_of, IsTable};
ghost use Rattle.schema_core.specs.Judged.{lacks_value};
ghost use Rattle.schema_core.specs.Tables.{row_under, rows_in};
ghost use Rattle.schema_core.specs.Told.{Told};
ghost use Rattle.schema_core.specs.WellFormed.{IsWellFormed};
ghost use Rattle.table_log.specs.Marks.{Notes, rows_there};
ghost use Rattle.table_rows.specs.Rows.{rows_at, rows_present};
ghost use Rattle.row_statements.specs.Held.{DidOrLeft, Wrote, put_from, rows_changed, stand, with_entry};

use crate::references::{
    index_foreigns, make_indexes, some_lost, some_repeats, some_written_dangles,
};
use base_core::{ColumnNo, Copied, Key, KeyList, ListOf, RowValues, TableId, Value};
use row_judging::{Before, has_null, key_of, lacks_given, lacks_value, with_cells, with_key};
use schema_core::{RowStmt, Schema, Unwritten, Violation};
use std::alloc::{AllocError, Global};
use table_log::TableLog;
use table_rows::TableRows;

/// A copy of the row of a key.
pub fn row_under(
    store: &TableLog,
    table: TableId,
    key: &Key,
) -> Result<Option<RowValues>, AllocError>
    requires { is_some (rows_in store.now.seen.tables table) ≡ true }
    ensures { IfOk result (λ row. row ≡ row_under (rows_at store.now.seen.tables table) key.now) }
{
    let Some(rows) = store.get(table) else {
        return Ok(None);
    };
    let Some(row) = rows.get(key) else {
        return Ok(None);
    };
    Ok(Some(row.copied()?))
}

#[tactic(auto, using(crate::proofs::WriteSteps::stand_steps))]
/// Whether written rows may stand: none repeats a unique value of another row or refers to no row.
pub fn stand(
    alloc: Global,
    schema: &Schema,
    store: &TableLog,
    table: TableId,
    entries: &[(Key, RowValues)],
) -> Result<(), Unwritten>
    requires declared { IsTable schema.now table }
    requires created { is_some (rows_in store.now.seen.tables table) ≡ true }
    ensures { Told (stand schema.now store.now.seen.tables table entries.now) result }
{
    let spec = schema.spec(table);
    if some_repeats(alloc, store, spec, table, entries)? {
        return Err(Unwritten::Violates(Violation::Unique));
    }
    if some_written_dangles(alloc, schema, store, spec, entries)? {
        return Err(Unwritten::Violates(Violation::Foreign));
    }
    Ok(())
}

/// Whether the key of a new row is to be generated.
fn wants_key(
    alloc: Global,
    schema: &Schema,
    table: TableId,
    row: &[Value],
) -> Result<bool, AllocError>
    requires { IsTable schema.now table }
    ensures { IfOk result (λ yes. yes ≡ wants_key (spec_of schema.now table) row.now) }
{
    if !schema.generated(table) {
        return Ok(false);
    }
    let key = key_of(alloc, schema.spec(table).columns.as_slice(), row)?;
    Ok(has_null(key.as_slice()))
}

#[tactic(auto, using(schema_core::proofs::ApplySteps::own_key_steps))]
/// A new row with its key, which is the next one of these rows where the row leaves it open.
fn with_own_key(
    alloc: Global,
    schema: &Schema,
    table: TableId,
    rows: &TableRows,
    row: &RowValues,
) -> Result<Option<RowValues>, AllocError>
    requires { IsTable schema.now table }
    ensures { IfOk result (λ keyed. keyed
        ≡ with_own_key (spec_of schema.now table) (rows_present rows.now) row.now) }
{
    if !wants_key(alloc, schema, table, row.as_slice())? {
        return Ok(Some(row.copied()?));
    }
    let Some(key) = rows.next_key() else {
        return Ok(None);
    };
    let columns = schema.spec(table).columns.as_slice();
    Ok(Some(with_key(alloc, columns, key, row.as_slice())?))
}

#[tactic(auto, using(schema_core::proofs::ApplySteps::entry_steps))]
/// A new row under its key, which none of these rows has.
fn entry_of(
    alloc: Global,
    schema: &Schema,
    table: TableId,
    rows: &TableRows,
    row: Option<RowValues>,
) -> Result<(Key, RowValues), Unwritten>
    requires { IsTable schema.now table }
    ensures { Told (entry_of (spec_of schema.now table) (rows_present rows.now) row) result }
{
    let Some(row) = row else {
        return Err(Unwritten::Violates(Violation::KeysSpent));
    };
    let key = key_of(alloc, schema.spec(table).columns.as_slice(), row.as_slice())?;
    if rows.get(&key).is_some() {
        return Err(Unwritten::Violates(Violation::PrimaryKey));
    }
    Ok((key, row))
}

#[tactic(auto, using(table_rows::proofs::Laws::rows_there))]
/// A new row of a created table under its key.
fn new_entry(
    alloc: Global,
    schema: &Schema,
    store: &TableLog,
    table: TableId,
    row: &RowValues,
) -> Result<(Key, RowValues), Unwritten>
    requires declared { IsTable schema.now table }
    requires created { is_some (rows_in store.now.seen.tables table) ≡ true }
    ensures { Told (entry_of (spec_of schema.now table) (rows_at store.now.seen.tables table)
        (with_own_key (spec_of schema.now table) (rows_at store.now.seen.tables table) row.now)) result }
{
    let Some(rows) = store.get(table) else {
        return Err(Unwritten::Memory);
    };
    let keyed = with_own_key(alloc, schema, table, rows, row)?;
    entry_of(alloc, schema, table, rows, keyed)
}

/// The keys of rows.
fn keys_of_entries(alloc: Global, entries: &[(Key, RowValues)]) -> Result<KeyList, AllocError>
    ensures { IfOk result (λ keys. keys ≡ keys_of_entries entries.now) }
{
    let mut keys = Vec::with_capacity(alloc, entries.len())?;
    for entry in entries {
        keys.push(entry.0.copied()?)?;
    }
    Ok(ListOf::from_vec(keys))
}

/// A list of one key.
fn one_key(alloc: Global, key: &Key) -> Result<KeyList, AllocError>
    ensures { IfOk result (λ keys. keys ≡ key.now ∷ []) }
{
    let mut keys = Vec::new(alloc);
    keys.push(key.copied()?)?;
    Ok(ListOf::from_vec(keys))
}

#[tactic(auto, using(crate::proofs::WriteSteps::changing))]
/// Puts a copy of a row under its key.
pub fn put_copy(
    store: &mut TableLog,
    table: TableId,
    entry: &(Key, RowValues),
) -> Result<(), AllocError>
    requires { is_some (rows_in store.old.seen.tables table) ≡ true }
    ensures tables { OnOk result
        (store.new.seen.tables ≡ with_entry store.old.seen.tables table entry.now) }
    ensures scopes { store.new.seen.scopes ≡ store.old.seen.scopes }
    ensures noted { Notes (λ _. 1) result store.old store.new }
{
    store.put(table, entry.0.copied()?, entry.1.copied()?)
}

/// Puts a new row in behind those of the statement that are in.
fn put_entry(
    store: &mut TableLog,
    table: TableId,
    done: &mut Vec<(Key, RowValues)>,
    entry: (Key, RowValues),
) -> Result<(), AllocError>
    requires { is_some (rows_in store.old.seen.tables table) ≡ true }
    ensures tables { OnOk result
        (store.new.seen.tables ≡ with_entry store.old.seen.tables table entry) }
    ensures done { OnOk result (done.new.items ≡ done.old.items ++ entry ∷ []) }
    ensures scopes { store.new.seen.scopes ≡ store.old.seen.scopes }
    ensures noted { Notes (λ _. 1) result store.old store.new }
{
    put_copy(store, table, &entry)?;
    done.push(entry)?;
    Ok(())
}

#[tactic(auto, using(crate::proofs::WriteSteps::put_steps))]
/// Puts new rows in behind those of the statement that are in, and judges them all once the last is in.
fn put_from(
    alloc: Global,
    schema: &Schema,
    store: &mut TableLog,
    table: TableId,
    done: &mut Vec<(Key, RowValues)>,
    new: &[RowValues],
) -> Result<KeyList, Unwritten>
    requires declared { IsTable schema.now table }
    requires created { is_some (rows_in store.old.seen.tables table) ≡ true }
    ensures wrote { Wrote (put_from schema.now store.old.seen.tables table done.old.items new.now)
        store.old.seen result store.new.seen }
    ensures noted { Notes (λ _. length new.now) result store.old store.new }
{
    let Some((row, more)) = new.split_first() else {
        stand(alloc, schema, store, table, done.as_slice())?;
        return Ok(keys_of_entries(alloc, done.as_slice())?);
    };
    let entry = new_entry(alloc, schema, store, table, row)?;
    put_entry(store, table, done, entry)?;
    put_from(alloc, schema, store, table, done, more)
}

#[tactic(auto, using(schema_core::proofs::ApplySteps::demanded))]
/// Whether a new row has a NULL in a column that takes none; a key that is generated may be left open.
fn some_lacks_demanded(schema: &Schema, table: TableId, new: &[RowValues]) -> bool
    requires { IsTable schema.now table }
    ensures { result ≡ list_any
        (lacks_value (is_demanded (spec_of schema.now table))
        (spec_of schema.now table).columns) new.now }
{
    let generated = schema.generated(table);
    let columns = schema.spec(table).columns.as_slice();
    new.iter()
        .any(|row| lacks_given(columns, row.as_slice(), generated))
}

#[tactic(auto, using(crate::proofs::WriteSteps::insert_steps))]
/// Puts in new rows.
pub fn insert_rows(
    alloc: Global,
    schema: &Schema,
    store: &mut TableLog,
    table: TableId,
    new: &[RowValues],
) -> Result<KeyList, Unwritten>
    requires declared { IsTable schema.now table }
    requires created { is_some (rows_in store.old.seen.tables table) ≡ true }
    requires some { 0 < length new.now }
    ensures wrote { Wrote (insert_rows schema.now store.old.seen.tables table
        (rows_at store.old.seen.tables table) new.now) store.old.seen result store.new.seen }
    ensures noted { Notes (λ _. length new.now) result store.old store.new }
{
    if some_lacks_demanded(schema, table, new) {
        return Err(Unwritten::Violates(Violation::NotNull));
    }
    let mut done = Vec::with_capacity(alloc, new.len())?;
    put_from(alloc, schema, store, table, &mut done, new)
}

#[tactic(auto, using(crate::proofs::WriteSteps::update_steps))]
/// Writes cells of the row of a key.
fn update_row(
    alloc: Global,
    schema: &Schema,
    store: &mut TableLog,
    table: TableId,
    key: &Key,
    cells: &ListOf<(ColumnNo, Value)>,
) -> Result<KeyList, Unwritten>
    requires declared { IsTable schema.now table }
    requires created { is_some (rows_in store.old.seen.tables table) ≡ true }
    ensures wrote { Wrote (update_row schema.now store.old.seen.tables table
        (rows_at store.old.seen.tables table) key.now cells.now) store.old.seen result store.new.seen }
    ensures noted { Notes (λ _. 1) result store.old store.new }
{
    let keys = one_key(alloc, key)?;
    let Some(row) = row_under(store, table, key)? else {
        return Err(Unwritten::Violates(Violation::Missing));
    };
    let row = with_cells(row, cells.as_slice())?;
    if lacks_value(schema.spec(table).columns.as_slice(), row.as_slice()) {
        return Err(Unwritten::Violates(Violation::NotNull));
    }
    store.put(table, key.copied()?, row.copied()?)?;
    stand(alloc, schema, store, table, &[(key.copied()?, row)])?;
    Ok(keys)
}

#[tactic(auto, using(crate::proofs::WriteSteps::delete_steps))]
/// Takes out the row of a key, which may be absent.
fn delete_row(
    alloc: Global,
    schema: &Schema,
    store: &mut TableLog,
    table: TableId,
    key: &Key,
) -> Result<KeyList, Unwritten>
    requires created { is_some (rows_in store.old.seen.tables table) ≡ true }
    ensures wrote { Wrote (delete_row schema.now store.old.seen.tables table
        (rows_at store.old.seen.tables table) key.now) store.old.seen result store.new.seen }
    ensures noted { Notes (λ _. rows_there
        (row_under (rows_at store.old.seen.tables table) key.now)) result store.old store.new }
{
    let keys = one_key(alloc, key)?;
    let Some(_row) = row_under(store, table, key)? else {
        return Ok(keys);
    };
    store.take(table, key)?;
    if some_lost(alloc, schema, &Before::Row(table, key), store)? {
        return Err(Unwritten::Violates(Violation::Foreign));
    }
    Ok(keys)
}

#[tactic(auto, using(crate::proofs::WriteSteps::apply_steps))]
/// Does a statement on rows in the innermost scope. A refused one may leave any tables.
fn apply_inside(
    alloc: Global,
    schema: &Schema,
    store: &mut TableLog,
    statement: &RowStmt,
) -> Result<KeyList, Unwritten>
    requires { IsWellFormed schema.now statement.now }
    ensures wrote { Wrote (apply schema.now store.old.seen.tables statement.now) store.old.seen result store.new.seen }
    ensures noted { Notes (λ _. rows_changed store.old.seen.tables statement.now)
        result store.old store.new }
{
    let table = statement.table();
    if !store.has(table) {
        return Err(Unwritten::Violates(Violation::NoTable(table)));
    }
    match statement {
        RowStmt::Insert { rows, .. } => insert_rows(alloc, schema, store, table, rows.as_slice()),
        RowStmt::Update { key, cells, .. } => update_row(alloc, schema, store, table, key, cells),
        RowStmt::Delete { key, .. } => delete_row(alloc, schema, store, table, key),
    }
}

#[tactic(auto, using(crate::proofs::WriteSteps::settled_steps))]
/// Does a statement on rows in a scope of its own. Where it is refused, or finds no memory, everything is as it was.
fn apply_in_scope(
    alloc: Global,
    schema: &Schema,
    store: &mut TableLog,
    statement: &RowStmt,
) -> Result<KeyList, Unwritten>
    requires { IsWellFormed schema.now statement.now }
    ensures { DidOrLeft (apply schema.now store.old.seen.tables statement.now)
        (rows_changed store.old.seen.tables statement.now) store.old result store.new }
{
    store.start()?;
    let answer = apply_inside(alloc, schema, store, statement);
    store.close(answer)
}

/// Makes the indexes by which what a statement does is judged, where there are none yet. No table changes.
fn index_for(
    alloc: Global,
    schema: &Schema,
    store: &mut TableLog,
    statement: &RowStmt,
) -> Result<(), AllocError>
    ensures { store.new ≡ store.old }
{
    match statement {
        RowStmt::Delete { table, .. } => index_foreigns(alloc, schema, store, *table),
        _ => make_indexes(alloc, schema, store, statement.table()),
    }
}

/// Does a statement on rows. Where it is refused, or finds no memory, everything is as it was.
pub fn apply(
    alloc: Global,
    schema: &Schema,
    store: &mut TableLog,
    statement: &RowStmt,
) -> Result<KeyList, Unwritten>
    requires { IsWellFormed schema.now statement.now }
    ensures { DidOrLeft (apply schema.now store.old.seen.tables statement.now)
        (rows_changed store.old.seen.tables statement.now) store.old result store.new }
{
    index_for(alloc, schema, store, statement)?;
    apply_in_scope(alloc, schema, store, statement)
}
