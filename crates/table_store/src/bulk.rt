//! A bulk statement, done on tables with scopes.

ghost use Rattle.std.specs.Prelude.{◌≡◌, ◌<◌, [], ◌∷◌, true, is_some, length, IfOk, OnOk};
ghost use Rattle.schema_core.specs.Apply.{insert_rows};
ghost use Rattle.schema_core.specs.Catalog.{IsTable};
ghost use Rattle.schema_core.specs.Judged.{change_all, remove_all, some_lacks};
ghost use Rattle.schema_core.specs.Tables.{Rows, row_under, rows_in, without_row};
ghost use Rattle.sql_semantics.specs.Applied as spec;
ghost use Rattle.sql_semantics.specs.Checked.{Gives};
ghost use Rattle.sql_semantics.specs.Plain.{IsPlainBulk};
ghost use Rattle.table_log.specs.Marks.{Notes, rows_there};
ghost use Rattle.table_rows.specs.Walks.{entries_left};
ghost use Rattle.table_rows.specs.Rows.{AreSorted, rows_at, rows_present};
ghost use Rattle.row_statements.specs.Held.{put_all};
ghost use Rattle.table_store.specs.Taken.{AreKeysOf, IsDivided, Made, take_all, without_key};
ghost use Rattle.table_store.specs.Written.{Leaves, WroteBulk, keys_to_remove, rows_to_write};

use crate::refusals::{taking_refusal, unwritten_refusal};
use crate::wanted::index_bulk;
use base_core::{ColumnNo, Copied, Key, ListOf, Refusal, RowValues, TableId};
use expr_types::{Bulk, Expr};
use keeper_core::WriteRefusal;
use keeper_core::calls::table_of_bulk;
use row_judging::{Before, lacks_value};
use row_statements::{
    index_foreigns, insert_rows, make_indexes, put_copy, row_under, some_lost, stand,
};
use schema_core::{Schema, TableSpec, Unwritten, Violation};
use std::alloc::{AllocError, Global};
use table_log::TableLog;
use table_rows::{EntryWalk, LentTables, TableRows};

#[tactic(auto, using(crate::proofs::BulkSteps::putting))]
/// Writes rows, each under its key.
fn put_all(
    store: &mut TableLog,
    table: TableId,
    entries: &[(Key, RowValues)],
) -> Result<(), AllocError>
    requires { is_some (rows_in store.old.seen.tables table) ≡ true }
    ensures tables { OnOk result
        (store.new.seen.tables ≡ put_all store.old.seen.tables table entries.now) }
    ensures scopes { store.new.seen.scopes ≡ store.old.seen.scopes }
    ensures noted { Notes (λ _. length entries.now) result store.old store.new }
{
    for entry in entries {
        put_copy(store, table, entry)?;
    }
    Ok(())
}

#[tactic(auto, using(crate::proofs::BulkSteps::setting))]
/// Sets aside a copy of the row of a key that is to be taken out.
fn set_aside(
    aside: &mut TableRows,
    store: &TableLog,
    table: TableId,
    key: &Key,
) -> Result<(), AllocError>
    requires { is_some (rows_in store.now.seen.tables table) ≡ true }
    ensures { OnOk result ((rows : Rows)
        → IsDivided rows (rows_at store.now.seen.tables table) aside.old
        → IsDivided rows (without_row (rows_at store.now.seen.tables table) key.now)
        aside.new) }
{
    let Some(row) = row_under(store, table, key)? else {
        return Ok(());
    };
    aside.put(key.copied()?, row)?;
    Ok(())
}

#[tactic(auto, using(crate::proofs::BulkSteps::taking))]
/// Takes out the row of a key, and sets a copy of it aside.
fn take_aside(
    aside: &mut TableRows,
    store: &mut TableLog,
    table: TableId,
    key: &Key,
) -> Result<(), AllocError>
    requires { is_some (rows_in store.old.seen.tables table) ≡ true }
    ensures tables { OnOk result (store.new.seen.tables ≡ without_key store.old.seen.tables table key.now) }
    ensures aside { OnOk result ((rows : Rows)
        → IsDivided rows (rows_at store.old.seen.tables table) aside.old
        → IsDivided rows (rows_at store.new.seen.tables table) aside.new) }
    ensures scopes { store.new.seen.scopes ≡ store.old.seen.scopes }
    ensures noted { Notes (λ _. rows_there
        (row_under (rows_at store.old.seen.tables table) key.now)) result store.old store.new }
    ensures sorted { OnOk result (AreSorted store.old.seen.tables table) }
{
    set_aside(aside, store, table, key)?;
    store.take(table, key)
}

#[tactic(auto, using(crate::proofs::BulkSteps::taking_all))]
/// Takes out the rows of these keys, and gives copies of those that were there.
fn take_all(
    alloc: Global,
    store: &mut TableLog,
    table: TableId,
    keys: &[Key],
) -> Result<TableRows, AllocError>
    requires created { is_some (rows_in store.old.seen.tables table) ≡ true }
    requires there { AreKeysOf (rows_at store.old.seen.tables table) keys.now }
    ensures tables { OnOk result (store.new.seen.tables ≡ take_all store.old.seen.tables table keys.now) }
    ensures aside { IfOk result
        (IsDivided (rows_at store.old.seen.tables table) (rows_at store.new.seen.tables table)) }
    ensures scopes { store.new.seen.scopes ≡ store.old.seen.scopes }
    ensures noted { Notes (λ _. length keys.now) result store.old store.new }
{
    let mut aside = TableRows::new(alloc);
    for key in keys {
        take_aside(&mut aside, store, table, key)?;
    }
    Ok(aside)
}

/// Whether a written row has a NULL in a column that takes none.
fn some_lacks(spec: &TableSpec, entries: &[(Key, RowValues)]) -> bool
    ensures { result ≡ some_lacks spec.now entries.now }
{
    let columns = spec.columns.as_slice();
    entries
        .iter()
        .any(|entry| lacks_value(columns, entry.1.as_slice()))
}

#[tactic(auto, using(crate::proofs::BulkSteps::change_steps))]
/// Writes rows, unless one of these lacks a value, repeats a unique value or refers to no row.
fn change_all(
    alloc: Global,
    schema: &Schema,
    store: &mut TableLog,
    table: TableId,
    entries: &[(Key, RowValues)],
) -> Result<(), Unwritten>
    requires declared { IsTable schema.now table }
    requires created { is_some (rows_in store.old.seen.tables table) ≡ true }
    requires some { 0 < length entries.now }
    ensures made { Made (change_all schema.now store.old.seen.tables table
        (rows_at store.old.seen.tables table) entries.now) store.old.seen result store.new.seen }
    ensures noted { Notes (λ _. length entries.now) result store.old store.new }
{
    if some_lacks(schema.spec(table), entries) {
        return Err(Unwritten::Violates(Violation::NotNull));
    }
    put_all(store, table, entries)?;
    stand(alloc, schema, store, table, entries)
}

#[tactic(auto, using(crate::proofs::BulkSteps::remove_steps))]
/// Takes out the rows of these keys, unless a row that is left refers to one of them.
fn remove_all(
    alloc: Global,
    schema: &Schema,
    store: &mut TableLog,
    table: TableId,
    keys: &[Key],
) -> Result<(), Unwritten>
    requires created { is_some (rows_in store.old.seen.tables table) ≡ true }
    requires some { 0 < length keys.now }
    requires there { AreKeysOf (rows_at store.old.seen.tables table) keys.now }
    ensures made { Made (remove_all schema.now store.old.seen.tables table
        (rows_at store.old.seen.tables table) keys.now) store.old.seen result store.new.seen }
    ensures noted { Notes (λ _. length keys.now) result store.old store.new }
{
    let aside = take_all(alloc, store, table, keys)?;
    if some_lost(alloc, schema, &Before::Rows(table, &aside), store)? {
        return Err(Unwritten::Violates(Violation::Foreign));
    }
    Ok(())
}

#[tactic(auto, using(crate::proofs::BulkSteps::update_steps))]
/// Writes these rows; where there are none, nothing changes.
fn update_entries(
    alloc: Global,
    schema: &Schema,
    store: &mut TableLog,
    table: TableId,
    entries: &[(Key, RowValues)],
) -> Result<u64, WriteRefusal>
    requires declared { IsTable schema.now table }
    requires created { is_some (rows_in store.old.seen.tables table) ≡ true }
    ensures wrote { WroteBulk table
        (spec.update_entries schema.now store.old.seen.tables table
        (rows_at store.old.seen.tables table) entries.now) store.old.seen result store.new.seen }
    ensures noted { Notes (λ count. count) result store.old store.new }
{
    if entries.len() == 0 {
        return Ok(0);
    }
    match change_all(alloc, schema, store, table, entries) {
        Ok(()) => Ok(entries.len() as u64),
        Err(unwritten) => Err(unwritten_refusal(unwritten)),
    }
}

#[tactic(auto, using(crate::proofs::BulkSteps::delete_steps))]
/// Takes out the rows of these keys; where there are none, nothing changes.
fn delete_keys(
    alloc: Global,
    schema: &Schema,
    store: &mut TableLog,
    table: TableId,
    keys: &[Key],
) -> Result<u64, WriteRefusal>
    requires created { is_some (rows_in store.old.seen.tables table) ≡ true }
    requires there { AreKeysOf (rows_at store.old.seen.tables table) keys.now }
    ensures wrote { WroteBulk table
        (spec.delete_keys schema.now store.old.seen.tables table
        (rows_at store.old.seen.tables table) keys.now) store.old.seen result store.new.seen }
    ensures noted { Notes (λ count. count) result store.old store.new }
{
    if keys.len() == 0 {
        return Ok(0);
    }
    match remove_all(alloc, schema, store, table, keys) {
        Ok(()) => Ok(keys.len() as u64),
        Err(unwritten) => Err(unwritten_refusal(unwritten)),
    }
}

#[tactic(auto, using(crate::proofs::BulkSteps::row_steps))]
/// Puts in one row.
fn insert(
    alloc: Global,
    schema: &Schema,
    store: &mut TableLog,
    table: TableId,
    row: RowValues,
) -> Result<u64, WriteRefusal>
    requires declared { IsTable schema.now table }
    requires created { is_some (rows_in store.old.seen.tables table) ≡ true }
    ensures wrote { WroteBulk table
        (spec.of_row table (insert_rows schema.now store.old.seen.tables table
        (rows_at store.old.seen.tables table) (row ∷ []))) store.old.seen result store.new.seen }
    ensures noted { Notes (λ count. count) result store.old store.new }
{
    match insert_rows(alloc, schema, store, table, &[row]) {
        Ok(_keys) => Ok(1),
        Err(unwritten) => Err(unwritten_refusal(unwritten)),
    }
}

/// The rows of a table, each with its key.
fn entries_of(rows: &TableRows) -> EntryWalk<'_>
    ensures { entries_left result ≡ rows_present rows.now }
{
    EntryWalk::Held(rows.places().iter())
}

#[tactic(auto, using(table_rows::proofs::Laws::rows_there))]
/// The rows that an UPDATE writes, each under its key.
fn rows_to_write(
    alloc: Global,
    store: &TableLog,
    table: TableId,
    cells: &ListOf<(ColumnNo, Option<Expr>)>,
    filter: &Option<Expr>,
) -> Result<ListOf<(Key, RowValues)>, Refusal>
    requires { is_some (rows_in store.now.seen.tables table) ≡ true }
    ensures { Gives (λ x. x) result
        (rows_to_write store.now.seen.tables cells.now filter.now
        (rows_at store.now.seen.tables table)) }
{
    let Some(rows) = store.get(table) else {
        return Err(Refusal::Memory);
    };
    let seen = LentTables::Held(store.tables());
    bulk_rows::all_created(alloc, seen, cells.as_slice(), filter)?;
    bulk_rows::updated(alloc, seen, cells, filter, entries_of(rows))
}

#[tactic(auto, using(table_rows::proofs::Laws::rows_there))]
/// The keys of the rows that a DELETE takes out.
fn keys_to_remove(
    alloc: Global,
    store: &TableLog,
    table: TableId,
    filter: &Option<Expr>,
) -> Result<ListOf<Key>, Refusal>
    requires { is_some (rows_in store.now.seen.tables table) ≡ true }
    ensures { Gives (λ x. x) result
        (keys_to_remove store.now.seen.tables filter.now
        (rows_at store.now.seen.tables table)) }
{
    let Some(rows) = store.get(table) else {
        return Err(Refusal::Memory);
    };
    let seen = LentTables::Held(store.tables());
    bulk_rows::all_created(alloc, seen, &[], filter)?;
    bulk_rows::deleted(alloc, seen, filter, entries_of(rows))
}

#[tactic(auto, using(crate::proofs::BulkSteps::taking_steps))]
/// The cells that an UPDATE writes, at the rows for which its condition is true.
fn update(
    alloc: Global,
    schema: &Schema,
    store: &mut TableLog,
    table: TableId,
    cells: &ListOf<(ColumnNo, Option<Expr>)>,
    filter: &Option<Expr>,
) -> Result<u64, WriteRefusal>
    requires declared { IsTable schema.now table }
    requires created { is_some (rows_in store.old.seen.tables table) ≡ true }
    ensures wrote { WroteBulk table
        (spec.update schema.now store.old.seen.tables table cells.now filter.now
        (rows_at store.old.seen.tables table)) store.old.seen result store.new.seen }
    ensures noted { Notes (λ count. count) result store.old store.new }
{
    match rows_to_write(alloc, store, table, cells, filter) {
        Ok(entries) => update_entries(alloc, schema, store, table, entries.as_slice()),
        Err(refusal) => Err(taking_refusal(&refusal)),
    }
}

#[tactic(auto, using(crate::proofs::BulkSteps::taking_steps))]
/// Takes out the rows for which a condition is true.
fn delete(
    alloc: Global,
    schema: &Schema,
    store: &mut TableLog,
    table: TableId,
    filter: &Option<Expr>,
) -> Result<u64, WriteRefusal>
    requires created { is_some (rows_in store.old.seen.tables table) ≡ true }
    ensures wrote { WroteBulk table
        (spec.delete schema.now store.old.seen.tables table filter.now
        (rows_at store.old.seen.tables table)) store.old.seen result store.new.seen }
    ensures noted { Notes (λ count. count) result store.old store.new }
{
    match keys_to_remove(alloc, store, table, filter) {
        Ok(keys) => delete_keys(alloc, schema, store, table, keys.as_slice()),
        Err(refusal) => Err(taking_refusal(&refusal)),
    }
}

#[tactic(auto, using(crate::proofs::BulkSteps::applied_steps))]
/// Does a bulk statement in the innermost scope, and answers the number of its rows. A refused one may leave any tables.
fn apply_inside(
    alloc: Global,
    schema: &Schema,
    store: &mut TableLog,
    statement: &Bulk,
) -> Result<u64, WriteRefusal>
    requires { IsPlainBulk schema.now statement.now }
    ensures wrote { WroteBulk (spec.table_of statement.now)
        (spec.bulk_outcome schema.now store.old.seen.tables statement.now) store.old.seen result store.new.seen }
    ensures noted { Notes (λ count. count) result store.old store.new }
{
    let table = table_of_bulk(statement);
    if !store.has(table) {
        return Err(WriteRefusal::NoTable(table));
    }
    match statement {
        Bulk::Insert {
            columns,
            values,
            ..
        } => {
            let width = schema.spec(table).columns.len();
            let Ok(row) = bulk_rows::inserted(alloc, width, columns, values) else {
                return Err(WriteRefusal::Memory);
            };
            insert(alloc, schema, store, table, row)
        }
        Bulk::Update { cells, filter, .. } => update(alloc, schema, store, table, cells, filter),
        Bulk::Delete { filter, .. } => delete(alloc, schema, store, table, filter),
    }
}

#[tactic(auto, using(crate::proofs::BulkSteps::settled_steps))]
/// Does a bulk statement in a scope of its own, and answers the number of its rows. Where it is refused, or finds no memory,
/// everything is as it was.
fn apply_in_scope(
    alloc: Global,
    schema: &Schema,
    store: &mut TableLog,
    statement: &Bulk,
) -> Result<u64, WriteRefusal>
    requires { IsPlainBulk schema.now statement.now }
    ensures { Leaves (spec.table_of statement.now)
        (spec.bulk_outcome schema.now store.old.seen.tables statement.now) store.old result store.new }
{
    let Ok(()) = store.start() else {
        return Err(WriteRefusal::Memory);
    };
    let answer = apply_inside(alloc, schema, store, statement);
    store.close(answer)
}

/// Makes the indexes by which what a statement does is judged, where there are none yet. No table changes.
fn index_to_judge(
    alloc: Global,
    schema: &Schema,
    store: &mut TableLog,
    statement: &Bulk,
) -> Result<(), AllocError>
    ensures { store.new ≡ store.old }
{
    match statement {
        Bulk::Delete { table, .. } => index_foreigns(alloc, schema, store, *table),
        _ => make_indexes(alloc, schema, store, table_of_bulk(statement)),
    }
}

/// The same, and those by which its condition finds rows.
fn index_for(
    alloc: Global,
    schema: &Schema,
    store: &mut TableLog,
    statement: &Bulk,
) -> Result<(), AllocError>
    ensures { store.new ≡ store.old }
{
    index_to_judge(alloc, schema, store, statement)?;
    index_bulk(alloc, schema, store, statement)
}

/// Does a bulk statement, and answers the number of its rows. Where it is refused, or finds no memory, everything is as it was.
pub(crate) fn applied(
    alloc: Global,
    schema: &Schema,
    store: &mut TableLog,
    statement: &Bulk,
) -> Result<u64, WriteRefusal>
    requires { IsPlainBulk schema.now statement.now }
    ensures { Leaves (spec.table_of statement.now)
        (spec.bulk_outcome schema.now store.old.seen.tables statement.now) store.old result store.new }
{
    let Ok(()) = index_for(alloc, schema, store, statement) else {
        return Err(WriteRefusal::Memory);
    };
    apply_in_scope(alloc, schema, store, statement)
}
