//! Statements on tables with scopes, in the words of a keeper.

ghost use Rattle.std.specs.Prelude.{◌≡◌, ◌<◌, length, map, IfOk, IfErr};
ghost use Rattle.std.specs.Option.{option_map};
ghost use Rattle.schema_core.specs.Apply.{table_of};
ghost use Rattle.schema_core.specs.Tables.{rows_in};
ghost use Rattle.schema_core.specs.WellFormed.{AreKeysFor, IsWellFormed};
ghost use Rattle.sql_semantics.specs.Applied as bulk;
ghost use Rattle.sql_semantics.specs.Plain.{IsPlainBulk, IsPlainSelect};
ghost use Rattle.sql_semantics.specs.Created.{bare};
ghost use Rattle.sql_semantics.specs.Shapes.{AreGiven, AreLegalRows, AreOfItems, AreRows, AreWide};
ghost use Rattle.keeper_core.specs.declared.sent.Sent.TheVariants as sent;
ghost use Rattle.keeper_core.specs.Programs.{as_refusal};
ghost use Rattle.keeper_core.specs.Calls as call;
ghost use Rattle.keeper_core.specs.Calls.{query_refusal, write_refusal};
ghost use Rattle.keeper_core.specs.Keeping.{RefusesBulk, RefusesRow, RefusesSelect};
ghost use Rattle.row_statements.specs.Held.{rows_changed};
ghost use Rattle.table_store.specs.Written.{Stores};

use crate::bulk::applied;
use crate::refusals::evaluation_refusal;
use base_core::{KeyList, RowList, TableId};
use expr_types::{Bulk, Select};
use keeper_core::{QueryRefusal, WriteRefusal};
use row_statements::apply;
use schema_core::{RowStmt, Schema, Unwritten};
use select_rows::rows_from;
use std::alloc::{AllocError, Global};
use table_log::TableLog;
use table_rows::LentTables;

#[tactic(auto, using(crate::proofs::Stored::rows))]
/// Does a statement on rows, and answers their keys. A refused one changes nothing.
///
/// # Errors
/// The first rule that the statement violates, and `Memory`, which ends all scopes and leaves the tables at the start of
/// the outermost.
pub fn write(
    alloc: Global,
    schema: &Schema,
    store: &mut TableLog,
    statement: &RowStmt,
) -> Result<KeyList, WriteRefusal>
    requires fits { IsWellFormed schema.now statement.now }
    requires inside { 0 < length store.old.seen.scopes }
    ensures step { Stores (call.write schema.now statement.now) (sent.Write statement.now)
        (λ _. rows_changed store.old.seen.tables statement.now) store.old (as_refusal (write_refusal (table_of statement.now)) result) store.new }
    ensures keys { IfOk result (λ keys. AreKeysFor schema.now statement.now keys) }
    ensures refuses { IfErr
        (as_refusal (write_refusal (table_of statement.now)) result)
        (RefusesRow statement.now) }
{
    match apply(alloc, schema, store, statement) {
        Ok(keys) => Ok(keys),
        Err(Unwritten::Violates(violation)) => Err(WriteRefusal::from(violation)),
        Err(Unwritten::Memory) => {
            store.go_back();
            Err(WriteRefusal::Memory)
        }
    }
}

#[tactic(auto, using(crate::proofs::Stored::bulks))]
/// Does a bulk statement, and answers the number of its rows. A refused one changes nothing, nor does one that finds no
/// memory.
///
/// # Errors
/// The first that holds: `NoTable` with the first table of the statement's text that is not created, `Range` with the
/// first result outside 64 bits, `NotNull` where a NULL is written into a column that takes none, `KeysSpent`,
/// `PrimaryKey` for a key that is there, `Unique` for a unique value that stands twice, and `Foreign` for a foreign key
/// that names no row; `Memory`.
pub fn write_bulk(
    alloc: Global,
    schema: &Schema,
    store: &mut TableLog,
    statement: &Bulk,
) -> Result<u64, WriteRefusal>
    requires plain { IsPlainBulk schema.now statement.now }
    ensures step { Stores (call.bulk schema.now statement.now) (sent.Bulk statement.now)
        (λ count. count) store.old (as_refusal (write_refusal (bulk.table_of statement.now)) result) store.new }
    ensures refuses { IfErr
        (as_refusal (write_refusal (bulk.table_of statement.now)) result)
        (RefusesBulk schema.now statement.now) }
{
    applied(alloc, schema, store, statement)
}

/// The rows of a select over the tables.
///
/// # Errors
/// `NoTable` with the first table of the select's text that is not created, or `Range` with the first result outside 64
/// bits; `Memory`.
#[tactic(auto, using(crate::proofs::Stored::selects))]
pub fn query(
    alloc: Global,
    schema: &Schema,
    store: &TableLog,
    select: &Select,
) -> Result<RowList, QueryRefusal>
    requires plain { IsPlainSelect schema.now select.now }
    ensures step { Stores (call.query schema.now select.now) (sent.Query select.now) (λ _. 0)
        store.now (as_refusal query_refusal result) store.now }
    ensures wide { IfOk result (λ rows. AreWide select.now rows) }
    ensures kinds { AreRows schema.now (bare store.now.seen.tables)
        → IfOk result (λ rows. AreOfItems schema.now select.now rows) }
    ensures given { AreLegalRows schema.now (bare store.now.seen.tables)
        → IfOk result (λ rows. AreGiven schema.now select.now rows) }
    ensures refuses { IfErr
        (as_refusal query_refusal result) (RefusesSelect schema.now select.now) }
{
    let tables = LentTables::Held(store.tables());
    match rows_from(alloc, schema, tables, select) {
        Ok(rows) => Ok(rows),
        Err(refusal) => Err(evaluation_refusal(&refusal)),
    }
}

/// The rows of a table, ascending by key, or none where it is not created.
pub fn rows(alloc: Global, store: &TableLog, table: TableId) -> Result<Option<RowList>, AllocError>
    ensures { IfOk result (λ rows. rows
        ≡ option_map (λ rows. map (λ entry. entry.1) rows) (rows_in store.now.seen.tables table)) }
{
    let Some(rows) = store.get(table) else {
        return Ok(None);
    };
    Ok(Some(rows.list(alloc)?))
}
