//! One call of a keeper, and the letter that it answers; `?` where it may not be made. Each leaves the keeper attached.

ghost use Rattle.std.specs.Prelude.{◌≡◌, true, IsTrue};
ghost use Rattle.schema_core.specs.Catalog.{IsTable};
ghost use Rattle.sql_semantics.specs.Plain.{IsPlainBulk, IsPlainSelect};

use crate::letters::{answered, changed, counted, digit, done, scanned, written};
use crate::statements::{all_rows, bulk_statement, row_statement};
use base_core::TableId;
use expr_types::{Bulk, Select};
use keeper_core::Keeper;
use notations::{Page, number, parted};
use plain_statements::{is_plain_bulk, is_plain_select};
use schema_core::{RowStmt, Schema, is_well_formed};
use std::alloc::Global;
use std::mem::drop;

// ---- calls of a whole table

#[tactic(auto, using(crate::proofs::Attached::called_attached))]
fn create<K: Keeper>(alloc: Global, schema: &Schema, keeper: &mut K, table: TableId) -> char
    requires attached { (K.moment keeper.old).attached ≡ true }
    requires declared { IsTable schema.now table }
    ensures { (K.moment keeper.new).attached ≡ true }
{
    if keeper.depth() != 0 {
        return '?';
    }
    changed(keeper.create(alloc, schema, table))
}

#[tactic(auto, using(crate::proofs::Attached::called_attached))]
fn drop_table<K: Keeper>(alloc: Global, schema: &Schema, keeper: &mut K, table: TableId) -> char
    requires attached { (K.moment keeper.old).attached ≡ true }
    requires declared { IsTable schema.now table }
    ensures { (K.moment keeper.new).attached ≡ true }
{
    if keeper.depth() != 0 {
        return '?';
    }
    changed(keeper.drop_table(alloc, schema, table))
}

#[tactic(auto, using(crate::proofs::Attached::called_attached))]
fn count<K: Keeper>(alloc: Global, schema: &Schema, keeper: &mut K, table: TableId) -> char
    requires attached { (K.moment keeper.old).attached ≡ true }
    requires declared { IsTable schema.now table }
    ensures { (K.moment keeper.new).attached ≡ true }
{
    scanned(keeper.scan(alloc, schema, table))
}

/// What a call of a whole table answers.
fn table_call<K: Keeper>(
    alloc: Global,
    schema: &Schema,
    keeper: &mut K,
    word: &str,
    table: TableId,
) -> char
    requires { (K.moment keeper.old).attached ≡ true }
    ensures { (K.moment keeper.new).attached ≡ true }
{
    if schema.count() <= table.0 {
        return '?';
    }
    match word {
        "create" => create(alloc, schema, keeper, table),
        "drop" => drop_table(alloc, schema, keeper, table),
        _ => count(alloc, schema, keeper, table),
    }
}

// ---- calls that start or end a scope

#[tactic(auto, using(crate::proofs::Attached::called_attached))]
fn begin<K: Keeper>(alloc: Global, keeper: &mut K) -> char
    requires { (K.moment keeper.old).attached ≡ true }
    ensures { (K.moment keeper.new).attached ≡ true }
{
    if keeper.depth() != 0 {
        return '?';
    }
    done(keeper.begin(alloc))
}

#[tactic(auto, using(crate::proofs::Attached::called_attached))]
fn savepoint<K: Keeper>(alloc: Global, keeper: &mut K) -> char
    requires { (K.moment keeper.old).attached ≡ true }
    ensures { (K.moment keeper.new).attached ≡ true }
{
    if keeper.depth() < 1 {
        return '?';
    }
    done(keeper.savepoint(alloc))
}

#[tactic(auto, using(crate::proofs::Attached::called_attached))]
fn release<K: Keeper>(keeper: &mut K) -> char
    requires { (K.moment keeper.old).attached ≡ true }
    ensures { (K.moment keeper.new).attached ≡ true }
{
    if keeper.depth() < 2 {
        return '?';
    }
    done(keeper.release())
}

#[tactic(auto, using(crate::proofs::Attached::called_attached))]
fn rollback_to<K: Keeper>(keeper: &mut K, number: u32) -> char
    requires { (K.moment keeper.old).attached ≡ true }
    ensures { (K.moment keeper.new).attached ≡ true }
{
    if number < 1 || keeper.depth() <= number {
        return '?';
    }
    done(keeper.rollback_to(number))
}

#[tactic(auto, using(crate::proofs::Attached::called_attached))]
fn rollback<K: Keeper>(keeper: &mut K) -> char
    requires { (K.moment keeper.old).attached ≡ true }
    ensures { (K.moment keeper.new).attached ≡ true }
{
    if keeper.depth() < 1 {
        return '?';
    }
    done(keeper.rollback())
}

#[tactic(auto, using(crate::proofs::Attached::called_attached))]
fn commit<K: Keeper>(keeper: &mut K) -> char
    requires { (K.moment keeper.old).attached ≡ true }
    ensures { (K.moment keeper.new).attached ≡ true }
{
    if keeper.depth() < 1 {
        return '?';
    }
    done(keeper.commit())
}

/// What a call that starts or ends a scope answers, or one that asks for their number.
fn scope_call<K: Keeper>(alloc: Global, keeper: &mut K, word: &str, number: u32) -> char
    requires { (K.moment keeper.old).attached ≡ true }
    ensures { (K.moment keeper.new).attached ≡ true }
{
    match word {
        "begin" => begin(alloc, keeper),
        "savepoint" => savepoint(alloc, keeper),
        "release" => release(keeper),
        "rollback-to" => rollback_to(keeper, number),
        "rollback" => rollback(keeper),
        "commit" => commit(keeper),
        "depth" => digit(u64::from(keeper.depth())),
        _ => '?',
    }
}

// ---- statements

#[tactic(auto, using(crate::proofs::Attached::stated_attached))]
fn write<K: Keeper>(alloc: Global, schema: &Schema, keeper: &mut K, statement: &RowStmt) -> char
    requires { (K.moment keeper.old).attached ≡ true }
    ensures { (K.moment keeper.new).attached ≡ true }
{
    if keeper.depth() < 1 || !is_well_formed(schema, statement) {
        return '?';
    }
    written(keeper.write(alloc, schema, statement))
}

/// Whether a bulk statement may be sent, and there was memory to see it.
fn is_sendable(alloc: Global, schema: &Schema, statement: &Bulk) -> bool
    ensures { IsTrue result → IsPlainBulk schema.now statement.now }
{
    match is_plain_bulk(alloc, schema, statement) {
        Ok(plain) => plain,
        Err(refusal) => {
            drop(refusal);
            false
        }
    }
}

#[tactic(auto, using(crate::proofs::Attached::stated_attached))]
fn send_bulk<K: Keeper>(alloc: Global, schema: &Schema, keeper: &mut K, statement: &Bulk) -> char
    requires { (K.moment keeper.old).attached ≡ true }
    ensures { (K.moment keeper.new).attached ≡ true }
{
    if keeper.depth() < 1 || !is_sendable(alloc, schema, statement) {
        return '?';
    }
    counted(keeper.bulk(alloc, schema, statement))
}

/// Whether a select may be asked, and there was memory to see it.
fn is_askable(alloc: Global, schema: &Schema, select: &Select) -> bool
    ensures { IsTrue result → IsPlainSelect schema.now select.now }
{
    match is_plain_select(alloc, schema, select) {
        Ok(plain) => plain,
        Err(refusal) => {
            drop(refusal);
            false
        }
    }
}

#[tactic(auto, using(crate::proofs::Attached::stated_attached))]
fn ask<K: Keeper>(alloc: Global, schema: &Schema, keeper: &mut K, select: &Select) -> char
    requires { (K.moment keeper.old).attached ≡ true }
    ensures { (K.moment keeper.new).attached ≡ true }
{
    if keeper.depth() < 1 || !is_askable(alloc, schema, select) {
        return '?';
    }
    answered(keeper.query(alloc, schema, select))
}

/// Whether a call has a statement on rows.
fn is_of_rows(word: &str) -> bool {
    matches!(word, "insert" | "fill" | "update" | "delete")
}

/// What the statement of a call answers.
fn statement_call<K: Keeper>(
    schema: &Schema,
    keeper: &mut K,
    word: &str,
    table: TableId,
    words: &str,
    page: &mut Page,
) -> char
    requires { (K.moment keeper.old).attached ≡ true }
    ensures { (K.moment keeper.new).attached ≡ true }
{
    let alloc = page.alloc();
    if is_of_rows(word) {
        let statement = row_statement(page, word, table, words);
        return write(alloc, schema, keeper, &statement);
    }
    if word == "select" {
        return ask(alloc, schema, keeper, &all_rows(alloc, table));
    }
    let statement = bulk_statement(page, word, table, words);
    send_bulk(alloc, schema, keeper, &statement)
}

/// What a call answers. The page is where memory is taken, and where it is noted that there was none.
pub(crate) fn said<K: Keeper>(schema: &Schema, keeper: &mut K, line: &str, page: &mut Page) -> char
    requires { (K.moment keeper.old).attached ≡ true }
    ensures { (K.moment keeper.new).attached ≡ true }
{
    let (word, rest) = parted(line, ' ');
    if rest.is_empty() || word == "rollback-to" {
        return scope_call(page.alloc(), keeper, word, number(rest));
    }
    let (table, words) = parted(rest, ' ');
    let table = TableId(number(table));
    match word {
        "create" | "drop" | "count" => table_call(page.alloc(), schema, keeper, word, table),
        _ => statement_call(schema, keeper, word, table, words, page),
    }
}
