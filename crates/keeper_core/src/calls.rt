//! A keeper's calls with the refusals of the layers above.

ghost use Rattle.std.specs.Prelude.{◌≡◌, ◌<◌, ◌≤◌, IfOk, IfSome, true};
ghost use Rattle.schema_core.specs.Catalog.{IsTable};
ghost use Rattle.schema_core.specs.WellFormed.{AreKeysFor, IsWellFormed};
ghost use Rattle.sql_semantics.specs.Applied as bulk_rows;
ghost use Rattle.sql_semantics.specs.Plain.{IsPlainBulk, IsPlainSelect};
ghost use Rattle.sql_semantics.specs.Shapes.{AreGiven, AreOfItems, AreWide};
ghost use Rattle.keeper_core.specs.Programs as programs;
ghost use Rattle.keeper_core.specs.Calls as call;
ghost use Rattle.keeper_core.specs.Keeping as keeping;
ghost use Rattle.keeper_core.specs.Keeping.{AreRowsOf, HoldsLegalRows, HoldsRows};

use crate::{Keeper, KeeperStop, QueryRefusal, WriteRefusal};
use base_core::{IntegrityKind, KeyList, Refusal, RowList, TableId};
use expr_types::{Bulk, Select};
use schema_core::{RowStmt, Schema};
use std::alloc::Global;

impl From<KeeperStop> for Refusal {
    ghost from_gives = { λ stop e. e ≡ call.stop_refusal stop };

    fn from(stop: KeeperStop) -> Refusal {
        match stop {
            KeeperStop::Fault => Refusal::KeeperFault,
            KeeperStop::Memory => Refusal::Memory,
        }
    }
}

/// Makes a table, and commits; true where it was not there.
pub fn create<K: Keeper>(
    alloc: Global,
    keeper: &mut K,
    schema: &Schema,
    table: TableId,
) -> Result<bool, Refusal>
    requires attached { (K.moment keeper.old).attached ≡ true }
    requires outside { (K.moment keeper.old).depth ≡ 0 }
    requires declared { IsTable schema.now table }
    ensures { keeping.IsCreate K.moment table keeper.old result keeper.new }
{
    Ok(keeper.create(alloc, schema, table)?)
}

/// Starts the transaction.
pub fn begin<K: Keeper>(alloc: Global, keeper: &mut K) -> Result<(), Refusal>
    requires attached { (K.moment keeper.old).attached ≡ true }
    requires outside { (K.moment keeper.old).depth ≡ 0 }
    ensures { keeping.IsBegin K.moment keeper.old result keeper.new }
{
    Ok(keeper.begin(alloc)?)
}

/// Ends all scopes with the tables at the transaction's start.
pub fn rollback<K: Keeper>(keeper: &mut K) -> Result<(), Refusal>
    requires attached { (K.moment keeper.old).attached ≡ true }
    requires inside { 1 ≤ (K.moment keeper.old).depth }
    ensures { keeping.IsRollback K.moment keeper.old result keeper.new }
{
    Ok(keeper.rollback()?)
}

/// Ends all scopes with the tables now.
pub fn commit<K: Keeper>(keeper: &mut K) -> Result<(), Refusal>
    requires attached { (K.moment keeper.old).attached ≡ true }
    requires inside { 1 ≤ (K.moment keeper.old).depth }
    ensures { keeping.IsCommit K.moment keeper.old result keeper.new }
{
    Ok(keeper.commit()?)
}

/// Does a statement on rows, and answers their keys.
pub fn write<K: Keeper>(
    alloc: Global,
    keeper: &mut K,
    schema: &Schema,
    statement: &RowStmt,
) -> Result<KeyList, Refusal>
    requires attached { (K.moment keeper.old).attached ≡ true }
    requires inside { 1 ≤ (K.moment keeper.old).depth }
    requires fits { IsWellFormed schema.now statement.now }
    ensures call { keeping.IsWrite K.moment schema.now statement.now keeper.old result keeper.new }
    ensures keys { IfOk result (λ keys. AreKeysFor schema.now statement.now keys) }
{
    match keeper.write(alloc, schema, statement) {
        Ok(keys) => Ok(keys),
        Err(refusal) => Err(refusal_of(statement.table(), refusal)),
    }
}

/// Does a bulk statement, and answers the number of its rows.
pub fn bulk<K: Keeper>(
    alloc: Global,
    keeper: &mut K,
    schema: &Schema,
    statement: &Bulk,
) -> Result<u64, Refusal>
    requires attached { (K.moment keeper.old).attached ≡ true }
    requires inside { 1 ≤ (K.moment keeper.old).depth }
    requires plain { IsPlainBulk schema.now statement.now }
    ensures { keeping.IsBulk K.moment schema.now statement.now keeper.old result keeper.new }
{
    match keeper.bulk(alloc, schema, statement) {
        Ok(count) => Ok(count),
        Err(refusal) => Err(refusal_of(table_of_bulk(statement), refusal)),
    }
}

/// The rows of a select.
pub fn query<K: Keeper>(
    alloc: Global,
    keeper: &mut K,
    schema: &Schema,
    select: &Select,
) -> Result<RowList, Refusal>
    requires attached { (K.moment keeper.old).attached ≡ true }
    requires inside { 1 ≤ (K.moment keeper.old).depth }
    requires plain { IsPlainSelect schema.now select.now }
    ensures call { keeping.IsQuery K.moment schema.now select.now keeper.old result keeper.new }
    ensures wide { IfOk result (λ rows. AreWide select.now rows) }
    ensures kinds { HoldsRows schema.now (K.moment keeper.old).told
        → IfOk result (λ rows. AreOfItems schema.now select.now rows) }
    ensures given { HoldsLegalRows schema.now (K.moment keeper.old).told
        → IfOk result (λ rows. AreGiven schema.now select.now rows) }
{
    match keeper.query(alloc, schema, select) {
        Ok(rows) => Ok(rows),
        Err(refusal) => Err(refusal_of_query(refusal)),
    }
}

/// The rows of a table, ascending by key, or none where it was not created.
pub fn scan<K: Keeper>(
    alloc: Global,
    keeper: &mut K,
    schema: &Schema,
    table: TableId,
) -> Result<Option<RowList>, Refusal>
    requires attached { (K.moment keeper.old).attached ≡ true }
    requires declared { IsTable schema.now table }
    ensures call { keeping.IsScan K.moment table keeper.old result keeper.new }
    ensures kinds { HoldsRows schema.now (K.moment keeper.old).told
        → IfOk result (λ found. IfSome found (λ rows. AreRowsOf schema.now table rows)) }
{
    Ok(keeper.scan(alloc, schema, table)?)
}

/// The table that a bulk statement writes.
pub fn table_of_bulk(statement: &Bulk) -> TableId
    ensures { result ≡ bulk_rows.table_of statement.now }
{
    match statement {
        Bulk::Insert { table, .. } => *table,
        Bulk::Update { table, .. } => *table,
        Bulk::Delete { table, .. } => *table,
    }
}

/// A statement's refusal in the words of the layers above.
pub fn refusal_of(table: TableId, refusal: WriteRefusal) -> Refusal
    ensures { result ≡ call.write_refusal table refusal }
{
    match refusal {
        WriteRefusal::NoTable(absent) => Refusal::OperationalError(absent),
        WriteRefusal::Missing => Refusal::StaleDataError(table),
        WriteRefusal::NotNull => Refusal::IntegrityError(IntegrityKind::NotNull, table),
        WriteRefusal::KeysSpent => Refusal::KeysSpent(table),
        WriteRefusal::PrimaryKey => Refusal::IntegrityError(IntegrityKind::PrimaryKey, table),
        WriteRefusal::Unique => Refusal::IntegrityError(IntegrityKind::Unique, table),
        WriteRefusal::Foreign => Refusal::IntegrityError(IntegrityKind::Foreign, table),
        WriteRefusal::Range(op, a, b) => Refusal::DataError(op, a, b),
        WriteRefusal::Fault => Refusal::KeeperFault,
        WriteRefusal::Memory => Refusal::Memory,
    }
}

/// A select's refusal in the words of the layers above.
pub fn refusal_of_query(refusal: QueryRefusal) -> Refusal
    ensures { result ≡ call.query_refusal refusal }
{
    match refusal {
        QueryRefusal::NoTable(absent) => Refusal::OperationalError(absent),
        QueryRefusal::Range(op, a, b) => Refusal::DataError(op, a, b),
        QueryRefusal::Fault => Refusal::KeeperFault,
        QueryRefusal::Memory => Refusal::Memory,
    }
}

/// Whether a refusal ends a run: memory that ran out and a failure of the store do, every other refusal is a command's answer.
pub fn ends_early(refusal: &Refusal) -> bool
    ensures { result ≡ programs.ends_early refusal.now }
{
    match refusal {
        Refusal::Memory | Refusal::KeeperFault => true,
        _ => false,
    }
}
