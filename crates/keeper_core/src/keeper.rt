//! The trait of keepers of tables.

ghost use Rattle.std.specs.Prelude.{◌≡◌, ◌+◌, ◌-◌, ◌<◌, ◌≤◌, ℕ, Option, None, true, IfErr, IfOk, IfSome};
ghost use Rattle.schema_core.specs.Apply.{table_of};
ghost use Rattle.schema_core.specs.Catalog.{IsTable};
ghost use Rattle.schema_core.specs.Tables.{Tables};
ghost use Rattle.schema_core.specs.WellFormed.{AreKeysFor, IsWellFormed};
ghost use Rattle.sql_semantics.specs.Applied as bulk;
ghost use Rattle.sql_semantics.specs.Plain.{IsPlainBulk, IsPlainSelect};
ghost use Rattle.sql_semantics.specs.Shapes.{AreGiven, AreOfItems, AreWide};
ghost use Rattle.keeper_core.specs.Moment.{Moment};
ghost use Rattle.keeper_core.specs.Programs.{as_refusal};
ghost use Rattle.keeper_core.specs.Store.{Store};
ghost use Rattle.keeper_core.specs.Calls.{query_refusal, refusal_by, stop_refusal, write_refusal};
ghost use Rattle.keeper_core.specs.Keeping as keeping;
ghost use Rattle.keeper_core.specs.Keeping.{AreRowsOf, HoldsLegalRows, HoldsRows, IsAttached, IsCoherent, IsToldFrom};

use crate::target::Target;
use base_core::{ArithOp, KeyList, RowList, TableId};
use expr_types::{Bulk, Select};
use schema_core::{RowStmt, Schema, Violation};
use std::alloc::Global;

/// Why a keeper did nothing: it failed, or memory ran out. Either leaves the tables that were committed last, and no scope.
#[derive(Clone, Copy, PartialEq, Eq)]
pub enum KeeperStop {
    Fault,
    Memory,
}

/// Why a statement that writes is refused. All but `Fault` and `Memory` leave the tables and scopes as they were.
#[derive(Clone, Copy, PartialEq, Eq)]
pub enum WriteRefusal {
    /// The first table of the statement's text that was not created, names of columns aside.
    NoTable(TableId),
    /// An UPDATE of an absent key.
    Missing,
    NotNull,
    /// A key is to be generated above the greatest integer.
    KeysSpent,
    PrimaryKey,
    Unique,
    Foreign,
    /// An expression left 64 bits.
    Range(ArithOp, i64, i64),
    Fault,
    Memory,
}

impl From<Violation> for WriteRefusal {
    ghost from_gives = { λ violation refusal. refusal ≡ refusal_by violation };

    fn from(violation: Violation) -> WriteRefusal {
        match violation {
            Violation::NoTable(table) => WriteRefusal::NoTable(table),
            Violation::Missing => WriteRefusal::Missing,
            Violation::NotNull => WriteRefusal::NotNull,
            Violation::KeysSpent => WriteRefusal::KeysSpent,
            Violation::PrimaryKey => WriteRefusal::PrimaryKey,
            Violation::Unique => WriteRefusal::Unique,
            Violation::Foreign => WriteRefusal::Foreign,
        }
    }
}

/// Why a select is refused. All but `Fault` and `Memory` leave the tables and scopes as they were.
#[derive(Clone, Copy, PartialEq, Eq)]
pub enum QueryRefusal {
    NoTable(TableId),
    Range(ArithOp, i64, i64),
    Fault,
    Memory,
}

/// A keeper of tables. A scope is the transaction or a savepoint in it.
///
/// Each call ensures that it ran its program of the store, as far as the keeper tells it. Whatever a keeper tells,
/// it counts its faults exactly and its refusals, and it keeps its depth, its last refusal with the statement, the
/// target that it was given, and from then on whether it tells. What it tells then begins with the tables in its target.
pub trait Keeper {
    ghost use Rattle.keeper_core.specs.declared.target.Target.{Target};

    /// What is seen of it.
    ghost moment: { Self → Moment Store };

    /// The tables in a target, where it will tell what it has once it took that one.
    ghost opening: { Self → Target → Option Tables };

    /// Takes the target, once. Memory starts with no tables, a file with the tables in it; no statement was sent and no scope is open.
    fn attach(&mut self, alloc: Global, target: Target) -> Result<(), KeeperStop>
        requires { (moment self.old).target ≡ None }
        ensures call { IsAttached (moment self.old) target
            (as_refusal stop_refusal result) (moment self.new) }
        ensures opened { IfOk result
            (λ u. IsToldFrom (opening self.old target) (moment self.new).told) };

    /// Makes a table, and commits; true where it was not there.
    fn create(&mut self, alloc: Global, schema: &Schema, table: TableId) -> Result<bool, KeeperStop>
        requires attached { (moment self.old).attached ≡ true }
        requires outside { (moment self.old).depth ≡ 0 }
        requires declared { IsTable schema.now table }
        ensures { keeping.IsCreate moment table self.old
            (as_refusal stop_refusal result) self.new };

    /// Drops a table, and commits; true where it was there.
    fn drop_table(
        &mut self,
        alloc: Global,
        schema: &Schema,
        table: TableId,
    ) -> Result<bool, KeeperStop>
        requires attached { (moment self.old).attached ≡ true }
        requires outside { (moment self.old).depth ≡ 0 }
        requires declared { IsTable schema.now table }
        ensures { keeping.IsDrop moment table self.old (as_refusal stop_refusal result) self.new };

    /// Starts the transaction.
    fn begin(&mut self, alloc: Global) -> Result<(), KeeperStop>
        requires attached { (moment self.old).attached ≡ true }
        requires outside { (moment self.old).depth ≡ 0 }
        ensures { keeping.IsBegin moment self.old (as_refusal stop_refusal result) self.new };

    /// Starts a savepoint.
    fn savepoint(&mut self, alloc: Global) -> Result<(), KeeperStop>
        requires attached { (moment self.old).attached ≡ true }
        requires inside { 1 ≤ (moment self.old).depth }
        ensures { keeping.IsSavepoint moment self.old (as_refusal stop_refusal result) self.new };

    /// Ends the innermost savepoint, and keeps its rows.
    fn release(&mut self) -> Result<(), KeeperStop>
        requires attached { (moment self.old).attached ≡ true }
        requires inside { 2 ≤ (moment self.old).depth }
        ensures { keeping.IsRelease moment self.old (as_refusal stop_refusal result) self.new };

    /// Gives back the tables at the start of the savepoint of this number, from 1, and ends it and all inside it.
    fn rollback_to(&mut self, depth: u32) -> Result<(), KeeperStop>
        requires attached { (moment self.old).attached ≡ true }
        requires numbered { 1 ≤ depth }
        requires inside { depth < (moment self.old).depth }
        ensures { keeping.IsRollbackTo moment depth self.old
            (as_refusal stop_refusal result) self.new };

    /// Ends all scopes with the tables at the transaction's start.
    fn rollback(&mut self) -> Result<(), KeeperStop>
        requires attached { (moment self.old).attached ≡ true }
        requires inside { 1 ≤ (moment self.old).depth }
        ensures { keeping.IsRollback moment self.old (as_refusal stop_refusal result) self.new };

    /// Ends all scopes with the tables now.
    fn commit(&mut self) -> Result<(), KeeperStop>
        requires attached { (moment self.old).attached ≡ true }
        requires inside { 1 ≤ (moment self.old).depth }
        ensures { keeping.IsCommit moment self.old (as_refusal stop_refusal result) self.new };

    /// Does a statement on rows, judged on the tables that it leaves, and answers their keys: those of the rows of an INSERT, in
    /// order, or the statement's.
    fn write(
        &mut self,
        alloc: Global,
        schema: &Schema,
        statement: &RowStmt,
    ) -> Result<KeyList, WriteRefusal>
        requires attached { (moment self.old).attached ≡ true }
        requires inside { 1 ≤ (moment self.old).depth }
        requires fits { IsWellFormed schema.now statement.now }
        ensures call { keeping.IsWrite moment schema.now statement.now self.old
            (as_refusal (write_refusal (table_of statement.now)) result) self.new }
        ensures keys { IfOk result (λ keys. AreKeysFor schema.now statement.now keys) };

    /// Does a bulk statement, judged on the tables that it leaves, and answers the number of its rows.
    fn bulk(
        &mut self,
        alloc: Global,
        schema: &Schema,
        statement: &Bulk,
    ) -> Result<u64, WriteRefusal>
        requires attached { (moment self.old).attached ≡ true }
        requires inside { 1 ≤ (moment self.old).depth }
        requires plain { IsPlainBulk schema.now statement.now }
        ensures { keeping.IsBulk moment schema.now statement.now self.old
            (as_refusal (write_refusal (bulk.table_of statement.now)) result) self.new };

    /// The rows of a select, over the tables now. A select changes nothing, and a refused one is a statement too.
    fn query(
        &mut self,
        alloc: Global,
        schema: &Schema,
        select: &Select,
    ) -> Result<RowList, QueryRefusal>
        requires attached { (moment self.old).attached ≡ true }
        requires inside { 1 ≤ (moment self.old).depth }
        requires plain { IsPlainSelect schema.now select.now }
        ensures call { keeping.IsQuery moment schema.now select.now self.old
            (as_refusal query_refusal result) self.new }
        ensures wide { IfOk result (λ rows. AreWide select.now rows) }
        ensures kinds { HoldsRows schema.now (moment self.old).told
            → IfOk result (λ rows. AreOfItems schema.now select.now rows) }
        ensures given { HoldsLegalRows schema.now (moment self.old).told
            → IfOk result (λ rows. AreGiven schema.now select.now rows) };

    /// The rows of a table, ascending by key, or none where it was not created. This is no statement.
    fn scan(
        &mut self,
        alloc: Global,
        schema: &Schema,
        table: TableId,
    ) -> Result<Option<RowList>, KeeperStop>
        requires attached { (moment self.old).attached ≡ true }
        requires declared { IsTable schema.now table }
        ensures call { keeping.IsScan moment table self.old
            (as_refusal stop_refusal result) self.new }
        ensures kinds { HoldsRows schema.now (moment self.old).told
            → IfOk result (λ found. IfSome found (λ rows. AreRowsOf schema.now table rows)) };

    /// 0 without a scope, 1 in the transaction, one more for each savepoint.
    fn depth(&self) -> u32
        ensures { result ≡ (moment self.now).depth };

    /// What is told fits the depth and the tables that were committed.
    ghost coherent: { (keeper : Self) → IsCoherent (moment keeper) };
}
