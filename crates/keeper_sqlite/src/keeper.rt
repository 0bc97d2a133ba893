//! The keeper over SQLite.

ghost use Rattle.std.specs.Prelude.{◌≡◌, ◌^◌, ◌<◌, IfErr, IfOk};
ghost use Rattle.base_core.specs.Counts.{one_more};
ghost use Rattle.base_core.specs.declared.refusal.Refusal.TheVariants.{OperationalError};
ghost use Rattle.schema_core.specs.Apply.{table_of};
ghost use Rattle.schema_core.specs.WellFormed.{AreKeysFor, MayViolate};
ghost use Rattle.sql_semantics.specs.Applied as bulk;
ghost use Rattle.keeper_core.specs.declared.sent.Sent.TheVariants as sent;
ghost use Rattle.keeper_core.specs.Programs.{as_refusal};
ghost use Rattle.keeper_core.specs.Calls.{query_refusal, refusal_by, write_refusal};
ghost use Rattle.keeper_core.specs.Keeping.{RefusesBulk, RefusesRow, RefusesSelect};
ghost use Rattle.expr_typing.specs.ItemShapes.{AreAnswers};
ghost use Rattle.sqlite_statements.specs.Endings.{IfRefused, MayRefuseBulk, MayRefuseSelect};
ghost use Rattle.keeper_sqlite.specs.Counted.{Ends, Settles, Stops, new_keeper, refused_by, target_given};

use base_core::{KeyList, RowList, TableId};
use expr_types::{Bulk, Select};
use keeper_core::{KeeperStop, QueryRefusal, Target, WriteRefusal};
use schema_core::{RowStmt, Schema, Violation};
use sqlite_database::{Database, Ending};
use statement_log::StatementLog;
use std::alloc::{AllocError, Global};
use std::marker::Model;

/// A keeper of tables in a database of SQLite. It tells no tables: what a statement does is what SQLite does, and only what a
/// keeper counts is proved, with the shapes of its answers.
pub struct SqliteKeeper<D: Database> {
    pub(crate) rt: HostRuntime,
    pub(crate) alloc: Global,
    pub(crate) database: Option<D>,
    /// It holds the last refused statement alone.
    log: StatementLog,
    faults: u64,
    refusals: u64,
    depth: u32,
    target: Option<Target>,
    attached: bool,
}

impl<D: Database + Drop> Drop for SqliteKeeper<D> {
    fn drop(self) {
        let SqliteKeeper {
            rt: _,
            alloc: _,
            database: _,
            log: _,
            faults: _,
            refusals: _,
            depth: _,
            target: _,
            attached: _,
        } = self;
    }
}

impl<D: Database> Model for SqliteKeeper<D> {
    ghost use Rattle.keeper_sqlite.specs.Counted.{Counted};
    ghost use Rattle.expr_types.specs.contracts.expr.Expr as e;
    ghost use Rattle.std.specs.Coded.{codes};

    ghost Value = { Counted };

    ghost coded = { Prim.hlevel (codes, e.the_row.coded) };

    ghost view = { λ k. record { faults = k.faults; refusals = k.refusals; last = k.log.last; depth = k.depth; target = k.target; attached = k.attached } };
}

/// A call was ended by a failure of the store or by memory that ran out.
fn stop_of(ending: Ending) -> KeeperStop {
    match ending {
        Ending::Memory => KeeperStop::Memory,
        Ending::Fault | Ending::Refused(_) => KeeperStop::Fault,
    }
}

impl<D: Database + Drop> SqliteKeeper<D> {
    /// A keeper that was given no target.
    pub fn new(rt: HostRuntime, alloc: Global) -> SqliteKeeper<D>
        ensures { result ≡ new_keeper }
    {
        SqliteKeeper {
            rt,
            alloc,
            database: None,
            log: StatementLog::new(alloc),
            faults: 0,
            refusals: 0,
            depth: 0,
            target: None,
            attached: false,
        }
    }

    /// How many scopes are open.
    pub(crate) fn depth_now(&self) -> u32
        ensures { result ≡ self.now.depth }
    {
        self.depth
    }

    /// Ends a call early: the transaction is rolled back, and a fault is counted.
    pub(crate) fn stop(&mut self, stop: KeeperStop)
        ensures stops { Stops self.old stop self.new }
    {
        self.database.abandon();
        self.depth = 0;
        if stop == KeeperStop::Fault {
            self.faults = self.faults.saturating_add(1);
        }
    }

    /// Keeps a target, with whether it was taken.
    pub(crate) fn keep_target(&mut self, target: Target, taken: bool)
        ensures { self.new ≡ target_given self.old target taken }
    {
        self.depth = 0;
        self.target = Some(target);
        self.attached = taken;
    }

    /// Ends a call early.
    pub(crate) fn stop_by(&mut self, ending: Ending) -> KeeperStop
        ensures stops { Stops self.old result self.new }
    {
        let stop = stop_of(ending);
        self.stop(stop);
        stop
    }

    /// Ends a call that no table refuses, with so many scopes open.
    pub(crate) fn finish<T: Drop>(
        &mut self,
        answer: Result<T, Ending>,
        depth: u32,
    ) -> Result<T, KeeperStop>
        ensures ends { Ends self.old depth result self.new }
    {
        match answer {
            Ok(value) => {
                self.depth = depth;
                Ok(value)
            }
            Err(ending) => Err(self.stop_by(ending)),
        }
    }

    /// Counts a refusal whose statement was kept.
    fn count_refusal(&mut self)
        ensures small { self.old.refusals < 2 ^ 64 }
        ensures counted { self.new ≡ record self.old { refusals = one_more self.old.refusals } }
    {
        self.log.clear();
        self.refusals = self.refusals.saturating_add(1);
    }

    /// Keeps a refused statement on rows.
    fn refuse_write(
        &mut self,
        statement: &RowStmt,
        violation: Violation,
    ) -> Result<WriteRefusal, AllocError>
        ensures ok { IfOk result (λ refusal. (refusal ≡ refusal_by violation)
            × (self.old.refusals < 2 ^ 64) × (self.new ≡ refused_by self.old (sent.Write statement.now)
            (write_refusal (table_of statement.now) (refusal_by violation)))) }
        ensures err { IfErr result (λ _. self.new ≡ self.old) }
    {
        let refusal = WriteRefusal::from(violation);
        self.log.refuse_write(self.alloc, statement, refusal)?;
        self.count_refusal();
        Ok(refusal)
    }

    /// Keeps a refused bulk statement.
    fn refuse_bulk(
        &mut self,
        statement: &Bulk,
        violation: Violation,
    ) -> Result<WriteRefusal, AllocError>
        ensures ok { IfOk result (λ refusal. (refusal ≡ refusal_by violation)
            × (self.old.refusals < 2 ^ 64) × (self.new ≡ refused_by self.old (sent.Bulk statement.now)
            (write_refusal (bulk.table_of statement.now) (refusal_by violation)))) }
        ensures err { IfErr result (λ _. self.new ≡ self.old) }
    {
        let refusal = WriteRefusal::from(violation);
        self.log.refuse_bulk(self.alloc, statement, refusal)?;
        self.count_refusal();
        Ok(refusal)
    }

    /// Keeps a refused select.
    fn refuse_query(&mut self, select: &Select, table: TableId) -> Result<(), AllocError>
        ensures ok { IfOk result (λ _. (self.old.refusals < 2 ^ 64)
            × (self.new ≡ refused_by self.old (sent.Query select.now)
            (OperationalError table))) }
        ensures err { IfErr result (λ _. self.new ≡ self.old) }
    {
        self.log
            .refuse_query(self.alloc, select, QueryRefusal::NoTable(table))?;
        self.count_refusal();
        Ok(())
    }

    /// Ends a statement on rows.
    pub(crate) fn settle_write(
        &mut self,
        schema: &Schema,
        statement: &RowStmt,
        answer: Result<KeyList, Ending>,
    ) -> Result<KeyList, WriteRefusal>
        requires keys { IfOk answer (AreKeysFor schema.now statement.now) }
        requires refuses { IfErr answer (IfRefused (MayViolate statement.now)) }
        ensures settles { Settles (sent.Write statement.now) self.old
            (as_refusal (write_refusal (table_of statement.now)) result) self.new }
        ensures refuses { IfErr
            (as_refusal (write_refusal (table_of statement.now)) result)
            (RefusesRow statement.now) }
        ensures keys { IfOk result (AreKeysFor schema.now statement.now) }
    {
        match answer {
            Ok(keys) => Ok(keys),
            Err(Ending::Refused(violation)) => {
                let Ok(refusal) = self.refuse_write(statement, violation) else {
                    self.stop(KeeperStop::Memory);
                    return Err(WriteRefusal::Memory);
                };
                Err(refusal)
            }
            Err(Ending::Fault) => {
                self.stop(KeeperStop::Fault);
                Err(WriteRefusal::Fault)
            }
            Err(Ending::Memory) => {
                self.stop(KeeperStop::Memory);
                Err(WriteRefusal::Memory)
            }
        }
    }

    /// Ends a bulk statement.
    pub(crate) fn settle_bulk(
        &mut self,
        schema: &Schema,
        statement: &Bulk,
        answer: Result<u64, Ending>,
    ) -> Result<u64, WriteRefusal>
        requires refuses { IfErr answer (IfRefused (MayRefuseBulk schema.now statement.now)) }
        ensures settles { Settles (sent.Bulk statement.now) self.old
            (as_refusal (write_refusal (bulk.table_of statement.now)) result) self.new }
        ensures refuses { IfErr
            (as_refusal (write_refusal (bulk.table_of statement.now)) result)
            (RefusesBulk schema.now statement.now) }
    {
        match answer {
            Ok(count) => Ok(count),
            Err(Ending::Refused(violation)) => {
                let Ok(refusal) = self.refuse_bulk(statement, violation) else {
                    self.stop(KeeperStop::Memory);
                    return Err(WriteRefusal::Memory);
                };
                Err(refusal)
            }
            Err(Ending::Fault) => {
                self.stop(KeeperStop::Fault);
                Err(WriteRefusal::Fault)
            }
            Err(Ending::Memory) => {
                self.stop(KeeperStop::Memory);
                Err(WriteRefusal::Memory)
            }
        }
    }

    /// Ends a select.
    pub(crate) fn settle_query(
        &mut self,
        schema: &Schema,
        select: &Select,
        answer: Result<RowList, Ending>,
    ) -> Result<RowList, QueryRefusal>
        requires rows { IfOk answer (AreAnswers schema.now select.now) }
        requires refuses { IfErr answer (IfRefused (MayRefuseSelect schema.now select.now)) }
        ensures settles { Settles (sent.Query select.now) self.old
            (as_refusal query_refusal result) self.new }
        ensures refuses { IfErr
            (as_refusal query_refusal result) (RefusesSelect schema.now select.now) }
        ensures rows { IfOk result (AreAnswers schema.now select.now) }
    {
        match answer {
            Ok(rows) => Ok(rows),
            Err(Ending::Refused(Violation::NoTable(table))) => {
                let Ok(()) = self.refuse_query(select, table) else {
                    self.stop(KeeperStop::Memory);
                    return Err(QueryRefusal::Memory);
                };
                Err(QueryRefusal::NoTable(table))
            }
            Err(Ending::Memory) => {
                self.stop(KeeperStop::Memory);
                Err(QueryRefusal::Memory)
            }
            Err(_) => {
                self.stop(KeeperStop::Fault);
                Err(QueryRefusal::Fault)
            }
        }
    }
}
