//! The keeper in memory.

ghost use Rattle.std.specs.Prelude.{◌≡◌, ◌+◌, ◌-◌, ◌^◌, ◌<◌, true, false, length, IfErr, IfOk, OnOk};
ghost use Rattle.std.specs.Prelude.{map, drop, slice_index_or, [], ◌∷◌};
ghost use Rattle.std.specs.Option.{option_map};
ghost use Rattle.base_core.specs.declared.refusal.Refusal.TheVariants as refusals;
ghost use Rattle.schema_core.specs.Apply.{table_of};
ghost use Rattle.schema_core.specs.Tables.{is_created, rows_in};
ghost use Rattle.schema_core.specs.WellFormed.{AreKeysFor, IsWellFormed};
ghost use Rattle.sql_semantics.specs.Applied as bulk;
ghost use Rattle.sql_semantics.specs.Plain.{IsPlainBulk, IsPlainSelect};
ghost use Rattle.sql_semantics.specs.Created.{bare};
ghost use Rattle.sql_semantics.specs.Shapes.{AreGiven, AreLegalRows, AreOfItems, AreRows, AreWide};
ghost use Rattle.keeper_core.specs.declared.sent.Sent.TheVariants as sent;
ghost use Rattle.keeper_core.specs.Programs.{as_refusal};
ghost use Rattle.keeper_core.specs.Store.{committed_of, with_empty_table, without_table};
ghost use Rattle.keeper_core.specs.declared.keeper.KeeperStop.TheVariants as stops;
ghost use Rattle.keeper_core.specs.Calls as call;
ghost use Rattle.keeper_core.specs.Calls.{query_refusal, write_refusal};
ghost use Rattle.keeper_core.specs.Keeping.{RefusesBulk, RefusesRow, RefusesSelect};
ghost use Rattle.statement_log.specs.Logged.{start_of};
ghost use Rattle.table_log.specs.Marks.{log_cut, no_marks, place_added, place_dropped};
ghost use Rattle.table_log.specs.Undone.{AreMarks};
ghost use Rattle.row_statements.specs.Held.{rows_changed};
ghost use Rattle.table_store.specs.Written.{given_up};
ghost use Rattle.keeper_mem.specs.Kept.{Does, one_call_more, depth_by, call_ended, call_failed, is_failing, is_listed, new_keeper, sent_by, taken_by, untaken_by};

use base_core::{KeyList, RowList, TableId};
use expr_types::{Bulk, Select};
use keeper_core::{KeeperStop, QueryRefusal, Sent, Target, WriteRefusal};
use schema_core::{RowStmt, Schema};
use statement_log::StatementLog;
use std::alloc::{AllocError, Global};
use std::marker::Model;
use table_log::{LogEntry, TableLog};

/// Whether a keeper was given its target, and took it.
#[derive(Drop)]
pub enum Attachment {
    Fresh,
    Taken(Target),
    Untaken(Target),
}

/// A keeper of tables in memory, which tells everything. It numbers its calls other than `depth` from 1, and fails
/// those whose numbers it was given, and a target that is a file.
pub struct MemKeeper {
    store: TableLog,
    log: StatementLog,
    calls: u64,
    faults: u64,
    refusals: u64,
    attachment: Attachment,
    failing: Vec<u64>,
}

impl Drop for MemKeeper {
    fn drop(self) {
        let MemKeeper {
            store: _,
            log: _,
            calls: _,
            faults: _,
            refusals: _,
            attachment: _,
            failing: _,
        } = self;
    }
}

impl Model for MemKeeper {
    ghost use Rattle.std.specs.Prelude.{◌≡◌, length};
    ghost use Rattle.keeper_mem.specs.Kept.{Kept};
    ghost use Rattle.expr_types.specs.contracts.expr.Expr as e;
    ghost use Rattle.std.specs.Coded.{codes};

    ghost Value = { Kept };

    ghost coded = { Prim.hlevel (codes, e.the_row.coded) };

    ghost view = { λ k. record { store = k.store.seen; marks = k.store.marks; sent = k.log.sent; calls = k.calls; faults = k.faults; refusals = k.refusals; last = k.log.last; attachment = k.attachment; failing = k.failing.items } };

    ghost invariant = { λ k. k.log.scopes ≡ length k.store.seen.scopes };
}

impl MemKeeper {
    /// A keeper that was given no target, and fails the calls of these numbers. The only refusal is that memory ran out.
    pub fn new(alloc: Global, failing: &[u64]) -> Result<MemKeeper, AllocError>
        ensures { IfOk result (λ keeper. keeper ≡ new_keeper failing.now) }
    {
        let failing = Vec::from_slice(alloc, failing)?;
        Ok(MemKeeper {
            store: TableLog::new(alloc),
            log: StatementLog::new(alloc),
            calls: 0,
            faults: 0,
            refusals: 0,
            attachment: Attachment::Fresh,
            failing,
        })
    }

    /// Each statement that was sent, the oldest first: refused ones too, and none that a fault or a lack of memory ended.
    pub fn statements(&self) -> &[Sent]
        ensures { result.now ≡ self.now.sent }
    {
        self.log.statements()
    }

    /// What was replaced since the transaction started, the oldest first: a table, a key, and the row that stood there before, or
    /// none. Undone from its end back to a scope's place, it leads to the tables at the scope's start.
    pub fn log(&self) -> &[LogEntry]
        ensures log { result.now ≡ self.now.marks.log }
        ensures marks { AreMarks self.now.store self.now.marks }
    {
        self.store.log().0
    }

    /// The first place of each scope in the log, the transaction's first.
    pub fn log_places(&self) -> &[u64]
        ensures places { result.now ≡ self.now.marks.places }
        ensures marks { AreMarks self.now.store self.now.marks }
    {
        self.store.log().1
    }

    /// Counts a call, and ends it where its number is one of those that fail.
    pub(crate) fn count_call(&mut self) -> Result<(), KeeperStop>
        ensures small { (self.old.faults < 2 ^ 64) × (self.old.refusals < 2 ^ 64) }
        ensures ok { OnOk result (is_failing self.old ≡ false × (self.new ≡ one_call_more self.old)) }
        ensures err { IfErr result (λ e. (e ≡ stops.Fault) × (is_failing
            self.old ≡ true) × (self.new ≡ call_failed (one_call_more self.old))) }
    {
        self.calls = self.calls.saturating_add(1);
        if is_listed(self.calls, self.failing.as_slice()) {
            self.fail();
            return Err(KeeperStop::Fault);
        }
        Ok(())
    }

    /// Ends a call by a fault.
    pub(crate) fn fail(&mut self)
        ensures { self.new ≡ call_failed self.old }
    {
        self.faults = self.faults.saturating_add(1);
        go_back(&mut self.store, &mut self.log);
    }

    /// Ends a call since memory ran out.
    pub(crate) fn give_up(&mut self)
        ensures { self.new ≡ call_ended self.old }
    {
        go_back(&mut self.store, &mut self.log);
    }

    /// Takes a target, and begins anew.
    pub(crate) fn take_target(&mut self, alloc: Global, target: Target)
        ensures { self.new ≡ taken_by self.old target }
    {
        self.store = TableLog::new(alloc);
        self.log.clear();
        self.attachment = Attachment::Taken(target);
    }

    /// Keeps a target that it does not take.
    pub(crate) fn leave_target(&mut self, target: Target)
        ensures { self.new ≡ untaken_by self.old target }
    {
        self.attachment = Attachment::Untaken(target);
    }

    /// 0 without a target that was taken, else how many scopes there are.
    pub(crate) fn depth_now(&self) -> u32
        ensures { result ≡ depth_by self.now.attachment self.now }
    {
        match &self.attachment {
            Attachment::Taken(_) => self.log.scopes(),
            _ => 0,
        }
    }

    /// Whether a table is created.
    pub(crate) fn has_table(&self, table: TableId) -> bool
        ensures { result ≡ is_created self.now.store.tables table }
    {
        self.store.has(table)
    }

    /// The rows of a table, ascending by key, or none where it is not created.
    pub(crate) fn rows(&self, alloc: Global, table: TableId) -> Result<Option<RowList>, AllocError>
        ensures { IfOk result (λ rows. rows
            ≡ option_map (λ rows. map (λ entry. entry.1) rows)
            (rows_in self.now.store.tables table)) }
    {
        table_store::rows(alloc, &self.store, table)
    }

    #[tactic(auto, using(crate::proofs::Stored::start_undone))]
    /// Starts a scope, if there is memory for it and for a statement that ends it.
    pub(crate) fn start_scope(&mut self) -> Result<(), AllocError>
        ensures ok { OnOk result (self.new ≡ sent_by
            self.old (start_of (length self.old.store.scopes))
            (record {
              tables = self.old.store.tables;
              scopes = self.old.store.tables
                  ∷ self.old.store.scopes;
            }) (place_added self.old.marks)) }
        ensures err { IfErr result (λ _. self.new ≡ self.old) }
    {
        self.store.start()?;
        let Ok(()) = self.log.start() else {
            self.store.undo();
            return Err(AllocError);
        };
        Ok(())
    }

    /// Makes a table, if there is memory for it.
    pub(crate) fn create_table(&mut self, alloc: Global, table: TableId) -> Result<(), AllocError>
        requires outside { length self.old.store.scopes ≡ 0 }
        ensures ok { OnOk result (self.new ≡ sent_by
            self.old (sent.Create table)
            (record {
              tables = with_empty_table self.old.store.tables table;
              scopes = self.old.store.scopes;
            }) self.old.marks) }
        ensures err { IfErr result (λ _. self.new ≡ self.old) }
    {
        self.log.prepare()?;
        self.store.create(alloc, table)?;
        self.log.create(table);
        Ok(())
    }

    /// Drops a table, if there is memory for the statement.
    pub(crate) fn remove_table(&mut self, table: TableId) -> Result<(), AllocError>
        requires outside { length self.old.store.scopes ≡ 0 }
        ensures ok { OnOk result (self.new ≡ sent_by
            self.old (sent.Drop table)
            (record {
              tables = without_table self.old.store.tables table;
              scopes = self.old.store.scopes;
            }) self.old.marks) }
        ensures err { IfErr result (λ _. self.new ≡ self.old) }
    {
        self.log.prepare()?;
        self.store.drop_table(table);
        self.log.drop_table(table);
        Ok(())
    }

    /// Ends the innermost scope, and keeps its rows.
    pub(crate) fn end_scope(&mut self)
        requires { 0 < length self.old.store.scopes }
        ensures sent { self.new ≡ sent_by
            self.old (sent.Release (length self.old.store.scopes - 1))
            (record { tables = self.old.store.tables; scopes = drop 1 self.old.store.scopes })
            self.new.marks }
        ensures marks { 1 < length self.old.store.scopes
            → self.new.marks ≡ place_dropped self.old.marks }
    {
        self.store.end();
        self.log.end();
    }

    /// Goes back to the start of a savepoint, and ends it.
    pub(crate) fn undo_scope(&mut self, number: u32)
        requires { number < length self.old.store.scopes }
        ensures { self.new ≡ sent_by
            self.old (sent.RollbackTo number)
            (record {
              tables = slice_index_or self.old.store.scopes
                  (length self.old.store.scopes - number - 1) self.old.store.tables;
              scopes = drop (length self.old.store.scopes - number) self.old.store.scopes;
            }) (log_cut number self.old.marks) }
    {
        self.store.go_back_to(number as usize);
        self.log.end_to(number);
    }

    /// Goes back to the start of the transaction, and ends it.
    pub(crate) fn undo_all(&mut self)
        requires { 0 < length self.old.store.scopes }
        ensures { self.new ≡ sent_by
            self.old sent.Rollback (record { tables = committed_of self.old.store; scopes = [] })
            no_marks }
    {
        self.store.go_back();
        self.log.roll_back();
    }

    /// Ends the transaction, and keeps its rows.
    pub(crate) fn keep_all(&mut self)
        requires { 0 < length self.old.store.scopes }
        ensures { self.new ≡ sent_by
            self.old sent.Commit (record { tables = self.old.store.tables; scopes = [] }) no_marks }
    {
        self.store.keep();
        self.log.commit();
    }

    /// Does a statement on rows, and keeps it.
    pub(crate) fn write_row(
        &mut self,
        alloc: Global,
        schema: &Schema,
        statement: &RowStmt,
    ) -> Result<KeyList, WriteRefusal>
        requires fits { IsWellFormed schema.now statement.now }
        requires inside { 0 < length self.old.store.scopes }
        ensures step { Does (call.write schema.now statement.now) (sent.Write statement.now)
            (λ _. rows_changed self.old.store.tables statement.now) self.old (as_refusal (write_refusal (table_of statement.now)) result) self.new }
        ensures keys { IfOk result (λ keys. AreKeysFor schema.now statement.now keys) }
        ensures refuses { IfErr
            (as_refusal (write_refusal (table_of statement.now)) result)
            (RefusesRow statement.now) }
    {
        match table_store::write(alloc, schema, &mut self.store, statement) {
            Ok(keys) => {
                let Ok(()) = self.log.write(statement) else {
                    go_back(&mut self.store, &mut self.log);
                    return Err(WriteRefusal::Memory);
                };
                return Ok(keys);
            }
            Err(WriteRefusal::Memory) => {
                go_back(&mut self.store, &mut self.log);
                return Err(WriteRefusal::Memory);
            }
            Err(refusal) => {
                let Ok(()) = self.log.refuse_write(alloc, statement, refusal) else {
                    go_back(&mut self.store, &mut self.log);
                    return Err(WriteRefusal::Memory);
                };
                self.refusals = self.refusals.saturating_add(1);
                return Err(refusal);
            }
        }
    }

    /// Does a bulk statement, and keeps it.
    pub(crate) fn take_rows(
        &mut self,
        alloc: Global,
        schema: &Schema,
        statement: &Bulk,
    ) -> Result<u64, WriteRefusal>
        requires plain { IsPlainBulk schema.now statement.now }
        requires inside { 0 < length self.old.store.scopes }
        ensures step { Does (call.bulk schema.now statement.now) (sent.Bulk statement.now)
            (λ count. count) self.old (as_refusal (write_refusal (bulk.table_of statement.now)) result) self.new }
        ensures refuses { IfErr
            (as_refusal (write_refusal (bulk.table_of statement.now)) result)
            (RefusesBulk schema.now statement.now) }
    {
        match table_store::write_bulk(alloc, schema, &mut self.store, statement) {
            Ok(count) => {
                let Ok(()) = self.log.bulk(alloc, statement) else {
                    go_back(&mut self.store, &mut self.log);
                    return Err(WriteRefusal::Memory);
                };
                return Ok(count);
            }
            Err(WriteRefusal::Memory) => {
                go_back(&mut self.store, &mut self.log);
                return Err(WriteRefusal::Memory);
            }
            Err(refusal) => {
                let Ok(()) = self.log.refuse_bulk(alloc, statement, refusal) else {
                    go_back(&mut self.store, &mut self.log);
                    return Err(WriteRefusal::Memory);
                };
                self.refusals = self.refusals.saturating_add(1);
                return Err(refusal);
            }
        }
    }

    /// Makes the indexes that a select wants. Where there is no memory for them, rows are found without.
    fn index_for(&mut self, alloc: Global, schema: &Schema, select: &Select)
        ensures { self.new ≡ self.old }
    {
        let _made = table_store::index_select(alloc, schema, &mut self.store, select);
    }

    /// Makes the indexes that a select wants, answers it, and keeps it.
    pub(crate) fn ask(
        &mut self,
        alloc: Global,
        schema: &Schema,
        select: &Select,
    ) -> Result<RowList, QueryRefusal>
        requires plain { IsPlainSelect schema.now select.now }
        ensures step { Does (call.query schema.now select.now) (sent.Query select.now) (λ _. 0)
            self.old (as_refusal query_refusal result) self.new }
        ensures wide { IfOk result (λ rows. AreWide select.now rows) }
        ensures kinds { AreRows schema.now (bare self.old.store.tables)
            → IfOk result (λ rows. AreOfItems schema.now select.now rows) }
        ensures given { AreLegalRows schema.now (bare self.old.store.tables)
            → IfOk result (λ rows. AreGiven schema.now select.now rows) }
        ensures refuses { IfErr
            (as_refusal query_refusal result) (RefusesSelect schema.now select.now) }
    {
        self.index_for(alloc, schema, select);
        match table_store::query(alloc, schema, &self.store, select) {
            Ok(rows) => {
                let Ok(()) = self.log.query(alloc, select) else {
                    go_back(&mut self.store, &mut self.log);
                    return Err(QueryRefusal::Memory);
                };
                return Ok(rows);
            }
            Err(QueryRefusal::Memory) => {
                go_back(&mut self.store, &mut self.log);
                return Err(QueryRefusal::Memory);
            }
            Err(refusal) => {
                let Ok(()) = self.log.refuse_query(alloc, select, refusal) else {
                    go_back(&mut self.store, &mut self.log);
                    return Err(QueryRefusal::Memory);
                };
                self.refusals = self.refusals.saturating_add(1);
                return Err(refusal);
            }
        }
    }
}

/// Ends all scopes with no statement, and goes back to the tables at the start of the outermost.
fn go_back(store: &mut TableLog, log: &mut StatementLog)
    ensures store { store.new.seen ≡ given_up store.old.seen }
    ensures marks { store.new.marks ≡ no_marks }
    ensures log { log.new ≡ record log.old { scopes = 0 } }
{
    store.go_back();
    log.close();
}

#[tactic(auto, unfolding(crate::specs::Kept::is_listed))]
/// Whether a number is in the list.
fn is_listed(number: u64, numbers: &[u64]) -> bool
    ensures { result ≡ is_listed number numbers.now }
{
    numbers.iter().any(|other| *other == number)
}
