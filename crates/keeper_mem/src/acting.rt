//! The calls of a keeper, done in memory.

ghost use Rattle.std.specs.Prelude.{◌≡◌, ◌<◌, ◌≤◌, ◌||◌, None, true, IfErr, IfOk, IfSome};
ghost use Rattle.schema_core.specs.Apply.{table_of};
ghost use Rattle.schema_core.specs.Catalog.{IsTable};
ghost use Rattle.schema_core.specs.WellFormed.{AreKeysFor, IsWellFormed};
ghost use Rattle.sql_semantics.specs.Applied as bulk;
ghost use Rattle.sql_semantics.specs.Plain.{IsPlainBulk, IsPlainSelect};
ghost use Rattle.sql_semantics.specs.Shapes.{AreGiven, AreOfItems, AreWide};
ghost use Rattle.keeper_core.specs.Programs.{as_refusal};
ghost use Rattle.keeper_core.specs.declared.keeper.KeeperStop.TheVariants as stops;
ghost use Rattle.keeper_core.specs.Calls.{query_refusal, stop_refusal, write_refusal};
ghost use Rattle.keeper_core.specs.Keeping as keeping;
ghost use Rattle.keeper_core.specs.Keeping.{AreRowsOf, HoldsLegalRows, HoldsRows, IsAttached, IsToldFrom};
ghost use Rattle.table_log.specs.Marks.{log_cut, no_marks, place_added, place_dropped};
ghost use Rattle.row_statements.specs.Held.{rows_changed};
ghost use Rattle.keeper_mem.specs.Kept.{IsCounted, IsMarked, IsNumbered, coherent, is_failing, is_faulted, is_file, moment_of, opening};

use crate::MemKeeper;
use base_core::{KeyList, RowList, TableId};
use expr_types::{Bulk, Select};
use keeper_core::{Keeper, KeeperStop, QueryRefusal, Target, WriteRefusal};
use schema_core::{RowStmt, Schema};
use std::alloc::Global;

impl Keeper for MemKeeper {
    ghost moment = { moment_of };

    ghost opening = { opening };

    ghost coherent = { coherent };

    #[tactic(auto, using(crate::proofs::Keeping::attaching))]
    fn attach(&mut self, alloc: Global, target: Target) -> Result<(), KeeperStop>
        requires { (moment_of self.old).target ≡ None }
        ensures call { IsAttached (moment_of self.old) target
            (as_refusal stop_refusal result) (moment_of self.new) }
        ensures opened { IfOk result
            (λ u. IsToldFrom (opening self.old target) (moment_of self.new).told) }
        ensures faults { is_faulted
            (as_refusal stop_refusal result) ≡ (is_failing self.old || is_file target) }
        ensures counted { IsCounted self.old self.new }
        ensures calm { IfErr result (λ e. e ≡ stops.Fault) }
    {
        let Ok(()) = self.count_call() else {
            self.leave_target(target);
            return Err(KeeperStop::Fault);
        };
        if target != Target::Memory {
            self.fail();
            self.leave_target(target);
            return Err(KeeperStop::Fault);
        }
        self.take_target(alloc, target);
        Ok(())
    }

    #[tactic(auto, using(crate::proofs::Keeping::creating))]
    fn create(&mut self, alloc: Global, schema: &Schema, table: TableId) -> Result<bool, KeeperStop>
        requires attached { (moment_of self.old).attached ≡ true }
        requires outside { (moment_of self.old).depth ≡ 0 }
        requires declared { IsTable schema.now table }
        ensures call { keeping.IsCreate moment_of table self.old
            (as_refusal stop_refusal result) self.new }
        ensures numbered { IsNumbered self.old (as_refusal stop_refusal result) self.new }
    {
        let Ok(()) = self.count_call() else {
            return Err(KeeperStop::Fault);
        };
        if self.has_table(table) {
            return Ok(false);
        }
        let Ok(()) = self.create_table(alloc, table) else {
            self.give_up();
            return Err(KeeperStop::Memory);
        };
        Ok(true)
    }

    #[tactic(auto, using(crate::proofs::Keeping::dropping))]
    fn drop_table(
        &mut self,
        _alloc: Global,
        schema: &Schema,
        table: TableId,
    ) -> Result<bool, KeeperStop>
        requires attached { (moment_of self.old).attached ≡ true }
        requires outside { (moment_of self.old).depth ≡ 0 }
        requires declared { IsTable schema.now table }
        ensures call { keeping.IsDrop moment_of table self.old
            (as_refusal stop_refusal result) self.new }
        ensures numbered { IsNumbered self.old (as_refusal stop_refusal result) self.new }
    {
        let Ok(()) = self.count_call() else {
            return Err(KeeperStop::Fault);
        };
        if !self.has_table(table) {
            return Ok(false);
        }
        let Ok(()) = self.remove_table(table) else {
            self.give_up();
            return Err(KeeperStop::Memory);
        };
        Ok(true)
    }

    #[tactic(auto, using(crate::proofs::Keeping::beginning))]
    fn begin(&mut self, _alloc: Global) -> Result<(), KeeperStop>
        requires attached { (moment_of self.old).attached ≡ true }
        requires outside { (moment_of self.old).depth ≡ 0 }
        ensures call { keeping.IsBegin moment_of self.old
            (as_refusal stop_refusal result) self.new }
        ensures marks { IfOk result (λ _. self.new.marks ≡ place_added self.old.marks) }
        ensures numbered { IsNumbered self.old (as_refusal stop_refusal result) self.new }
    {
        let Ok(()) = self.count_call() else {
            return Err(KeeperStop::Fault);
        };
        let Ok(()) = self.start_scope() else {
            self.give_up();
            return Err(KeeperStop::Memory);
        };
        Ok(())
    }

    #[tactic(auto, using(crate::proofs::Keeping::saving))]
    fn savepoint(&mut self, _alloc: Global) -> Result<(), KeeperStop>
        requires attached { (moment_of self.old).attached ≡ true }
        requires inside { 1 ≤ (moment_of self.old).depth }
        ensures call { keeping.IsSavepoint moment_of self.old
            (as_refusal stop_refusal result) self.new }
        ensures marks { IfOk result (λ _. self.new.marks ≡ place_added self.old.marks) }
        ensures numbered { IsNumbered self.old (as_refusal stop_refusal result) self.new }
    {
        let Ok(()) = self.count_call() else {
            return Err(KeeperStop::Fault);
        };
        let Ok(()) = self.start_scope() else {
            self.give_up();
            return Err(KeeperStop::Memory);
        };
        Ok(())
    }

    #[tactic(auto, using(crate::proofs::Keeping::releasing))]
    fn release(&mut self) -> Result<(), KeeperStop>
        requires attached { (moment_of self.old).attached ≡ true }
        requires inside { 2 ≤ (moment_of self.old).depth }
        ensures call { keeping.IsRelease moment_of self.old
            (as_refusal stop_refusal result) self.new }
        ensures marks { IfOk result (λ _. self.new.marks ≡ place_dropped self.old.marks) }
        ensures numbered { IsNumbered self.old (as_refusal stop_refusal result) self.new }
        ensures calm { IfErr result (λ e. e ≡ stops.Fault) }
    {
        let Ok(()) = self.count_call() else {
            return Err(KeeperStop::Fault);
        };
        self.end_scope();
        Ok(())
    }

    #[tactic(auto, using(crate::proofs::Keeping::going_back))]
    fn rollback_to(&mut self, depth: u32) -> Result<(), KeeperStop>
        requires attached { (moment_of self.old).attached ≡ true }
        requires numbered { 1 ≤ depth }
        requires inside { depth < (moment_of self.old).depth }
        ensures call { keeping.IsRollbackTo moment_of depth self.old
            (as_refusal stop_refusal result) self.new }
        ensures marks { IfOk result (λ _. self.new.marks ≡ log_cut depth self.old.marks) }
        ensures numbered { IsNumbered self.old (as_refusal stop_refusal result) self.new }
        ensures calm { IfErr result (λ e. e ≡ stops.Fault) }
    {
        let Ok(()) = self.count_call() else {
            return Err(KeeperStop::Fault);
        };
        self.undo_scope(depth);
        Ok(())
    }

    #[tactic(auto, using(crate::proofs::Keeping::rolling_back))]
    fn rollback(&mut self) -> Result<(), KeeperStop>
        requires attached { (moment_of self.old).attached ≡ true }
        requires inside { 1 ≤ (moment_of self.old).depth }
        ensures call { keeping.IsRollback moment_of self.old
            (as_refusal stop_refusal result) self.new }
        ensures marks { self.new.marks ≡ no_marks }
        ensures numbered { IsNumbered self.old (as_refusal stop_refusal result) self.new }
        ensures calm { IfErr result (λ e. e ≡ stops.Fault) }
    {
        let Ok(()) = self.count_call() else {
            return Err(KeeperStop::Fault);
        };
        self.undo_all();
        Ok(())
    }

    #[tactic(auto, using(crate::proofs::Keeping::committing))]
    fn commit(&mut self) -> Result<(), KeeperStop>
        requires attached { (moment_of self.old).attached ≡ true }
        requires inside { 1 ≤ (moment_of self.old).depth }
        ensures call { keeping.IsCommit moment_of self.old
            (as_refusal stop_refusal result) self.new }
        ensures marks { self.new.marks ≡ no_marks }
        ensures numbered { IsNumbered self.old (as_refusal stop_refusal result) self.new }
        ensures calm { IfErr result (λ e. e ≡ stops.Fault) }
    {
        let Ok(()) = self.count_call() else {
            return Err(KeeperStop::Fault);
        };
        self.keep_all();
        Ok(())
    }

    #[tactic(auto, using(crate::proofs::Keeping::stating))]
    fn write(
        &mut self,
        alloc: Global,
        schema: &Schema,
        statement: &RowStmt,
    ) -> Result<KeyList, WriteRefusal>
        requires attached { (moment_of self.old).attached ≡ true }
        requires inside { 1 ≤ (moment_of self.old).depth }
        requires fits { IsWellFormed schema.now statement.now }
        ensures call { keeping.IsWrite moment_of schema.now statement.now self.old
            (as_refusal (write_refusal (table_of statement.now)) result) self.new }
        ensures keys { IfOk result (λ keys. AreKeysFor schema.now statement.now keys) }
        ensures marks { IsMarked (λ _. rows_changed self.old.store.tables statement.now) self.old
            (as_refusal (write_refusal (table_of statement.now)) result) self.new }
        ensures numbered { IsNumbered self.old
            (as_refusal (write_refusal (table_of statement.now)) result) self.new }
    {
        let Ok(()) = self.count_call() else {
            return Err(WriteRefusal::Fault);
        };
        self.write_row(alloc, schema, statement)
    }

    #[tactic(auto, using(crate::proofs::Keeping::stating))]
    fn bulk(
        &mut self,
        alloc: Global,
        schema: &Schema,
        statement: &Bulk,
    ) -> Result<u64, WriteRefusal>
        requires attached { (moment_of self.old).attached ≡ true }
        requires inside { 1 ≤ (moment_of self.old).depth }
        requires plain { IsPlainBulk schema.now statement.now }
        ensures call { keeping.IsBulk moment_of schema.now statement.now self.old
            (as_refusal (write_refusal (bulk.table_of statement.now)) result) self.new }
        ensures marks { IsMarked (λ count. count) self.old
            (as_refusal (write_refusal (bulk.table_of statement.now)) result) self.new }
        ensures numbered { IsNumbered self.old
            (as_refusal (write_refusal (bulk.table_of statement.now)) result) self.new }
    {
        let Ok(()) = self.count_call() else {
            return Err(WriteRefusal::Fault);
        };
        self.take_rows(alloc, schema, statement)
    }

    #[tactic(auto, using(crate::proofs::Keeping::stating))]
    fn query(
        &mut self,
        alloc: Global,
        schema: &Schema,
        select: &Select,
    ) -> Result<RowList, QueryRefusal>
        requires attached { (moment_of self.old).attached ≡ true }
        requires inside { 1 ≤ (moment_of self.old).depth }
        requires plain { IsPlainSelect schema.now select.now }
        ensures call { keeping.IsQuery moment_of schema.now select.now self.old
            (as_refusal query_refusal result) self.new }
        ensures wide { IfOk result (λ rows. AreWide select.now rows) }
        ensures kinds { HoldsRows schema.now (moment_of self.old).told
            → IfOk result (λ rows. AreOfItems schema.now select.now rows) }
        ensures given { HoldsLegalRows schema.now (moment_of self.old).told
            → IfOk result (λ rows. AreGiven schema.now select.now rows) }
        ensures numbered { IsNumbered self.old (as_refusal query_refusal result) self.new }
    {
        let Ok(()) = self.count_call() else {
            return Err(QueryRefusal::Fault);
        };
        self.ask(alloc, schema, select)
    }

    #[tactic(auto, using(crate::proofs::Keeping::scanning))]
    fn scan(
        &mut self,
        alloc: Global,
        schema: &Schema,
        table: TableId,
    ) -> Result<Option<RowList>, KeeperStop>
        requires attached { (moment_of self.old).attached ≡ true }
        requires declared { IsTable schema.now table }
        ensures call { keeping.IsScan moment_of table self.old
            (as_refusal stop_refusal result) self.new }
        ensures kinds { HoldsRows schema.now (moment_of self.old).told
            → IfOk result (λ found. IfSome found (λ rows. AreRowsOf schema.now table rows)) }
        ensures numbered { IsNumbered self.old (as_refusal stop_refusal result) self.new }
    {
        let Ok(()) = self.count_call() else {
            return Err(KeeperStop::Fault);
        };
        let Ok(rows) = self.rows(alloc, table) else {
            self.give_up();
            return Err(KeeperStop::Memory);
        };
        Ok(rows)
    }

    fn depth(&self) -> u32
        ensures { result ≡ (moment_of self.now).depth }
    {
        self.depth_now()
    }
}
