//! The calls of a keeper, done by SQLite.

ghost use Rattle.keeper_sqlite.specs.Counted.{coherent, moment_of, opening};

use crate::SqliteKeeper;
use base_core::{KeyList, RowList, TableId};
use expr_types::{Bulk, Select};
use keeper_core::{Keeper, KeeperStop, QueryRefusal, Target, WriteRefusal};
use schema_core::{RowStmt, Schema};
use sqlite_database::{Database, Ending};
use sqlite_statements::{bulks, rows, selects};
use sqlite_tables::{scopes, tables};
use std::alloc::Global;

/// The database that a target names.
fn open_target<D: Database>(rt: HostRuntime, alloc: Global, target: &Target) -> Result<D, Ending> {
    match target {
        Target::Memory => D::open(rt, alloc, None),
        Target::File(name) => D::open(rt, alloc, Some(name.get())),
    }
}

impl<D: Database + Drop> Keeper for SqliteKeeper<D> {
    ghost moment = { moment_of };

    ghost opening = { opening };

    ghost coherent = { coherent };

    #[tactic(auto, using(crate::proofs::Keeping::attaching))]
    fn attach(&mut self, alloc: Global, target: Target) -> Result<(), KeeperStop> {
        match open_target(self.rt, alloc, &target) {
            Ok(database) => {
                self.database = Some(database);
                self.keep_target(target, true);
                Ok(())
            }
            Err(ending) => {
                let stop = self.stop_by(ending);
                self.keep_target(target, false);
                Err(stop)
            }
        }
    }

    #[tactic(auto, using(crate::proofs::Keeping::ending))]
    fn create(
        &mut self,
        alloc: Global,
        schema: &Schema,
        table: TableId,
    ) -> Result<bool, KeeperStop> {
        let made = tables::create(&mut self.database, alloc, schema, table);
        self.finish(made, 0)
    }

    #[tactic(auto, using(crate::proofs::Keeping::ending))]
    fn drop_table(
        &mut self,
        alloc: Global,
        schema: &Schema,
        table: TableId,
    ) -> Result<bool, KeeperStop> {
        let dropped = tables::drop_table(&mut self.database, alloc, schema, table);
        self.finish(dropped, 0)
    }

    #[tactic(auto, using(crate::proofs::Keeping::ending))]
    fn begin(&mut self, alloc: Global) -> Result<(), KeeperStop> {
        let begun = scopes::run(&mut self.database, alloc, "BEGIN");
        self.finish(begun, 1)
    }

    #[tactic(auto, using(crate::proofs::Keeping::ending))]
    fn savepoint(&mut self, alloc: Global) -> Result<(), KeeperStop> {
        let number = self.depth_now();
        let Some(depth) = number.checked_add(1) else {
            return Err(self.stop_by(Ending::Memory));
        };
        let started = scopes::start(&mut self.database, alloc, number);
        self.finish(started, depth)
    }

    #[tactic(auto, using(crate::proofs::Keeping::ending))]
    fn release(&mut self) -> Result<(), KeeperStop> {
        let number = self.depth_now() - 1;
        let released = scopes::release(&mut self.database, self.alloc, number);
        self.finish(released, number)
    }

    #[tactic(auto, using(crate::proofs::Keeping::ending))]
    fn rollback_to(&mut self, depth: u32) -> Result<(), KeeperStop> {
        let undone = scopes::go_back_to(&mut self.database, self.alloc, depth);
        self.finish(undone, depth)
    }

    #[tactic(auto, using(crate::proofs::Keeping::ending))]
    fn rollback(&mut self) -> Result<(), KeeperStop> {
        let undone = scopes::run(&mut self.database, self.alloc, "ROLLBACK");
        self.finish(undone, 0)
    }

    #[tactic(auto, using(crate::proofs::Keeping::ending))]
    fn commit(&mut self) -> Result<(), KeeperStop> {
        let kept = scopes::run(&mut self.database, self.alloc, "COMMIT");
        self.finish(kept, 0)
    }

    #[tactic(auto, using(crate::proofs::Keeping::settled))]
    fn write(
        &mut self,
        alloc: Global,
        schema: &Schema,
        statement: &RowStmt,
    ) -> Result<KeyList, WriteRefusal> {
        let answer = rows::write(&mut self.database, alloc, schema, statement);
        self.settle_write(schema, statement, answer)
    }

    #[tactic(auto, using(crate::proofs::Keeping::settled))]
    fn bulk(
        &mut self,
        alloc: Global,
        schema: &Schema,
        statement: &Bulk,
    ) -> Result<u64, WriteRefusal> {
        let answer = bulks::bulk(&mut self.database, alloc, schema, statement);
        self.settle_bulk(schema, statement, answer)
    }

    #[tactic(auto, using(crate::proofs::Keeping::settled))]
    fn query(
        &mut self,
        alloc: Global,
        schema: &Schema,
        select: &Select,
    ) -> Result<RowList, QueryRefusal> {
        let answer = selects::query(&mut self.database, alloc, schema, select);
        self.settle_query(schema, select, answer)
    }

    #[tactic(auto, using(crate::proofs::Keeping::ending))]
    fn scan(
        &mut self,
        alloc: Global,
        schema: &Schema,
        table: TableId,
    ) -> Result<Option<RowList>, KeeperStop> {
        match tables::scan(&mut self.database, alloc, schema, table) {
            Ok(found) => Ok(found),
            Err(ending) => Err(self.stop_by(ending)),
        }
    }

    fn depth(&self) -> u32 {
        self.depth_now()
    }
}
