//! The calls of a keeper, done by the one that stands behind it.

ghost use Rattle.keeper_shelf.specs.Shelved.{coherent, moment_of, opening};

use crate::Shelf;
use base_core::{KeyList, RowList, TableId};
use expr_types::{Bulk, Select};
use keeper_core::{Keeper, KeeperStop, QueryRefusal, Target, WriteRefusal};
use schema_core::{RowStmt, Schema};
use sqlite_database::Database;
use std::alloc::Global;

impl<D: Database + Drop> Keeper for Shelf<D> {
    ghost moment = { moment_of };

    ghost opening = { opening };

    ghost coherent = { coherent };

    fn attach(&mut self, alloc: Global, target: Target) -> Result<(), KeeperStop> {
        match &mut self.file {
            Some(keeper) => keeper.attach(alloc, target),
            None => self.place(alloc, target),
        }
    }

    #[tactic(auto, using(crate::proofs::Shelving::ending))]
    fn create(
        &mut self,
        alloc: Global,
        schema: &Schema,
        table: TableId,
    ) -> Result<bool, KeeperStop> {
        match &mut self.file {
            Some(keeper) => keeper.create(alloc, schema, table),
            None => self.memory.create(alloc, schema, table),
        }
    }

    #[tactic(auto, using(crate::proofs::Shelving::ending))]
    fn drop_table(
        &mut self,
        alloc: Global,
        schema: &Schema,
        table: TableId,
    ) -> Result<bool, KeeperStop> {
        match &mut self.file {
            Some(keeper) => keeper.drop_table(alloc, schema, table),
            None => self.memory.drop_table(alloc, schema, table),
        }
    }

    #[tactic(auto, using(crate::proofs::Shelving::ending))]
    fn begin(&mut self, alloc: Global) -> Result<(), KeeperStop> {
        match &mut self.file {
            Some(keeper) => keeper.begin(alloc),
            None => self.memory.begin(alloc),
        }
    }

    #[tactic(auto, using(crate::proofs::Shelving::ending))]
    fn savepoint(&mut self, alloc: Global) -> Result<(), KeeperStop> {
        match &mut self.file {
            Some(keeper) => keeper.savepoint(alloc),
            None => self.memory.savepoint(alloc),
        }
    }

    #[tactic(auto, using(crate::proofs::Shelving::ending))]
    fn release(&mut self) -> Result<(), KeeperStop> {
        match &mut self.file {
            Some(keeper) => keeper.release(),
            None => self.memory.release(),
        }
    }

    #[tactic(auto, using(crate::proofs::Shelving::ending))]
    fn rollback_to(&mut self, depth: u32) -> Result<(), KeeperStop> {
        match &mut self.file {
            Some(keeper) => keeper.rollback_to(depth),
            None => self.memory.rollback_to(depth),
        }
    }

    #[tactic(auto, using(crate::proofs::Shelving::ending))]
    fn rollback(&mut self) -> Result<(), KeeperStop> {
        match &mut self.file {
            Some(keeper) => keeper.rollback(),
            None => self.memory.rollback(),
        }
    }

    #[tactic(auto, using(crate::proofs::Shelving::ending))]
    fn commit(&mut self) -> Result<(), KeeperStop> {
        match &mut self.file {
            Some(keeper) => keeper.commit(),
            None => self.memory.commit(),
        }
    }

    #[tactic(auto, using(crate::proofs::Shelving::stating))]
    fn write(
        &mut self,
        alloc: Global,
        schema: &Schema,
        statement: &RowStmt,
    ) -> Result<KeyList, WriteRefusal> {
        match &mut self.file {
            Some(keeper) => keeper.write(alloc, schema, statement),
            None => self.memory.write(alloc, schema, statement),
        }
    }

    #[tactic(auto, using(crate::proofs::Shelving::stating))]
    fn bulk(
        &mut self,
        alloc: Global,
        schema: &Schema,
        statement: &Bulk,
    ) -> Result<u64, WriteRefusal> {
        match &mut self.file {
            Some(keeper) => keeper.bulk(alloc, schema, statement),
            None => self.memory.bulk(alloc, schema, statement),
        }
    }

    #[tactic(auto, using(crate::proofs::Shelving::stating))]
    fn query(
        &mut self,
        alloc: Global,
        schema: &Schema,
        select: &Select,
    ) -> Result<RowList, QueryRefusal> {
        match &mut self.file {
            Some(keeper) => keeper.query(alloc, schema, select),
            None => self.memory.query(alloc, schema, select),
        }
    }

    #[tactic(auto, using(crate::proofs::Shelving::ending))]
    fn scan(
        &mut self,
        alloc: Global,
        schema: &Schema,
        table: TableId,
    ) -> Result<Option<RowList>, KeeperStop> {
        match &mut self.file {
            Some(keeper) => keeper.scan(alloc, schema, table),
            None => self.memory.scan(alloc, schema, table),
        }
    }

    fn depth(&self) -> u32 {
        match &self.file {
            Some(keeper) => keeper.depth(),
            None => self.memory.depth(),
        }
    }
}
