//! A database of SQLite in memory or in a file.

use base_core::{Kind, RowList, Value};
use sqlite_database::{Database, Ending};
use std::alloc::Global;

/// A database in memory or in a file.
#[derive(Drop)]
pub enum Link<M, F> {
    Memory(Box<M>),
    File(Box<F>),
}

/// The database on the heap.
fn to_heap<D: Drop>(alloc: Global, database: Result<D, Ending>) -> Result<Box<D>, Ending> {
    Ok(Box::new(alloc, database?)?)
}

impl<M: Database + Drop, F: Database + Drop> Database for Link<M, F> {
    fn open(rt: HostRuntime, alloc: Global, name: Option<&str>) -> Result<Link<M, F>, Ending> {
        match name {
            Some(_) => Ok(Link::File(to_heap(alloc, F::open(rt, alloc, name))?)),
            None => Ok(Link::Memory(to_heap(alloc, M::open(rt, alloc, name))?)),
        }
    }

    fn run(&mut self, alloc: Global, text: &str, values: &[Value]) -> Result<u64, Ending> {
        match self {
            Link::Memory(database) => database.run(alloc, text, values),
            Link::File(database) => database.run(alloc, text, values),
        }
    }

    fn ask(
        &mut self,
        alloc: Global,
        text: &str,
        values: &[Value],
        kinds: &[Kind],
    ) -> Result<RowList, Ending> {
        match self {
            Link::Memory(database) => database.ask(alloc, text, values, kinds),
            Link::File(database) => database.ask(alloc, text, values, kinds),
        }
    }

    fn abandon(&mut self) {
        match self {
            Link::Memory(database) => database.abandon(),
            Link::File(database) => database.abandon(),
        }
    }
}
