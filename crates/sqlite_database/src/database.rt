//! What a database is to those who send it texts.

use crate::ending::Ending;
use base_core::{Kind, RowList, Value};
use std::alloc::Global;

/// A database that texts of SQL are sent to, each with the values of its marks in their order.
pub trait Database {
    /// The database in the file of this name, which is made where there is none; a new one in memory where no name is given.
    fn open(rt: HostRuntime, alloc: Global, name: Option<&str>) -> Result<Self, Ending>;

    /// Runs a statement that answers no rows, and answers how many it changed.
    fn run(&mut self, alloc: Global, text: &str, values: &[Value]) -> Result<u64, Ending>;

    /// The rows of a select, with a value for each kind: NULL or of the kind. Another value is a fault.
    fn ask(
        &mut self,
        alloc: Global,
        text: &str,
        values: &[Value],
        kinds: &[Kind],
    ) -> Result<RowList, Ending>;

    /// Ends the transaction, if there is one; what that answers is passed over.
    fn abandon(&mut self);
}

/// A database that may be open yet; what is sent to one that is not is a fault.
impl<D: Database + Drop> Database for Option<D> {
    fn open(rt: HostRuntime, alloc: Global, name: Option<&str>) -> Result<Option<D>, Ending> {
        match D::open(rt, alloc, name) {
            Ok(database) => Ok(Some(database)),
            Err(ending) => Err(ending),
        }
    }

    fn run(&mut self, alloc: Global, text: &str, values: &[Value]) -> Result<u64, Ending> {
        match self {
            Some(database) => database.run(alloc, text, values),
            None => Err(Ending::Fault),
        }
    }

    fn ask(
        &mut self,
        alloc: Global,
        text: &str,
        values: &[Value],
        kinds: &[Kind],
    ) -> Result<RowList, Ending> {
        if let Some(database) = self {
            return database.ask(alloc, text, values, kinds);
        }
        Err(Ending::Fault)
    }

    fn abandon(&mut self) {
        if let Some(database) = self {
            database.abandon();
        }
    }
}
