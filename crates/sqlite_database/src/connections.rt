//! Connections of the kit's SQLite.

use crate::database::Database;
use crate::ending::Ending;
use crate::new_files::begin_file;
use crate::values::{parameters_of, rows_of};
use base_core::{Kind, RowList, Value};
use sqlite::{Alter, Connection, Error, File, FileStore, MemStore};
use std::alloc::Global;

/// A store of pages that a connection is opened over.
pub trait Opens: Alter {
    /// A connection to the file of this name, or to a new database in memory where none is given. A store that cannot be so is a fault.
    fn open(rt: HostRuntime, alloc: Global, name: Option<&str>) -> Result<Connection<Self>, Ending>;
}

impl Opens for MemStore {
    fn open(
        _rt: HostRuntime,
        alloc: Global,
        name: Option<&str>,
    ) -> Result<Connection<MemStore>, Ending> {
        match name {
            Some(_) => Err(Ending::Fault),
            None => Ok(Connection::open_in_memory(alloc)?),
        }
    }
}

/// What was opened, or why it was not, of any type: a call that is told that the type of files is a store of pages takes a minute to be
/// proved.
fn opened_or_ending<T>(answer: Result<T, Error>) -> Result<T, Ending> {
    match answer {
        Ok(database) => Ok(database),
        Err(error) => Err(Ending::from(error)),
    }
}

impl Opens for FileStore<File> {
    fn open(
        rt: HostRuntime,
        _alloc: Global,
        name: Option<&str>,
    ) -> Result<Connection<FileStore<File>>, Ending> {
        match name {
            Some(name) => {
                begin_file(&rt, name)?;
                opened_or_ending(Connection::open(&rt, name))
            }
            None => Err(Ending::Fault),
        }
    }
}

impl<S: Opens> Database for Connection<S> {
    fn open(rt: HostRuntime, alloc: Global, name: Option<&str>) -> Result<Connection<S>, Ending> {
        S::open(rt, alloc, name)
    }

    fn run(&mut self, alloc: Global, text: &str, values: &[Value]) -> Result<u64, Ending> {
        let parameters = parameters_of(alloc, values)?;
        Ok(self.execute(text, parameters.as_slice())? as u64)
    }

    fn ask(
        &mut self,
        alloc: Global,
        text: &str,
        values: &[Value],
        kinds: &[Kind],
    ) -> Result<RowList, Ending> {
        let parameters = parameters_of(alloc, values)?;
        let rows = self.query_all(text, parameters.as_slice())?;
        rows_of(alloc, kinds, rows.as_slice())
    }

    fn abandon(&mut self) {
        if !self.is_autocommit() {
            let _answer = self.execute("ROLLBACK", &[]);
        }
    }
}
