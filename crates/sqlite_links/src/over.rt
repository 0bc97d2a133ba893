//! What is done over databases of SQLite by those that name none.

ghost use Rattle.std.specs.Prelude.{ℕ, ⊤};

use crate::link::Link;
use sqlite::{Connection, File, FileStore, MemStore};
use sqlite_database::{Database, Opens};

/// What is done over databases of one kind, whichever it is.
pub trait OverDatabases {
    /// Which statuses it may answer.
    ghost is_status: { ℕ → Type 0 } = { λ _. ⊤ };

    /// Does it, and answers a status.
    fn run<D: Database + Drop>(rt: HostRuntime) -> u8
        ensures { is_status result };
}

/// Does it over databases in memory or in files, of any two kinds.
fn over_links<P: OverDatabases, M: Database + Drop, F: Database + Drop>(rt: HostRuntime) -> u8
    ensures { P.is_status result }
{
    P::run::<Link<M, F>>(rt)
}

/// Does it over connections to any two stores of pages.
fn over_connections<P: OverDatabases, M: Opens + Drop, F: Opens + Drop>(rt: HostRuntime) -> u8
    ensures { P.is_status result }
{
    over_links::<P, Connection<M>, Connection<F>>(rt)
}

/// Does it over databases of SQLite, and answers its status. Only here their stores are named, and each function called adds one layer
/// to their type: all layers at once take half as long again to be proved.
pub fn over_sqlite<P: OverDatabases>(rt: HostRuntime) -> u8
    ensures { P.is_status result }
{
    over_connections::<P, MemStore, FileStore<File>>(rt)
}
