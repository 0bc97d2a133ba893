//! A law of the programs of the store: what a savepoint is for.

ghost use Rattle.table_laws.specs.Savepoints.{RollbackToRestores};

/// A savepoint, any calls inside it, and the rollback to it leave the tables and the scopes at its start.
pub fn rollback_to_restores()
    ensures { RollbackToRestores }
{}
