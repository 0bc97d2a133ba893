//! Statements as a keeper is sent them.

use base_core::TableId;
use expr_types::{Bulk, Select};
use schema_core::RowStmt;

/// A statement that a keeper was sent. Savepoints are numbered from 1, the outermost first.
#[derive(Drop)]
pub enum Sent {
    Create(TableId),
    Drop(TableId),
    Begin,
    Savepoint(u32),
    Release(u32),
    RollbackTo(u32),
    Rollback,
    Commit,
    Write(RowStmt),
    Bulk(Bulk),
    Query(Select),
}
