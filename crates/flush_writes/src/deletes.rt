//! The DELETEs of a flush.

ghost use Rattle.std.specs.Prelude.{◌≡◌, ◌<◌, length, IfOk};
ghost use Rattle.std.specs.List.{All};
ghost use Rattle.flush_order.specs.Orders.{gone_at, gone_rows};
ghost use Rattle.flush_writes.specs.Writes.{remove_of, removes};
ghost use Rattle.flush_order.specs.Ready.{AreReadyGone};

use base_core::Copied;
use flush_order::GoneRows;
use schema_core::Planned;
use std::alloc::{AllocError, Global};

/// The DELETE of a row.
fn remove_of(gone: &GoneRows, place: u32) -> Result<Planned, AllocError>
    requires ready { AreReadyGone gone.now.schema.now gone.now.changes.now gone.now.rows.now }
    requires within { place < length gone.now.rows.now }
    ensures { IfOk result (λ planned. planned ≡ remove_of gone.now.schema.now
        (gone_at (gone_rows gone.now.schema.now gone.now.changes.now) place)) }
{
    let row = gone.at(place);
    Ok(Planned::Remove {
        table: row.name.table,
        key: row.key.copied()?,
    })
}

/// The DELETEs of rows in this order.
pub fn removes(gone: &GoneRows, alloc: Global, order: &[u32]) -> Result<Vec<Planned>, AllocError>
    requires ready { AreReadyGone gone.now.schema.now gone.now.changes.now gone.now.rows.now }
    requires within { All (λ place. place < length gone.now.rows.now) order.now }
    ensures { IfOk result (λ statements. statements.items
        ≡ removes gone.now.schema.now gone.now.changes.now order.now) }
{
    let mut statements = Vec::new(alloc);
    for place in order {
        statements.push(remove_of(gone, *place)?)?;
    }
    Ok(statements)
}
