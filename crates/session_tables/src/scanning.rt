//! Tables are read one after another.

ghost use Rattle.std.specs.Prelude.{◌≡◌, IfErr, IfOk, OnOk, true};
ghost use Rattle.std.specs.List.{All};
ghost use Rattle.keeper_core.specs.Moment.{Runs};
ghost use Rattle.keeper_core.specs.Programs.{ends_early};
ghost use Rattle.schema_core.specs.Catalog.{IsTable};
ghost use Rattle.session_parts.specs.Depths.{HasDepth};
ghost use Rattle.session_scopes.specs.SessionState.{IsInStep};
ghost use Rattle.session_calls.specs.Calling.{IsSessionCall};
ghost use Rattle.session_tables.specs.Dump as dump;

use base_core::{ListOf, Refusal, RowList, TableId};
use keeper_core::{Keeper, calls};
use schema_core::Schema;
use session_scopes::Session;
use std::alloc::{AllocError, Global};

/// Tables, each with its rows in the order of its key.
pub type Filled = ListOf<(TableId, RowList)>;

/// The created tables in the order of declaration, with their rows as they are now. Nothing is sent, and nothing begins.
///
/// # Errors
/// `KeeperFault` and `Memory` alone.
pub fn scan_tables<K: Keeper>(session: &Session, keeper: &mut K) -> Result<Filled, Refusal>
    requires in_step { IsInStep session.now (K.moment keeper.old) }
    ensures call { IsSessionCall K.moment (λ tables. tables) dump.scan_tables
        (session.now, keeper.old) result (session.now, keeper.new) }
    ensures declared { IfOk result
        (All (λ table. IsTable session.now.mapping.schema table.0)) }
    ensures stops { IfErr result (λ e. ends_early e ≡ true) }
{
    scan_each(session.alloc(), keeper, session.mapping().schema())
}

/// The created ones of a schema's tables, in the order of declaration.
#[tactic(auto, using(crate::proofs::Scans::tables), unfolding(crate::specs::Dump::scan_each))]
fn scan_each<K: Keeper>(alloc: Global, keeper: &mut K, schema: &Schema) -> Result<Filled, Refusal>
    requires attached { (K.moment keeper.old).attached ≡ true }
    ensures step { Runs K.moment
        (λ tables. tables) (dump.scan_each schema.now) keeper.old result keeper.new }
    ensures deep { OnOk result
        (HasDepth (K.moment keeper.old).depth (K.moment keeper.new)) }
    ensures stops { IfErr result (λ e. ends_early e ≡ true) }
    ensures declared { IfOk result (All (λ table. IsTable schema.now table.0)) }
{
    let mut tables = ListOf::new(alloc);
    for number in 0..schema.count() {
        tables = scan_one(alloc, keeper, schema, TableId(number), tables)?;
    }
    Ok(tables)
}

/// The tables with one more, where it was created.
#[tactic(auto, using(keeper_core::proofs::Sequence::sequence, crate::proofs::Scans::filling), unfolding(crate::specs::Dump::scan_one))]
fn scan_one<K: Keeper>(
    alloc: Global,
    keeper: &mut K,
    schema: &Schema,
    table: TableId,
    tables: Filled,
) -> Result<Filled, Refusal>
    requires attached { (K.moment keeper.old).attached ≡ true }
    requires declared { IsTable schema.now table }
    requires before { All (λ other. IsTable schema.now other.0) tables }
    ensures step { Runs K.moment
        (λ tables. tables) (dump.scan_one table tables) keeper.old result keeper.new }
    ensures deep { OnOk result
        (HasDepth (K.moment keeper.old).depth (K.moment keeper.new)) }
    ensures stops { IfErr result (λ e. ends_early e ≡ true) }
    ensures declared { IfOk result (All (λ table. IsTable schema.now table.0)) }
{
    let rows = calls::scan(alloc, keeper, schema, table)?;
    Ok(with_filled(tables, table, rows)?)
}

/// The tables with one more, where there are rows of it.
fn with_filled(tables: Filled, table: TableId, rows: Option<RowList>) -> Result<Filled, AllocError>
    ensures { IfOk result (λ more. more ≡ dump.with_filled tables table rows) }
{
    let mut tables = tables;
    if let Some(rows) = rows {
        tables.push((table, rows))?;
    }
    Ok(tables)
}
