//! The rows that are changed or deleted, by table and key, and whether an INSERT was given the key of one.

ghost use Rattle.std.specs.Prelude.{◌≡◌, ◌||◌, List, IfOk, OnOk};
ghost use Rattle.std.specs.List.{All, list_any};
ghost use Rattle.base_core.specs.declared.ids.TableId.{TableId};
ghost use Rattle.base_core.specs.declared.value.Value.{Value};
ghost use Rattle.schema_core.specs.declared.changes.RowChanges.{RowChanges};
ghost use Rattle.schema_core.specs.Catalog.{Catalog, IsTable};
ghost use Rattle.flush_order.specs.Refers.{gone_key};
ghost use Rattle.flush_plan.specs.Flushing.{was_missing};
ghost use Rattle.plan_statements.specs.Stale.{AreStalePlaces, has_place, is_deleted_at, is_written_at};

use base_core::{Copied, Key, KeyList, ListOf, TableId};
use flush_order::push_key;
use schema_core::{ChangedRow, GoneRow, Planned, RowChanges, Schema};
use std::alloc::{AllocError, Global};
use std::collections::BTreeSet;

/// Rows by table and key.
pub type Places = BTreeSet<(TableId, Key)>;

/// Puts the table and key of a changed row among others, where something is written in it.
fn put_changed(places: &mut Places, row: &ChangedRow) -> Result<(), AllocError>
    ensures { OnOk result ((table : TableId) (key : List Value)
        → has_place places.new table key
        ≡ (has_place places.old table key || is_written_at table key row.now)) }
{
    if row.cells.is_empty() {
        return Ok(());
    }
    let key = row.key.copied()?;
    places.insert((row.name.table, key))?;
    Ok(())
}

/// Puts the table and key of a deleted row among others.
fn put_gone(
    places: &mut Places,
    alloc: Global,
    schema: &Schema,
    row: &GoneRow,
) -> Result<(), AllocError>
    requires { IsTable schema.now row.now.name.table }
    ensures { OnOk result ((table : TableId) (key : List Value)
        → has_place places.new table key
        ≡ (has_place places.old table key || is_deleted_at schema.now table key row.now)) }
{
    let key = key_of_gone(alloc, schema, row)?;
    places.insert((row.name.table, key))?;
    Ok(())
}

/// The key of a deleted row.
fn key_of_gone(alloc: Global, schema: &Schema, row: &GoneRow) -> Result<Key, AllocError>
    requires { IsTable schema.now row.now.name.table }
    ensures { IfOk result (λ key. key ≡ gone_key schema.now row.now) }
{
    let spec = schema.spec(row.name.table);
    let mut key = Vec::new(alloc);
    push_key(&mut key, spec.columns.as_slice(), row.base.as_slice())?;
    Ok(ListOf::from_vec(key))
}

/// Puts the tables and keys of changed rows among others.
fn put_all_changed(places: &mut Places, rows: &[ChangedRow]) -> Result<(), AllocError>
    ensures { OnOk result ((table : TableId) (key : List Value)
        → has_place places.new table key
        ≡ (has_place places.old table key || list_any (is_written_at table key) rows.now)) }
{
    for row in rows {
        put_changed(places, row)?;
    }
    Ok(())
}

/// Puts the tables and keys of deleted rows among others.
fn put_all_gone(
    places: &mut Places,
    alloc: Global,
    schema: &Schema,
    rows: &[GoneRow],
) -> Result<(), AllocError>
    requires { All (λ row. IsTable schema.now row.name.table) rows.now }
    ensures { OnOk result ((table : TableId) (key : List Value)
        → has_place places.new table key
        ≡ (has_place places.old table key || list_any (is_deleted_at schema.now table key) rows.now)) }
{
    for row in rows {
        put_gone(places, alloc, schema, row)?;
    }
    Ok(())
}

/// The tables and keys of the rows that are changed or deleted.
pub fn stale_places(
    alloc: Global,
    schema: &Schema,
    changes: &RowChanges,
) -> Result<Places, AllocError>
    requires { All (λ row. IsTable schema.now row.name.table) changes.now.gone }
    ensures { IfOk result (AreStalePlaces schema.now changes.now) }
{
    let mut places = BTreeSet::new(alloc);
    put_all_changed(&mut places, changes.changed.as_slice())?;
    put_all_gone(&mut places, alloc, schema, changes.gone.as_slice())?;
    Ok(places)
}

/// Whether one of the keys is that of a row that is changed or deleted.
fn is_some_stale(places: &Places, table: TableId, keys: &[Key]) -> Result<bool, AllocError>
    ensures { IfOk result (λ stale. stale ≡ list_any (has_place places.now table) keys.now) }
{
    for key in keys {
        if places.contains(&(table, key.copied()?)) {
            return Ok(true);
        }
    }
    Ok(false)
}

/// Whether an INSERT was given the key of a row that is changed or deleted: that row is missing.
pub fn is_row_missing(
    places: &Places,
    planned: &Planned,
    answered: &KeyList,
) -> Result<bool, AllocError>
    ensures { (schema : Catalog) (changes : RowChanges)
        → AreStalePlaces schema changes places.now
        → IfOk result (λ missing. missing ≡ was_missing schema changes planned.now answered.now) }
{
    match planned {
        Planned::Insert { table, .. } => is_some_stale(places, *table, answered.as_slice()),
        Planned::Update { .. } | Planned::Remove { .. } => Ok(false),
    }
}
