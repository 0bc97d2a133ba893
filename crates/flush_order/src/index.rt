//! Rows by table and key, and those to which a row refers.

ghost use Rattle.std.specs.Prelude.{◌≡◌, ◌++◌, [], ◌∷◌, map, OnOk, if◌then◌else◌};
ghost use Rattle.std.specs.Option.{unwrap_or};
ghost use Rattle.schema_core.specs.Catalog.{IsTable};
ghost use Rattle.schema_core.specs.Tables.{cell_of};
ghost use Rattle.flush_order.specs.Index.{rows_named, rows_referred, rows_under};
ghost use Rattle.flush_order.specs.Sorted.{Place, same_place};

use crate::cells::{cell_of, has_null_in, push_value};
use base_core::{Copied, Key, ListOf, Name, TableId, Value};
use schema_core::{ColumnSpec, ForeignSpec, Schema};
use std::alloc::{AllocError, Global};
use std::collections::BTreeMap;

/// The rows under each table and key.
pub(crate) type Index = BTreeMap<(TableId, Key), ListOf<u32>>;

/// The rows that were found.
fn rows_found(alloc: Global, found: Option<ListOf<u32>>) -> ListOf<u32>
    ensures { result ≡ unwrap_or found [] }
{
    match found {
        Some(rows) => rows,
        None => ListOf::new(alloc),
    }
}

/// One more row under a table and key.
pub(crate) fn enter(
    index: &mut Index,
    alloc: Global,
    table: TableId,
    key: &Key,
    row: u32,
) -> Result<(), AllocError>
    ensures { OnOk result ((wanted : Place)
        → rows_under index.new wanted ≡ rows_under index.old wanted
        ++ (if same_place (table, key.now) wanted then row ∷ [] else [])) }
{
    let place = (table, key.copied()?);
    let mut rows = rows_found(alloc, index.remove(&place));
    rows.push(row)?;
    index.insert(place, rows)?;
    Ok(())
}

/// Puts the cells in the columns of a list behind others.
fn push_cells(
    out: &mut Vec<Value>,
    columns: &[ColumnSpec],
    row: &[Value],
    names: &[Name],
) -> Result<(), AllocError>
    ensures { OnOk result
        (out.new.items ≡ out.old.items ++ map (cell_of columns.now row.now) names.now) }
{
    let Some((name, names)) = names.split_first() else {
        return Ok(());
    };
    push_value(out, cell_of(columns, row, name))?;
    push_cells(out, columns, row, names)
}

/// Puts the rows under a table and key behind others.
fn push_under(list: &mut Vec<u32>, index: &Index, place: &(TableId, Key)) -> Result<(), AllocError>
    ensures { OnOk result (list.new.items ≡ list.old.items ++ rows_under index.now place.now) }
{
    match index.get(place) {
        Some(rows) => list.extend_from_slice(rows.as_slice()),
        None => Ok(()),
    }
}

/// Puts the rows behind others that a foreign key of a row names.
fn push_named(
    list: &mut Vec<u32>,
    alloc: Global,
    schema: &Schema,
    index: &Index,
    row: &[Value],
    table: TableId,
    foreign: &ForeignSpec,
) -> Result<(), AllocError>
    requires { IsTable schema.now table }
    ensures { OnOk result (list.new.items ≡ list.old.items
        ++ rows_named schema.now index.now row.now table foreign.now) }
{
    let Some(target) = schema.find(&foreign.target) else {
        return Ok(());
    };
    let columns = schema.spec(table).columns.as_slice();
    let names = foreign.columns.as_slice();
    if has_null_in(columns, row, names) {
        return Ok(());
    }
    let mut key = Vec::new(alloc);
    push_cells(&mut key, columns, row, names)?;
    push_under(list, index, &(target, ListOf::from_vec(key)))
}

/// Puts the rows behind others that these foreign keys of a row name.
pub(crate) fn push_referred(
    list: &mut Vec<u32>,
    alloc: Global,
    schema: &Schema,
    index: &Index,
    row: &[Value],
    table: TableId,
    foreigns: &[ForeignSpec],
) -> Result<(), AllocError>
    requires { IsTable schema.now table }
    ensures { OnOk result (list.new.items ≡ list.old.items
        ++ rows_referred schema.now index.now row.now table foreigns.now) }
{
    let Some((foreign, foreigns)) = foreigns.split_first() else {
        return Ok(());
    };
    push_named(list, alloc, schema, index, row, table, foreign)?;
    push_referred(list, alloc, schema, index, row, table, foreigns)
}
