//! Rows that were written or taken out, judged on tables with scopes.

ghost use Rattle.std.specs.Prelude.{◌≡◌, true, is_some, IfOk};
ghost use Rattle.schema_core.specs.Judged.{some_repeats, some_written_dangles};
ghost use Rattle.schema_core.specs.Tables.{rows_in};
ghost use Rattle.row_judging.specs.Lost.{some_lost};
ghost use Rattle.table_rows.specs.Rows.{rows_at};

use base_core::{Key, RowValues, TableId};
use row_judging::{Before, refers_to};
use schema_core::{Schema, TableSpec};
use std::alloc::{AllocError, Global};
use table_log::TableLog;

/// Whether a row that is left refers to one that was taken out.
pub fn some_lost(
    alloc: Global,
    schema: &Schema,
    before: &Before,
    left: &TableLog,
) -> Result<bool, AllocError>
    ensures { IfOk result (λ yes. yes ≡ some_lost schema.now before.now left.now.seen.tables) }
{
    row_judging::some_lost(alloc, schema, before, left.tables())
}

/// Whether a foreign key of a written row names no row of the tables that are left.
pub(crate) fn some_written_dangles(
    alloc: Global,
    schema: &Schema,
    left: &TableLog,
    spec: &TableSpec,
    entries: &[(Key, RowValues)],
) -> Result<bool, AllocError>
    ensures { IfOk result (λ yes. yes
        ≡ some_written_dangles schema.now left.now.seen.tables spec.now entries.now) }
{
    row_judging::some_written_dangles(alloc, schema, left.tables(), spec, entries)
}

/// Whether a row that was written in a created table has a unique value of another row that is left.
pub(crate) fn some_repeats(
    alloc: Global,
    left: &TableLog,
    spec: &TableSpec,
    table: TableId,
    entries: &[(Key, RowValues)],
) -> Result<bool, AllocError>
    requires { is_some (rows_in left.now.seen.tables table) ≡ true }
    ensures { IfOk result (λ yes. yes
        ≡ some_repeats spec.now (rows_at left.now.seen.tables table) entries.now) }
{
    row_judging::some_repeats(alloc, spec, left.tables(), table, entries)
}

/// Makes an index for each unique constraint of a table that has none. No table changes.
fn index_uniques(
    alloc: Global,
    store: &mut TableLog,
    spec: &TableSpec,
    table: TableId,
) -> Result<(), AllocError>
    ensures { store.new ≡ store.old }
{
    for unique in spec.uniques.as_slice() {
        store.index_columns(alloc, table, spec.columns.as_slice(), unique.as_slice())?;
    }
    Ok(())
}

/// Makes the indexes by which written rows of a table are judged, where there are none yet. No table changes.
pub fn make_indexes(
    alloc: Global,
    schema: &Schema,
    store: &mut TableLog,
    table: TableId,
) -> Result<(), AllocError>
    ensures { store.new ≡ store.old }
{
    if schema.count() <= table.0 {
        return Ok(());
    }
    index_uniques(alloc, store, schema.spec(table), table)
}

/// Makes an index for each foreign key of one table that refers to another and has none. No table changes.
fn index_references(
    alloc: Global,
    schema: &Schema,
    store: &mut TableLog,
    number: u32,
    table: TableId,
) -> Result<(), AllocError>
    ensures { store.new ≡ store.old }
{
    if schema.count() <= number {
        return Ok(());
    }
    let spec = schema.spec(TableId(number));
    for foreign in spec.foreigns.as_slice() {
        if refers_to(schema, foreign, table) {
            store.index_columns(
                alloc,
                TableId(number),
                spec.columns.as_slice(),
                foreign.columns.as_slice(),
            )?;
        }
    }
    Ok(())
}

/// Makes the indexes by which a table's rows that are taken out are judged: one for each foreign key that refers to it, where
/// there are none yet. No table changes.
pub fn index_foreigns(
    alloc: Global,
    schema: &Schema,
    store: &mut TableLog,
    table: TableId,
) -> Result<(), AllocError>
    ensures { store.new ≡ store.old }
{
    for number in 0..schema.count() {
        index_references(alloc, schema, store, number, table)?;
    }
    Ok(())
}
