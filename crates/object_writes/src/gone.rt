//! The rows that objects take away.

ghost use Rattle.std.specs.Prelude.{◌≡◌, ◌<◌, ◌++◌, length, map, IfOk, OnOk};
ghost use Rattle.std.specs.List.{All};
ghost use Rattle.class_mapping.specs.Mapped.{IsClass};
ghost use Rattle.object_arena.specs.Fit.{IsFit};
ghost use Rattle.object_arena.specs.Graph.{IsObject, object_at};
ghost use Rattle.object_rows.specs.Rows as spec;
ghost use Rattle.object_rows.specs.Seen.{AreMade};

use crate::columns::{columns_at, is_joined, key_part, value_before};
use base_core::{ListOf, ObjId, RowName, TableId, Value};
use class_layouts::number_of;
use class_mapping::Mapping;
use object_arena::{Arena, Object};
use object_rows::{Prepared, key_value};
use schema_core::{ColumnSpec, GoneRow};
use std::alloc::{AllocError, Global};

/// What the row of an object had in a column.
fn gone_cell(
    mapping: &Mapping,
    object: &Object,
    table: TableId,
    columns: &[ColumnSpec],
    number: usize,
    column: &ColumnSpec,
) -> Result<Value, AllocError>
    requires declared { IsClass mapping.now object.now.class }
    requires columns { columns.now ≡ spec.columns_at mapping.now table }
    requires inside { number < length columns.now }
    ensures { IfOk result (λ value. value
        ≡ spec.gone_cell mapping.now object.now table (number, column.now)) }
{
    if is_joined(mapping, object.class, table) && column.key {
        let part = number_of(key_part(columns, number))?;
        return key_value(&object.identity, part);
    }
    value_before(mapping, object, table, number)
}

#[tactic(auto, using(class_layouts::proofs::Steps::steps, object_arena::proofs::FitLemmas::fit_class))]
/// The row of an object in a table.
fn gone_row(
    alloc: Global,
    mapping: &Mapping,
    arena: &Arena,
    object: ObjId,
    table: TableId,
) -> Result<GoneRow, AllocError>
    requires fit { IsFit mapping.now arena.now }
    requires object { IsObject arena.now object }
    ensures { IfOk result (λ row. row ≡ spec.gone_row mapping.now arena.now object table) }
{
    let record = arena.object(object);
    let columns = columns_at(mapping, table);
    let mut base = ListOf::new(alloc);
    for (number, column) in columns.iter().enumerate() {
        base.push(gone_cell(mapping, record, table, columns, number, column)?)?;
    }
    Ok(GoneRow {
        name: RowName { table, object },
        base,
    })
}

#[tactic(auto, using(class_layouts::proofs::Steps::steps, object_arena::proofs::FitLemmas::fit_class))]
/// The rows of an object go behind others.
fn push_rows_gone(
    alloc: Global,
    out: &mut ListOf<GoneRow>,
    mapping: &Mapping,
    arena: &Arena,
    object: ObjId,
) -> Result<(), AllocError>
    requires fit { IsFit mapping.now arena.now }
    requires object { IsObject arena.now object }
    ensures { OnOk result (out.new
        ≡ out.old ++ spec.rows_gone mapping.now arena.now object) }
{
    for table in mapping.tables_of(arena.object(object).class) {
        out.push(gone_row(alloc, mapping, arena, object, *table)?)?;
    }
    Ok(())
}

#[tactic(auto, using(class_layouts::proofs::Steps::steps), unfolding(object_rows::specs::Rows::gone_rows))]
/// A row for each table of each object that is to be deleted.
pub fn gone_rows(
    alloc: Global,
    arena: &Arena,
    mapping: &Mapping,
    prepared: &Prepared,
) -> Result<ListOf<GoneRow>, AllocError>
    requires fit { IsFit mapping.now arena.now }
    requires made { AreMade arena.now prepared.now }
    ensures { IfOk result
        (λ rows. rows ≡ spec.gone_rows mapping.now arena.now prepared.now) }
{
    let mut rows = ListOf::new(alloc);
    for object in prepared.deleted.as_slice() {
        push_rows_gone(alloc, &mut rows, mapping, arena, *object)?;
    }
    Ok(rows)
}
