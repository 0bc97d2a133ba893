//! The rows of pairs.

ghost use Rattle.std.specs.Prelude.{◌≡◌, ◌||◌, ◌++◌, ◌∷◌, [], map, IfOk, OnOk};
ghost use Rattle.std.specs.BTreeSet.{contains};
ghost use Rattle.schema_core.specs.Tables.{given_value};
ghost use Rattle.object_arena.specs.Fit.{IsFit};
ghost use Rattle.object_writes.specs.Ready.{IsReady};
ghost use Rattle.flush_order.specs.Orders.{place_of_gone};
ghost use Rattle.flush_order.specs.Sorted.{Place as Placed, place_cmp, same_place};
ghost use Rattle.pair_rows.specs.Pairs as spec;

use crate::pairs::{Pair, lost_pairs, made_pairs};
use base_core::{Key, ListOf, Name, RowName, TableId, Value};
use class_mapping::Mapping;
use flush_order::push_key;
use object_arena::Arena;
use object_rows::{Prepared, RowNames};
use object_writes::{Projection, columns_at};
use schema_core::{ColumnSpec, GoneRow, NewRow, RowCell};
use std::alloc::{AllocError, Global};
use std::collections::BTreeSet;
use std::mem;

/// A row's table and key.
type Place = (TableId, Key);

/// The name of a pair's row, which has the object of the first foreign key.
fn pair_name(pair: Pair) -> RowName
    ensures { result ≡ spec.pair_name pair }
{
    RowName {
        table: pair.0,
        object: pair.1.0,
    }
}

/// The value that is given, or NULL.
fn given_value(cell: RowCell) -> Value
    ensures { result ≡ given_value cell }
{
    match cell {
        RowCell::Given(value) => value,
        RowCell::KeyOf(_, _) => Value::Null,
    }
}

/// What a column of a pair's row is given by one of both objects, if it is.
fn end_of_pair(
    projection: &Projection,
    pair: Pair,
    name: &Name,
) -> Result<Option<RowCell>, AllocError>
    ensures { IfOk result (λ cell. cell ≡ spec.end_of_pair projection.now.mapping.now
        projection.now.arena.now projection.now.names.now pair name.now) }
{
    match projection.foreign_cell(pair.0, 0, name, Some(pair.1.0))? {
        Some(cell) => Ok(Some(cell)),
        None => projection.foreign_cell(pair.0, 1, name, Some(pair.1.1)),
    }
}

/// What a column of a pair's row holds.
fn pair_cell(
    projection: &Projection,
    pair: Pair,
    column: &ColumnSpec,
) -> Result<RowCell, AllocError>
    ensures { IfOk result (λ cell. cell ≡ spec.pair_cell projection.now.mapping.now
        projection.now.arena.now projection.now.names.now pair column.now) }
{
    let given = end_of_pair(projection, pair, &column.name)?;
    Ok(given.unwrap_or(RowCell::Given(Value::Null)))
}

/// The row that a pair makes.
fn made_row(projection: &Projection, alloc: Global, pair: Pair) -> Result<NewRow, AllocError>
    ensures { IfOk result (λ row. row ≡ spec.made_row projection.now.mapping.now
        projection.now.arena.now projection.now.names.now pair) }
{
    let mut cells = ListOf::new(alloc);
    for column in columns_at(projection.mapping, pair.0) {
        cells.push(pair_cell(projection, pair, column)?)?;
    }
    Ok(NewRow {
        name: pair_name(pair),
        cells,
    })
}

/// The row that a pair takes away.
fn lost_row(projection: &Projection, alloc: Global, pair: Pair) -> Result<GoneRow, AllocError>
    requires { projection.now.names.now ≡ [] }
    ensures { IfOk result (λ row. row ≡ spec.lost_row projection.now.mapping.now
        projection.now.arena.now pair) }
{
    let mut base = ListOf::new(alloc);
    for column in columns_at(projection.mapping, pair.0) {
        base.push(given_value(pair_cell(projection, pair, column)?))?;
    }
    Ok(GoneRow {
        name: pair_name(pair),
        base,
    })
}

/// The rows that these pairs make go behind others.
fn push_made(
    out: &mut ListOf<NewRow>,
    projection: &Projection,
    alloc: Global,
    pairs: &[Pair],
) -> Result<(), AllocError>
    ensures { OnOk result (out.new ≡ out.old ++ map (spec.made_row
        projection.now.mapping.now projection.now.arena.now projection.now.names.now) pairs.now) }
{
    for pair in pairs {
        out.push(made_row(projection, alloc, *pair)?)?;
    }
    Ok(())
}

/// The table and key of a row that is taken away.
fn place_of_gone(mapping: &Mapping, alloc: Global, row: &GoneRow) -> Result<Place, AllocError>
    ensures { IfOk result (λ place. place ≡ place_of_gone mapping.now.schema row.now) }
{
    let table = row.name.table;
    let mut key = Vec::new(alloc);
    push_key(&mut key, columns_at(mapping, table), row.base.as_slice())?;
    Ok((table, ListOf::from_vec(key)))
}

/// A table and key is one of a set.
fn enter(places: &mut BTreeSet<Place>, place: Place) -> Result<(), AllocError>
    ensures { OnOk result ((other : Placed) → contains place_cmp places.new other
        ≡ (same_place place other || contains place_cmp places.old other)) }
{
    places.insert(place)?;
    Ok(())
}

/// A row goes behind others, unless one of them has its table and key. A set has their tables and keys too.
fn keep_first(
    places: &mut BTreeSet<Place>,
    rows: &mut ListOf<GoneRow>,
    mapping: &Mapping,
    alloc: Global,
    row: GoneRow,
) -> Result<(), AllocError>
    requires { spec.HasPlaces mapping.now.schema places.old rows.old }
    ensures rows { OnOk result (rows.new ≡ spec.with_first mapping.now.schema rows.old row) }
    ensures places { OnOk result (spec.HasPlaces mapping.now.schema places.new rows.new) }
{
    let place = place_of_gone(mapping, alloc, &row)?;
    if places.contains(&place) {
        return Ok(());
    }
    enter(places, place)?;
    rows.push(row)
}

/// The rows that these pairs take away, of those of one table and key the first.
fn first_rows(
    projection: &Projection,
    alloc: Global,
    pairs: &[Pair],
) -> Result<ListOf<GoneRow>, AllocError>
    requires { projection.now.names.now ≡ [] }
    ensures { IfOk result (λ rows. rows ≡ spec.first_rows projection.now.mapping.now.schema
        (map (spec.lost_row projection.now.mapping.now projection.now.arena.now) pairs.now)) }
{
    let mut places = BTreeSet::new(alloc);
    let mut rows = ListOf::new(alloc);
    for pair in pairs {
        let row = lost_row(projection, alloc, *pair)?;
        keep_first(&mut places, &mut rows, projection.mapping, alloc, row)?;
    }
    Ok(rows)
}

/// Rows go behind others.
fn append(out: &mut ListOf<GoneRow>, alloc: Global, rows: ListOf<GoneRow>) -> Result<(), AllocError>
    ensures { OnOk result (out.new ≡ out.old ++ rows) }
{
    let mut all = mem::replace(out, ListOf::new(alloc)).into_vec();
    let mut more = rows.into_vec();
    let moved = all.append(&mut more);
    *out = ListOf::from_vec(all);
    moved
}

#[tactic(auto, unfolding(crate::specs::Pairs::made_rows))]
/// The row of each pair of a many-to-many relationship that is made goes behind others, by table and objects. A pair is made
/// that was added at one side or both, where both objects are in the session and neither is to be deleted.
pub fn push_made_rows(
    out: &mut ListOf<NewRow>,
    projection: &Projection,
    alloc: Global,
) -> Result<(), AllocError>
    requires { IsReady projection.now }
    ensures { OnOk result (out.new ≡ out.old ++ spec.made_rows projection.now.mapping.now
        projection.now.arena.now projection.now.prepared.now) }
{
    let pairs = made_pairs(
        alloc,
        projection.mapping,
        projection.arena,
        projection.prepared,
    )?;
    push_made(out, projection, alloc, pairs.as_slice())
}

#[tactic(auto, unfolding(crate::specs::Pairs::lost_rows))]
/// The row of each pair that is taken away goes behind others, by table and objects: of one that was removed, where both
/// objects are in the session and have keys, and of one that stood, where an object is to be deleted. Of pairs of one table and
/// key the first has a row: a collection may still tell of an object that has left the session, and of another that stands for
/// the same key now.
pub fn push_lost_rows(
    out: &mut ListOf<GoneRow>,
    alloc: Global,
    arena: &Arena,
    mapping: &Mapping,
    prepared: &Prepared,
) -> Result<(), AllocError>
    requires fit { IsFit mapping.now arena.now }
    ensures { OnOk result (out.new ≡ out.old
        ++ spec.lost_rows mapping.now arena.now prepared.now) }
{
    let pairs = lost_pairs(alloc, mapping, arena, prepared)?;
    let names = RowNames::none(alloc);
    let projection = Projection {
        mapping,
        arena,
        prepared,
        names: &names,
    };
    let rows = first_rows(&projection, alloc, pairs.as_slice())?;
    append(out, alloc, rows)
}
