//! The reading of an object's expired cells.

ghost use Rattle.std.specs.Prelude.{◌≡◌, ◌==◌, List, length, IfErr, IfOk, OnOk};
ghost use Rattle.std.specs.List.{All, AllByRecursion, position};
ghost use Rattle.base_core.specs.declared.value.Value.{Value};
ghost use Rattle.class_mapping.specs.Configured.{IsConfigured};
ghost use Rattle.class_mapping.specs.Mapped.{IsAttribute};
ghost use Rattle.object_arena.specs.declared.object.State.TheVariants.{Persistent};
ghost use Rattle.object_arena.specs.Every.{classes_of};
ghost use Rattle.object_arena.specs.Fit.{IsFit, KeepsWith};
ghost use Rattle.object_arena.specs.Graph.{IsObject, object_at};
ghost use Rattle.keeper_core.specs.Alone.{IsQuiet};
ghost use Rattle.keeper_core.specs.Beside.{moment_beside};
ghost use Rattle.keeper_core.specs.Moment.{Runs};
ghost use Rattle.sql_semantics.specs.Plain.{IsPlainSelect};
ghost use Rattle.sql_semantics.specs.Shapes.{AreOfItems};
ghost use Rattle.load_selects.specs.Selects.{cells_select};
ghost use Rattle.load_filling.specs.Filled.{AreFoundFor};
ghost use Rattle.load_rows.specs.Loading.{filled, loading};
ghost use Rattle.load_rows.specs.Reading.{identity_key};
ghost use Rattle.collection_selects.specs.Rows.{AreCellsOf};
ghost use Rattle.load_calls.specs.Reading.{IsReady, StaysReady};
ghost use Rattle.load_calls.specs.Refreshing as spec;

use crate::reading::read;
use base_core::{AttrNo, Copied, ListOf, ObjId, Refusal, RowList, Value};
use class_layouts::number_of;
use class_mapping::Mapping;
use expr_types::Select;
use keeper_core::{Keeper, Notes};
use load_filling::cells_select;
use load_rows::{fill_noted, identity_key};
use object_arena::{Arena, Object};
use std::alloc::{AllocError, Global};
use std::mem::drop;

/// The attributes whose cells are expired, in order.
fn expired_attrs(alloc: Global, object: &Object) -> Result<ListOf<AttrNo>, AllocError>
    ensures { IfOk result (λ attrs. attrs ≡ spec.expired_attrs object.now) }
{
    let mut out = ListOf::new(alloc);
    let cells = object.cells.as_slice();
    for (place, cell) in cells.iter().enumerate() {
        if cell.value.is_none() {
            out.push(AttrNo(number_of(place)?))?;
        }
    }
    Ok(out)
}

/// The select of some cells of a persistent object.
fn select_of_cells(
    alloc: Global,
    arena: &Arena,
    mapping: &Mapping,
    object: ObjId,
    attrs: &[AttrNo],
) -> Result<Select, AllocError>
    requires fit { IsFit mapping.now arena.now }
    requires object { IsObject arena.now object }
    requires persistent { (object_at arena.now object).state ≡ Persistent }
    requires attrs { All (IsAttribute mapping.now (object_at arena.now object).class) attrs.now }
    ensures select { IfOk result (λ s. s ≡ cells_select mapping.now
        (object_at arena.now object).class attrs.now (identity_key arena.now object)) }
    ensures plain { IfOk result
        (λ s. IsConfigured mapping.now → IsPlainSelect mapping.now.schema s) }
    ensures cells { IfOk result (λ s. IsConfigured mapping.now
        → (rows : List (List Value)) → AreOfItems mapping.now.schema s rows
        → AllByRecursion (AreCellsOf mapping.now (object_at arena.now object).class attrs.now) rows) }
{
    let class = arena.object(object).class;
    let key = identity_key(alloc, arena, object)?;
    cells_select(alloc, mapping, class, attrs, &key)
}

/// The rows of some cells of a persistent object: none, or its own.
///
/// # Errors
/// `OperationalError` where a table of its class was not created, `KeeperFault`, `Memory`.
pub fn read_cells<K: Keeper>(
    alloc: Global,
    arena: &Arena,
    mapping: &Mapping,
    keeper: &mut K,
    object: ObjId,
    attrs: &[AttrNo],
    notes: &mut Notes,
) -> Result<RowList, Refusal>
    requires fit { IsFit mapping.now arena.now }
    requires object { IsObject arena.now object }
    requires persistent { (object_at arena.now object).state ≡ Persistent }
    requires attrs { All (IsAttribute mapping.now (object_at arena.now object).class) attrs.now }
    requires ready { IsReady (K.moment keeper.old) }
    ensures step { Runs (moment_beside K.moment) (λ rows. rows)
        (spec.read_cells mapping.now object attrs.now)
        (loading arena.now notes.old, keeper.old) result
        (loading arena.now notes.new, keeper.new) }
    ensures stays { StaysReady (K.moment keeper.old) result (K.moment keeper.new) }
    ensures cells { IfOk result (AllByRecursion
        (AreCellsOf mapping.now (object_at arena.now object).class attrs.now)) }
    ensures refuses { IfErr result (spec.CanRefuseCells mapping.now) }
    ensures noted { OnOk result (loading arena.now notes.new
        ≡ spec.with_cells_select mapping.now object attrs.now (loading arena.now notes.old)) }
{
    let select = select_of_cells(alloc, arena, mapping, object, attrs)?;
    let rows = read(alloc, mapping, keeper, &select, notes);
    drop(select);
    rows
}

/// The place of an attribute among others.
fn place_of(attrs: &[AttrNo], number: u32) -> Option<usize>
    ensures { result ≡ position (λ attr. attr.0 == number) attrs.now }
{
    attrs.iter().position(|attr| attr.0 == number)
}

/// What the values of some attributes have for the cell of a number.
fn found_at(attrs: &[AttrNo], values: &[Value], number: u32) -> Result<Option<Value>, AllocError>
    ensures { IfOk result (λ value. value ≡ spec.found_at attrs.now values.now number) }
{
    let Some(place) = place_of(attrs, number) else {
        return Ok(None);
    };
    match values.get(place) {
        Some(value) => Ok(Some(value.copied()?)),
        None => Ok(None),
    }
}

/// The same for so many cells, one by one.
#[tactic(auto, using(load_selects::proofs::Steps::number_steps))]
fn found_among(
    alloc: Global,
    count: usize,
    attrs: &[AttrNo],
    values: &[Value],
) -> Result<ListOf<Option<Value>>, AllocError>
    ensures { IfOk result (λ found. found ≡ spec.found_among count attrs.now values.now) }
{
    let mut found = ListOf::new(alloc);
    for place in 0..count {
        let number = number_of(place)?;
        found.push(found_at(attrs, values, number)?)?;
    }
    Ok(found)
}

/// The expired cells of an object hold what was read of them.
fn fill_cells(
    alloc: Global,
    arena: &mut Arena,
    object: ObjId,
    attrs: &[AttrNo],
    values: &[Value],
    notes: &mut Notes,
) -> Result<(), AllocError>
    requires { IsObject arena.old object }
    ensures filled { OnOk result (loading arena.new notes.new ≡ filled object
        (spec.found_among (length (object_at arena.old object).cells) attrs.now values.now)
        (loading arena.old notes.old)) }
    ensures keeps { KeepsWith (AreFoundFor (object_at arena.old object).class
        (spec.found_among (length (object_at arena.old object).cells) attrs.now values.now))
        arena.old arena.new }
{
    let count = arena.object(object).cells.len();
    let found = found_among(alloc, count, attrs, values)?;
    fill_noted(arena, object, found.as_slice(), notes)
}

/// The expired cells of an object hold what its row has for them, and the object is noted where one of them was filled.
///
/// # Errors
/// `ObjectDeletedError` of the object where there is no row, and nothing is filled then. `Memory`.
pub fn take_cells(
    alloc: Global,
    arena: &mut Arena,
    object: ObjId,
    attrs: &[AttrNo],
    rows: &RowList,
    notes: &mut Notes,
) -> Result<(), Refusal>
    requires { IsObject arena.old object }
    ensures step { IsQuiet (λ u. u)
        (spec.take_cells object attrs.now rows.now (loading arena.old notes.old)) result
        (loading arena.new notes.new) }
    ensures keeps { KeepsWith
        (λ mapped. AllByRecursion (AreCellsOf mapped (object_at arena.old object).class attrs.now)
        rows.now) arena.old arena.new }
    ensures cause { IfErr result (spec.IsDeletedOrMemory object) }
{
    match rows.get(0) {
        Some(row) => Ok(fill_cells(alloc, arena, object, attrs, row.as_slice(), notes)?),
        None => Err(Refusal::ObjectDeletedError(object)),
    }
}

/// Reads the expired cells of a persistent object by one select, where it has any. The object is noted then.
///
/// # Errors
/// `ObjectDeletedError` of the object where it has no row, over every keeper only after the select of its expired cells was sent and
/// answered, `OperationalError` where a table of its class was not created, `KeeperFault`. These change no object. `Memory`.
pub fn refresh<K: Keeper>(
    alloc: Global,
    arena: &mut Arena,
    mapping: &Mapping,
    keeper: &mut K,
    object: ObjId,
    notes: &mut Notes,
) -> Result<(), Refusal>
    requires fit { IsFit mapping.now arena.old }
    requires object { IsObject arena.old object }
    requires persistent { (object_at arena.old object).state ≡ Persistent }
    requires ready { IsReady (K.moment keeper.old) }
    ensures step { Runs (moment_beside K.moment) (λ u. u) (spec.refresh mapping.now object)
        (loading arena.old notes.old, keeper.old) result
        (loading arena.new notes.new, keeper.new) }
    ensures stays { StaysReady (K.moment keeper.old) result (K.moment keeper.new) }
    ensures fits { IsFit mapping.now arena.new }
    ensures classes { classes_of arena.new ≡ classes_of arena.old }
    ensures refuses { IfErr result (spec.CanRefuse mapping.now object) }
    ensures shown { IfErr result (spec.IsShownDeleted mapping.now object
        (loading arena.old notes.old, K.moment keeper.old)
        (loading arena.new notes.new, K.moment keeper.new)) }
{
    let attrs = expired_attrs(alloc, arena.object(object))?;
    if attrs.is_empty() {
        return Ok(());
    }
    let attrs = attrs.as_slice();
    let rows = read_cells(alloc, &*arena, mapping, keeper, object, attrs, notes)?;
    take_cells(alloc, arena, object, attrs, &rows, notes)
}
