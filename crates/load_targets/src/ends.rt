//! One object by its key.

ghost use Rattle.std.specs.Prelude.{◌≡◌, true, false, None, IfErr, IfOk};
ghost use Rattle.std.specs.List.{AllByRecursion};
ghost use Rattle.schema_core.specs.Tables.{has_null, is_null};
ghost use Rattle.class_mapping.specs.Mapped.{IsClass, root_of};
ghost use Rattle.object_arena.specs.Fit.{IsFit, end_fits, key_fits};
ghost use Rattle.object_arena.specs.Graph.{Graph, IsObject};
ghost use Rattle.keeper_core.specs.Alone.{alone};
ghost use Rattle.keeper_core.specs.Beside.{moment_beside};
ghost use Rattle.keeper_core.specs.Moment.{Runs};
ghost use Rattle.load_selects.specs.Selects.{key_select};
ghost use Rattle.load_filling.specs.Growing.{Grows};
ghost use Rattle.load_rows.specs.Loading.{loading};
ghost use Rattle.load_rows.specs.Reading.{IsRowOf};
ghost use Rattle.load_calls.specs.Refreshing.{CanRefuseCells};
ghost use Rattle.load_calls.specs.Reading.{IsReady, StaysReady, read};
ghost use Rattle.load_calls.specs.Refusals.{CanRefuseRow, CanRefuseRows};
ghost use Rattle.load_targets.specs.Targets as spec;

use base_core::{ClassId, Key, ObjId, Refusal, RowList, Value};
use class_layouts::has_class;
use class_mapping::Mapping;
use keeper_core::{Keeper, Notes};
use load_calls::read;
use load_rows::take_row;
use load_selects::key_select;
use object_arena::Arena;
use std::alloc::Global;
use std::mem::drop;

/// The row of a class under a key, if there is one.
fn read_key<K: Keeper>(
    alloc: Global,
    mapping: &Mapping,
    keeper: &mut K,
    class: ClassId,
    key: &Key,
    notes: &mut Notes,
) -> Result<RowList, Refusal>
    requires class { IsClass mapping.now class }
    requires key { key_fits mapping.now class key.now ≡ true }
    requires ready { IsReady (K.moment keeper.old) }
    ensures step { (graph : Graph) → Runs (moment_beside K.moment) (λ rows. rows)
        (read mapping.now.schema (key_select mapping.now class key.now))
        (loading graph notes.old, keeper.old) result (loading graph notes.new, keeper.new) }
    ensures stays { StaysReady (K.moment keeper.old) result (K.moment keeper.new) }
    ensures rows { IfOk result (AllByRecursion (IsRowOf mapping.now class)) }
    ensures refuses { IfErr result (CanRefuseCells mapping.now) }
{
    let wanted = key_select(alloc, mapping, class, key)?;
    let rows = read(alloc, mapping, keeper, &wanted, notes);
    drop(wanted);
    rows
}

/// The object of the first row, if there is one.
fn take_first(
    alloc: Global,
    arena: &mut Arena,
    mapping: &Mapping,
    class: ClassId,
    rows: &RowList,
    notes: &mut Notes,
) -> Result<Option<ObjId>, Refusal>
    requires class { IsClass mapping.now class }
    requires fit { IsFit mapping.now arena.old }
    requires rows { AllByRecursion (IsRowOf mapping.now class) rows.now }
    ensures step { Runs alone (λ end. end) (spec.take_first mapping.now class rows.now)
        (loading arena.old notes.old) result (loading arena.new notes.new) }
    ensures of { IfOk result
        (λ end. end_fits arena.new.roots (root_of mapping.now class) end ≡ true) }
    ensures grows { Grows arena.old arena.new }
    ensures fits { IsFit mapping.now arena.new }
    ensures refuses { IfErr result (CanRefuseRow mapping.now arena.new) }
{
    match rows.get(0) {
        Some(row) => {
            let object = take_row(alloc, arena, mapping, class, row.as_slice(), notes)?;
            Ok(Some(object))
        }
        None => Ok(None),
    }
}

/// The object of the row of a class under a key, read by one select, and filled by its row; none where there is no such row.
///
/// # Errors
/// `OperationalError` where a table of the class was not created, `KeeperFault`, `InvalidRequestError(NoSuchIdentity)`,
/// `LimitReached(Objects)`, `Memory`.
#[tactic(auto, unfolding(crate::specs::Targets::load_key))]
pub fn load_key<K: Keeper>(
    alloc: Global,
    arena: &mut Arena,
    mapping: &Mapping,
    keeper: &mut K,
    class: ClassId,
    key: &Key,
    notes: &mut Notes,
) -> Result<Option<ObjId>, Refusal>
    requires fit { IsFit mapping.now arena.old }
    requires class { IsClass mapping.now class }
    requires key { key_fits mapping.now class key.now ≡ true }
    requires ready { IsReady (K.moment keeper.old) }
    ensures step { Runs (moment_beside K.moment) (λ end. end)
        (spec.load_key mapping.now class key.now)
        (loading arena.old notes.old, keeper.old) result
        (loading arena.new notes.new, keeper.new) }
    ensures stays { StaysReady (K.moment keeper.old) result (K.moment keeper.new) }
    ensures of { IfOk result
        (λ end. end_fits arena.new.roots (root_of mapping.now class) end ≡ true) }
    ensures grows { Grows arena.old arena.new }
    ensures fits { IsFit mapping.now arena.new }
    ensures refuses { IfErr result (CanRefuseRows mapping.now arena.new) }
{
    let rows = read_key(alloc, mapping, keeper, class, key, notes)?;
    take_first(alloc, arena, mapping, class, &rows, notes)
}

fn is_null(value: &Value) -> bool
    ensures { result ≡ is_null value.now }
{
    matches!(value, Value::Null)
}

/// Whether a key has a NULL.
pub fn has_null(key: &[Value]) -> bool
    ensures { result ≡ has_null key.now }
{
    key.iter().any(|value| is_null(value))
}

/// The object, where it is of a class at or under the class.
pub fn if_of(arena: &Arena, mapping: &Mapping, class: ClassId, object: ObjId) -> Option<ObjId>
    requires { IsObject arena.now object }
    ensures { result ≡ spec.if_of arena.now mapping.now class object }
{
    if has_class(mapping.line_of(arena.class_of(object)), class.0 as usize) {
        return Some(object);
    }
    None
}

/// The object of a class under a key, if there is one: the one that the identity map has, where it is of the class, and else the
/// object of its row, which is read by one select. A key with a NULL is that of none.
///
/// # Errors
/// As `load_key`.
#[tactic(auto, unfolding(crate::specs::Targets::find_or_load))]
pub fn find_or_load<K: Keeper>(
    alloc: Global,
    arena: &mut Arena,
    mapping: &Mapping,
    keeper: &mut K,
    class: ClassId,
    key: &Key,
    notes: &mut Notes,
) -> Result<Option<ObjId>, Refusal>
    requires fit { IsFit mapping.now arena.old }
    requires class { IsClass mapping.now class }
    requires key { has_null key.now ≡ false → key_fits mapping.now class key.now ≡ true }
    requires ready { IsReady (K.moment keeper.old) }
    ensures step { Runs (moment_beside K.moment) (λ end. end)
        (spec.find_or_load mapping.now class key.now)
        (loading arena.old notes.old, keeper.old) result
        (loading arena.new notes.new, keeper.new) }
    ensures stays { StaysReady (K.moment keeper.old) result (K.moment keeper.new) }
    ensures of { IfOk result
        (λ end. end_fits arena.new.roots (root_of mapping.now class) end ≡ true) }
    ensures grows { Grows arena.old arena.new }
    ensures fits { IsFit mapping.now arena.new }
    ensures refuses { IfErr result (CanRefuseRows mapping.now arena.new) }
{
    if has_null(key.as_slice()) {
        return Ok(None);
    }
    match arena.find_identity(mapping.root_of(class), key) {
        Some(found) => Ok(if_of(&*arena, mapping, class, found)),
        None => load_key(alloc, arena, mapping, keeper, class, key, notes),
    }
}
