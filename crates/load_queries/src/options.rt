//! The links that a query names.

ghost use Rattle.std.specs.Prelude.{IfErr, IfOk};
ghost use Rattle.std.specs.List.{All};
ghost use Rattle.class_mapping.specs.Mapped.{IsClass};
ghost use Rattle.object_arena.specs.Fit.{IsFit};
ghost use Rattle.object_arena.specs.Graph.{IsObject};
ghost use Rattle.keeper_core.specs.Beside.{moment_beside};
ghost use Rattle.keeper_core.specs.Moment.{Runs};
ghost use Rattle.sql_semantics.specs.Plain.{IsPlainSelect};
ghost use Rattle.load_filling.specs.Growing.{Grows};
ghost use Rattle.load_rows.specs.Loading.{loading};
ghost use Rattle.main_selects.specs.MainSelect.{main_select};
ghost use Rattle.load_calls.specs.Reading.{IsReady, StaysReady};
ghost use Rattle.load_calls.specs.Refusals.{CanRefuseQuery, CanRefuseRows};
ghost use Rattle.load_queries.specs.Queries.{ReadsObjects};
ghost use Rattle.load_queries.specs.Selectin as spec;

use crate::joined::load_joined;
use crate::kinds::{load_together, related};
use crate::owners::owners_among;
use crate::queries::load_select;
use base_core::{ClassId, ObjId, ObjList, Refusal, RelNo};
use class_mapping::Mapping;
use expr_types::ObjectQuery;
use keeper_core::{Keeper, Notes};
use object_arena::Arena;
use std::alloc::Global;

/// The links of objects at the place of a relationship of a class, of those that have it.
fn load_option<K: Keeper>(
    alloc: Global,
    arena: &mut Arena,
    mapping: &Mapping,
    keeper: &mut K,
    class: ClassId,
    objects: &[ObjId],
    place: RelNo,
    notes: &mut Notes,
) -> Result<(), Refusal>
    requires fit { IsFit mapping.now arena.old }
    requires class { IsClass mapping.now class }
    requires place { spec.IsOption mapping.now class place }
    requires objects { All (IsObject arena.old) objects.now }
    requires ready { IsReady (K.moment keeper.old) }
    ensures step { Runs (moment_beside K.moment) (λ u. u)
        (spec.load_option mapping.now class objects.now place tt)
        (loading arena.old notes.old, keeper.old) result
        (loading arena.new notes.new, keeper.new) }
    ensures stays { StaysReady (K.moment keeper.old) result (K.moment keeper.new) }
    ensures grows { Grows arena.old arena.new }
    ensures fits { IsFit mapping.now arena.new }
    ensures refuses { IfErr result (CanRefuseRows mapping.now arena.new) }
{
    let relation = related(mapping, class, place);
    let owners = owners_among(alloc, &*arena, mapping, class, objects)?;
    load_together(
        alloc,
        arena,
        mapping,
        keeper,
        relation,
        place,
        owners.as_slice(),
        notes,
    )
}

/// Loads the links of objects at places of relationships of a class, one place after the other. An object that is of no class at or
/// under this one has none.
///
/// # Errors
/// As `load_together`.
#[tactic(auto, unfolding(crate::specs::Selectin::load_options))]
pub fn load_options<K: Keeper>(
    alloc: Global,
    arena: &mut Arena,
    mapping: &Mapping,
    keeper: &mut K,
    class: ClassId,
    objects: &[ObjId],
    places: &[RelNo],
    notes: &mut Notes,
) -> Result<(), Refusal>
    requires fit { IsFit mapping.now arena.old }
    requires class { IsClass mapping.now class }
    requires places { All (spec.IsOption mapping.now class) places.now }
    requires objects { All (IsObject arena.old) objects.now }
    requires ready { IsReady (K.moment keeper.old) }
    ensures step { Runs (moment_beside K.moment) (λ u. u)
        (spec.load_options mapping.now class objects.now places.now)
        (loading arena.old notes.old, keeper.old) result
        (loading arena.new notes.new, keeper.new) }
    ensures stays { StaysReady (K.moment keeper.old) result (K.moment keeper.new) }
    ensures grows { Grows arena.old arena.new }
    ensures fits { IsFit mapping.now arena.new }
    ensures refuses { IfErr result (CanRefuseRows mapping.now arena.new) }
{
    for place in places {
        load_option(alloc, arena, mapping, keeper, class, objects, *place, notes)?;
    }
    Ok(())
}

/// Loads the objects of a query, as `load_select`, and then their links at the places that the query names to be loaded by further
/// selects, one place after the other.
///
/// # Errors
/// As `load_select` and `load_together`. Where a link's load is refused, the objects and the links before it stay loaded.
pub fn load_objects<K: Keeper>(
    alloc: Global,
    arena: &mut Arena,
    mapping: &Mapping,
    keeper: &mut K,
    query: &ObjectQuery,
    notes: &mut Notes,
) -> Result<ObjList, Refusal>
    requires fit { IsFit mapping.now arena.old }
    requires class { IsClass mapping.now query.now.class }
    requires plain { IsPlainSelect mapping.now.schema query.now.select }
    requires reads { ReadsObjects mapping.now query.now.class query.now.select }
    requires options { All (spec.IsOption mapping.now query.now.class) query.now.selectin }
    requires ready { IsReady (K.moment keeper.old) }
    ensures step { Runs (moment_beside K.moment) (λ objects. objects)
        (spec.load_objects mapping.now query.now)
        (loading arena.old notes.old, keeper.old) result
        (loading arena.new notes.new, keeper.new) }
    ensures stays { StaysReady (K.moment keeper.old) result (K.moment keeper.new) }
    ensures grows { Grows arena.old arena.new }
    ensures fits { IsFit mapping.now arena.new }
    ensures made { IfOk result (All (IsObject arena.new)) }
    ensures refuses { IfErr result (CanRefuseQuery mapping.now arena.new query.now.select) }
{
    let objects = load_select(alloc, arena, mapping, keeper, query, notes)?;
    load_options(
        alloc,
        arena,
        mapping,
        keeper,
        query.class,
        objects.as_slice(),
        query.selectin.as_slice(),
        notes,
    )?;
    Ok(objects)
}

/// Loads the objects of a query with the links of its joined options, as `load_joined`, and then their links at the places that the
/// query names to be loaded by further selects, one place after the other.
///
/// # Errors
/// As `load_joined` and `load_together`. Where a link's load is refused, the objects, the joined options' links and the links before
/// it stay loaded.
pub fn load_query<K: Keeper>(
    alloc: Global,
    arena: &mut Arena,
    mapping: &Mapping,
    keeper: &mut K,
    query: &ObjectQuery,
    notes: &mut Notes,
) -> Result<ObjList, Refusal>
    requires fit { IsFit mapping.now arena.old }
    requires class { IsClass mapping.now query.now.class }
    requires plain { IsPlainSelect mapping.now.schema (main_select mapping.now query.now) }
    requires reads { ReadsObjects mapping.now query.now.class query.now.select }
    requires joined { All (spec.IsOption mapping.now query.now.class) query.now.joined }
    requires selectin { All (spec.IsOption mapping.now query.now.class) query.now.selectin }
    requires ready { IsReady (K.moment keeper.old) }
    ensures step { Runs (moment_beside K.moment) (λ objects. objects)
        (spec.load_query mapping.now query.now)
        (loading arena.old notes.old, keeper.old) result
        (loading arena.new notes.new, keeper.new) }
    ensures stays { StaysReady (K.moment keeper.old) result (K.moment keeper.new) }
    ensures grows { Grows arena.old arena.new }
    ensures fits { IsFit mapping.now arena.new }
    ensures made { IfOk result (All (IsObject arena.new)) }
    ensures refuses { IfErr result
        (CanRefuseQuery mapping.now arena.new (main_select mapping.now query.now)) }
{
    let objects = load_joined(alloc, arena, mapping, keeper, query, notes)?;
    load_options(
        alloc,
        arena,
        mapping,
        keeper,
        query.class,
        objects.as_slice(),
        query.selectin.as_slice(),
        notes,
    )?;
    Ok(objects)
}
