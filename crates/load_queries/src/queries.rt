//! The objects of a query.

ghost use Rattle.std.specs.Prelude.{◌≡◌, true, IfErr, IfOk};
ghost use Rattle.std.specs.List.{All, AllByRecursion};
ghost use Rattle.class_mapping.specs.Mapped.{IsClass, root_of};
ghost use Rattle.object_arena.specs.Fit.{IsFit, is_of_root};
ghost use Rattle.object_arena.specs.Graph.{Graph};
ghost use Rattle.keeper_core.specs.Alone.{alone};
ghost use Rattle.keeper_core.specs.Beside.{moment_beside};
ghost use Rattle.keeper_core.specs.Moment.{Runs};
ghost use Rattle.sql_semantics.specs.Plain.{IsPlainSelect};
ghost use Rattle.load_filling.specs.Growing.{Grows};
ghost use Rattle.load_rows.specs.Loading.{loading};
ghost use Rattle.load_rows.specs.Reading.{IsRowOf};
ghost use Rattle.load_calls.specs.Reading.{IsReady, StaysReady, read};
ghost use Rattle.load_calls.specs.Refusals.{CanRefuseQuery, CanRefuseRow, CanRefuseSelect};
ghost use Rattle.load_queries.specs.Queries as spec;

use base_core::{ClassId, ObjList, Refusal, RowList, RowValues};
use class_mapping::Mapping;
use expr_types::ObjectQuery;
use keeper_core::{Keeper, Notes};
use load_calls::{read, take_rows};
use object_arena::Arena;
use object_parts::firsts;
use std::alloc::Global;

/// The rows of a query.
fn read_rows<K: Keeper>(
    alloc: Global,
    mapping: &Mapping,
    keeper: &mut K,
    query: &ObjectQuery,
    notes: &mut Notes,
) -> Result<RowList, Refusal>
    requires class { IsClass mapping.now query.now.class }
    requires plain { IsPlainSelect mapping.now.schema query.now.select }
    requires reads { spec.ReadsObjects mapping.now query.now.class query.now.select }
    requires ready { IsReady (K.moment keeper.old) }
    ensures step { (graph : Graph) → Runs (moment_beside K.moment) (λ rows. rows)
        (read mapping.now.schema query.now.select)
        (loading graph notes.old, keeper.old) result (loading graph notes.new, keeper.new) }
    ensures stays { StaysReady (K.moment keeper.old) result (K.moment keeper.new) }
    ensures rows { IfOk result (AllByRecursion (IsRowOf mapping.now query.now.class)) }
    ensures refuses { IfErr result (CanRefuseSelect mapping.now query.now.select) }
{
    read(alloc, mapping, keeper, &query.select, notes)
}

/// The objects of rows where each comes first.
fn take_objects(
    alloc: Global,
    arena: &mut Arena,
    mapping: &Mapping,
    rows: &[RowValues],
    class: ClassId,
    notes: &mut Notes,
) -> Result<ObjList, Refusal>
    requires class { IsClass mapping.now class }
    requires rows { AllByRecursion (IsRowOf mapping.now class) rows.now }
    requires fit { IsFit mapping.now arena.old }
    ensures step { Runs alone (λ objects. objects) (spec.take_objects mapping.now class rows.now)
        (loading arena.old notes.old) result (loading arena.new notes.new) }
    ensures of { IfOk result (All
        (λ object. is_of_root arena.new.roots (root_of mapping.now class) object ≡ true)) }
    ensures grows { Grows arena.old arena.new }
    ensures fits { IsFit mapping.now arena.new }
    ensures refuses { IfErr result (CanRefuseRow mapping.now arena.new) }
{
    let objects = take_rows(alloc, arena, mapping, class, rows, notes)?;
    Ok(firsts(alloc, objects.as_slice())?)
}

/// Loads the objects of a query by its select, which has no further sources or columns for options: in the order of the rows, one
/// for each key, where it comes first. A row finds its object or makes it, of the class that it names, and fills the cells that
/// are expired; each object of which a cell was filled is noted.
///
/// # Errors
/// `OperationalError` where a table was not created, `DataError` of the query's own condition or order, `KeeperFault`. These
/// change no object. `InvalidRequestError(NoSuchIdentity)` and `LimitReached(Objects)` of a row; the objects of the rows before
/// stay. `Memory`.
#[tactic(auto, unfolding(crate::specs::Queries::load_select))]
pub fn load_select<K: Keeper>(
    alloc: Global,
    arena: &mut Arena,
    mapping: &Mapping,
    keeper: &mut K,
    query: &ObjectQuery,
    notes: &mut Notes,
) -> Result<ObjList, Refusal>
    requires fit { IsFit mapping.now arena.old }
    requires class { IsClass mapping.now query.now.class }
    requires plain { IsPlainSelect mapping.now.schema query.now.select }
    requires reads { spec.ReadsObjects mapping.now query.now.class query.now.select }
    requires ready { IsReady (K.moment keeper.old) }
    ensures step { Runs (moment_beside K.moment) (λ objects. objects)
        (spec.load_select mapping.now query.now)
        (loading arena.old notes.old, keeper.old) result
        (loading arena.new notes.new, keeper.new) }
    ensures stays { StaysReady (K.moment keeper.old) result (K.moment keeper.new) }
    ensures of { IfOk result (All (λ object. is_of_root arena.new.roots
        (root_of mapping.now query.now.class) object ≡ true)) }
    ensures grows { Grows arena.old arena.new }
    ensures fits { IsFit mapping.now arena.new }
    ensures refuses { IfErr result (CanRefuseQuery mapping.now arena.new query.now.select) }
{
    let rows = read_rows(alloc, mapping, keeper, query, notes)?;
    take_objects(alloc, arena, mapping, rows.as_slice(), query.class, notes)
}
