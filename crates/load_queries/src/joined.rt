//! The objects of a query.

ghost use Rattle.std.specs.Prelude.{◌≡◌, ◌<◌, true, length, IfErr, IfOk, Ok};
ghost use Rattle.std.specs.List.{All, AllByRecursion};
ghost use Rattle.class_mapping.specs.Mapped.{IsClass, relations_of, root_of};
ghost use Rattle.class_mapping.specs.Related.{AreRelated};
ghost use Rattle.object_arena.specs.Every.{classes_of};
ghost use Rattle.object_arena.specs.Fit.{IsFit, is_of_root};
ghost use Rattle.object_arena.specs.Graph.{Graph};
ghost use Rattle.keeper_core.specs.Alone.{alone};
ghost use Rattle.keeper_core.specs.Beside.{moment_beside};
ghost use Rattle.keeper_core.specs.Moment.{Runs};
ghost use Rattle.sql_semantics.specs.Plain.{IsPlainSelect};
ghost use Rattle.load_filling.specs.Growing.{Grows};
ghost use Rattle.load_rows.specs.Loading.{loading};
ghost use Rattle.main_selects.specs.MainSelect.{main_select};
ghost use Rattle.joined_rows.specs.Parts.{parts_of};
ghost use Rattle.load_calls.specs.Reading.{IsReady, StaysReady, read};
ghost use Rattle.load_calls.specs.Refusals.{CanRefuseQuery, CanRefuseRow, CanRefuseSelect};
ghost use Rattle.joined_rows.specs.Taking.{IsJoinedRow, IsTaken};
ghost use Rattle.load_queries.specs.Queries.{ReadsObjects};
ghost use Rattle.load_queries.specs.Joined as spec;

use crate::filling::fill_owners;
use base_core::{ClassId, ListOf, ObjList, Refusal, RowList, RowValues};
use class_mapping::Mapping;
use expr_types::ObjectQuery;
use joined_rows::{Part, parts_of, rows_have_parts, take_joined};
use keeper_core::{Keeper, Notes};
use load_calls::read;
use main_selects::main_select;
use object_arena::Arena;
use object_parts::{Taken, answered};
use std::alloc::{AllocError, Global};

/// Where the joined options of a query stand in its rows.
fn parts_of_query(
    alloc: Global,
    mapping: &Mapping,
    query: &ObjectQuery,
) -> Result<ListOf<Part>, AllocError>
    requires class { IsClass mapping.now query.now.class }
    requires options { All
        (λ place. place.0 < length (relations_of mapping.now query.now.class))
        query.now.joined }
    ensures parts { IfOk result
        (λ parts. parts ≡ parts_of mapping.now query.now.class query.now.joined) }
    ensures of { IfOk result (All (spec.IsPartOf mapping.now query.now.class)) }
    ensures targets { IfOk result (λ parts. AreRelated mapping.now
        → All (λ part. IsClass mapping.now part.target) parts) }
{
    parts_of(alloc, mapping, query.class, query.joined.as_slice())
}

/// The rows of a query's main select.
fn read_rows<K: Keeper>(
    alloc: Global,
    mapping: &Mapping,
    keeper: &mut K,
    query: &ObjectQuery,
    notes: &mut Notes,
) -> Result<RowList, Refusal>
    requires class { IsClass mapping.now query.now.class }
    requires options { All
        (λ place. place.0 < length (relations_of mapping.now query.now.class))
        query.now.joined }
    requires plain { IsPlainSelect mapping.now.schema (main_select mapping.now query.now) }
    requires reads { ReadsObjects mapping.now query.now.class query.now.select }
    requires ready { IsReady (K.moment keeper.old) }
    ensures step { (graph : Graph) → Runs (moment_beside K.moment) (λ rows. rows)
        (read mapping.now.schema (main_select mapping.now query.now))
        (loading graph notes.old, keeper.old) result (loading graph notes.new, keeper.new) }
    ensures stays { StaysReady (K.moment keeper.old) result (K.moment keeper.new) }
    ensures rows { IfOk result (AllByRecursion (IsJoinedRow mapping.now query.now.class
        (parts_of mapping.now query.now.class query.now.joined))) }
    ensures related { IfOk result (λ _. AreRelated mapping.now) }
    ensures refuses { IfErr result
        (CanRefuseSelect mapping.now (main_select mapping.now query.now)) }
{
    rows_have_parts();
    let wanted = main_select(alloc, mapping, query)?;
    read(alloc, mapping, keeper, &wanted, notes)
}

/// The links of the owners that rows give are filled; all objects that they give are answered.
fn fill_taken(
    alloc: Global,
    arena: &mut Arena,
    mapping: &Mapping,
    class: ClassId,
    parts: &[Part],
    taken: &[Taken],
    notes: &mut Notes,
) -> Result<ObjList, AllocError>
    requires class { IsClass mapping.now class }
    requires fit { IsFit mapping.now arena.old }
    requires parts { All (spec.IsPartOf mapping.now class) parts.now }
    requires taken { All (IsTaken mapping.now arena.old.roots class parts.now) taken.now }
    ensures step { IfOk result (λ objects. Runs alone (λ found. found)
        (spec.fill_taken mapping.now class parts.now taken.now)
        (loading arena.old notes.old) (Ok objects) (loading arena.new notes.new)) }
    ensures of { IfOk result (All
        (λ object. is_of_root arena.new.roots (root_of mapping.now class) object ≡ true)) }
    ensures fits { IsFit mapping.now arena.new }
    ensures classes { classes_of arena.new ≡ classes_of arena.old }
{
    let objects = answered(alloc, taken)?;
    fill_owners(
        alloc,
        arena,
        mapping,
        class,
        parts,
        taken,
        objects.as_slice(),
        notes,
    )?;
    Ok(objects)
}

/// Rows give their objects, and then the owners' links are filled.
#[tactic(auto, unfolding(crate::specs::Joined::take_answers))]
fn take_answers(
    alloc: Global,
    arena: &mut Arena,
    mapping: &Mapping,
    class: ClassId,
    parts: &[Part],
    rows: &[RowValues],
    notes: &mut Notes,
) -> Result<ObjList, Refusal>
    requires class { IsClass mapping.now class }
    requires targets { All (λ part. IsClass mapping.now part.target) parts.now }
    requires fit { IsFit mapping.now arena.old }
    requires parts { All (spec.IsPartOf mapping.now class) parts.now }
    requires rows { AllByRecursion (IsJoinedRow mapping.now class parts.now) rows.now }
    ensures step { Runs alone (λ objects. objects)
        (spec.take_answers mapping.now class parts.now rows.now)
        (loading arena.old notes.old) result (loading arena.new notes.new) }
    ensures of { IfOk result (All
        (λ object. is_of_root arena.new.roots (root_of mapping.now class) object ≡ true)) }
    ensures grows { Grows arena.old arena.new }
    ensures fits { IsFit mapping.now arena.new }
    ensures refuses { IfErr result (CanRefuseRow mapping.now arena.new) }
{
    let taken = take_joined(alloc, arena, mapping, class, parts, rows, notes)?;
    Ok(fill_taken(alloc, arena, mapping, class, parts, taken.as_slice(), notes)?)
}

/// Loads the objects of a query by its main select, and with them the links of its joined options: in the order of the rows, one object
/// for each key, where it comes first. A row finds its objects or makes them, first the query's and then those of the options, and
/// fills the cells that are expired. Then, option by option, the unloaded link of each object of a class at or under the query's is
/// filled: a collection holds what the rows gave for it in the order of keys, with the changes that were kept for it, and a many-to-one
/// link leads to the first of what they gave, or to none. Links that are loaded stay. Each object of which a cell or a link was filled is noted.
///
/// # Errors
/// `OperationalError` where a table was not created, `DataError` of the query's own condition or order, `KeeperFault`. These
/// change no object. `InvalidRequestError(NoSuchIdentity)` and `LimitReached(Objects)` of a row; the objects of the rows before
/// stay, and no link is filled. `Memory`.
#[tactic(auto, unfolding(crate::specs::Joined::load_joined))]
pub fn load_joined<K: Keeper>(
    alloc: Global,
    arena: &mut Arena,
    mapping: &Mapping,
    keeper: &mut K,
    query: &ObjectQuery,
    notes: &mut Notes,
) -> Result<ObjList, Refusal>
    requires class { IsClass mapping.now query.now.class }
    requires fit { IsFit mapping.now arena.old }
    requires options { All
        (λ place. place.0 < length (relations_of mapping.now query.now.class))
        query.now.joined }
    requires plain { IsPlainSelect mapping.now.schema (main_select mapping.now query.now) }
    requires reads { ReadsObjects mapping.now query.now.class query.now.select }
    requires ready { IsReady (K.moment keeper.old) }
    ensures step { Runs (moment_beside K.moment) (λ objects. objects)
        (spec.load_joined mapping.now query.now)
        (loading arena.old notes.old, keeper.old) result
        (loading arena.new notes.new, keeper.new) }
    ensures of { IfOk result (All (λ object. is_of_root arena.new.roots
        (root_of mapping.now query.now.class) object ≡ true)) }
    ensures stays { StaysReady (K.moment keeper.old) result (K.moment keeper.new) }
    ensures grows { Grows arena.old arena.new }
    ensures fits { IsFit mapping.now arena.new }
    ensures refuses { IfErr result
        (CanRefuseQuery mapping.now arena.new (main_select mapping.now query.now)) }
{
    let parts = parts_of_query(alloc, mapping, query)?;
    let rows = read_rows(alloc, mapping, keeper, query, notes)?;
    take_answers(
        alloc,
        arena,
        mapping,
        query.class,
        parts.as_slice(),
        rows.as_slice(),
        notes,
    )
}
