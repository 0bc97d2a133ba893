//! The objects of a table that a statement wrote are to be read again.

ghost use Rattle.std.specs.Prelude.{◌≡◌, ◌==◌, cond, OnOk, not};
ghost use Rattle.std.specs.List.{list_all, list_any};
ghost use Rattle.class_mapping.specs.Mapped.{IsClass, tables_of};
ghost use Rattle.object_arena.specs.Fit.{IsFit, Keeps};
ghost use Rattle.object_arena.specs.Graph.{IsObject, is_persistent, object_at, with_object};
ghost use Rattle.savepoints.specs.Scopes.{touch};
ghost use Rattle.object_records.specs.Same.{same_object};
ghost use Rattle.object_records.specs.Touched.{frames_touched_between};
ghost use Rattle.session_statements.specs.Rewriting as spec;

use base_core::{ClassId, ObjId, TableId};
use class_mapping::Mapping;
use object_arena::{Arena, Cell, Link, Object, State};
use object_parts::expire_if;
use savepoints::Frames;
use session_scopes::ObjectStep;
use std::alloc::AllocError;

/// Expires each persistent object with rows in a table.
#[derive(Drop)]
pub(crate) struct Reread {
    pub(crate) table: TableId,
}

impl ObjectStep for Reread {
    ghost use Rattle.session_statements.specs.Rewriting.{graph_reread};

    ghost is_ready = { λ step mapped graph. Unit {0} };

    ghost after = { λ step mapped graph. graph_reread mapped step.table graph };

    fn take(
        self,
        mapping: &Mapping,
        arena: &mut Arena,
        frames: &mut Frames,
    ) -> Result<(), AllocError> {
        reread_all(mapping, arena, frames, self.table)
    }
}

/// Each persistent object with rows in a table is expired, and touched in the innermost scope where its record comes to differ.
/// Where memory runs out it changes no object.
fn reread_all(
    mapping: &Mapping,
    arena: &mut Arena,
    frames: &mut Frames,
    table: TableId,
) -> Result<(), AllocError>
    requires fit { IsFit mapping.now arena.old }
    ensures ok { OnOk result (arena.new ≡ spec.graph_reread mapping.now table arena.old) }
    ensures touched { OnOk result (frames.new
        ≡ frames_touched_between arena.old arena.new frames.old) }
    ensures keeps { Keeps arena.old arena.new }
    ensures scopes { frames.new.scopes ≡ frames.old.scopes }
{
    touch_each(mapping, arena, frames, table)?;
    expire_each(mapping, arena, table);
    Ok(())
}

/// Each object that comes to differ is touched.
fn touch_each(
    mapping: &Mapping,
    arena: &Arena,
    frames: &mut Frames,
    table: TableId,
) -> Result<(), AllocError>
    requires fit { IsFit mapping.now arena.now }
    ensures ok { OnOk result (frames.new ≡ frames_touched_between
        arena.now (spec.graph_reread mapping.now table arena.now) frames.old) }
    ensures scopes { frames.new.scopes ≡ frames.old.scopes }
{
    for number in 0..arena.count() {
        touch_one(mapping, arena, frames, table, ObjId(number + 1))?;
    }
    Ok(())
}

/// An object is touched where it comes to differ.
#[tactic(auto, using(object_records::proofs::Scopes::kept_scopes, object_arena::proofs::FitLemmas::fit_class))]
fn touch_one(
    mapping: &Mapping,
    arena: &Arena,
    frames: &mut Frames,
    table: TableId,
    object: ObjId,
) -> Result<(), AllocError>
    requires fit { IsFit mapping.now arena.now }
    requires object { IsObject arena.now object }
    ensures ok { OnOk result (frames.new ≡ cond
        (not (same_object (object_at arena.now object)
        (spec.reread_of mapping.now table (object_at arena.now object))))
        (touch arena.now object frames.old) frames.old) }
    ensures scopes { frames.new.scopes ≡ frames.old.scopes }
{
    if comes_to_differ(mapping, arena.object(object), table) {
        return frames.touch(arena, object);
    }
    Ok(())
}

/// Each persistent object with rows in the table is expired.
#[tactic(auto, using(object_arena::proofs::TurnLemmas::turns))]
fn expire_each(mapping: &Mapping, arena: &mut Arena, table: TableId)
    requires fit { IsFit mapping.now arena.old }
    ensures reread { arena.new ≡ spec.graph_reread mapping.now table arena.old }
    ensures keeps { Keeps arena.old arena.new }
{
    for number in 0..arena.count() {
        expire_one(mapping, arena, table, ObjId(number + 1));
    }
}

/// A persistent object with rows in the table is expired.
#[tactic(auto, using(object_arena::proofs::FitLemmas::fit_class))]
fn expire_one(mapping: &Mapping, arena: &mut Arena, table: TableId, object: ObjId)
    requires fit { IsFit mapping.now arena.old }
    requires object { IsObject arena.old object }
    ensures reread { arena.new ≡ with_object arena.old object
        (spec.reread_of mapping.now table (object_at arena.old object)) }
    ensures keeps { Keeps arena.old arena.new }
{
    let is_read = is_reread(mapping, arena.object(object), table);
    expire_if(arena, object, is_read);
}

/// Whether an object is persistent with rows in the table.
fn is_reread(mapping: &Mapping, object: &Object, table: TableId) -> bool
    requires class { IsClass mapping.now object.now.class }
    ensures { result ≡ spec.is_reread mapping.now table object.now }
{
    is_persistent(object.state) && has_rows_in(mapping, object.class, table)
}

/// Whether a table is one of those of a class.
fn has_rows_in(mapping: &Mapping, class: ClassId, table: TableId) -> bool
    requires class { IsClass mapping.now class }
    ensures { result ≡ list_any (λ own. own.0 == table.0) (tables_of mapping.now class) }
{
    let tables = mapping.tables_of(class);
    tables.iter().any(|own| own.0 == table.0)
}

fn is_persistent(state: State) -> bool
    ensures { result ≡ is_persistent state }
{
    matches!(state, State::Persistent)
}

/// Whether an object's record comes to differ.
fn comes_to_differ(mapping: &Mapping, object: &Object, table: TableId) -> bool
    requires class { IsClass mapping.now object.now.class }
    ensures { result ≡ not (same_object object.now (spec.reread_of mapping.now table object.now)) }
{
    let is_read = is_reread(mapping, object, table);
    differs_from_expired(object, is_read)
}

/// Whether an object's record differs from that which is to be read again, where that is asked for.
#[tactic(auto, using(crate::proofs::RereadLemmas::differences))]
pub fn differs_from_expired(object: &Object, is_read: bool) -> bool
    ensures { result ≡ not (same_object object.now (spec.expired_if is_read object.now)) }
{
    is_read && !is_expired(object)
}

/// Whether nothing is known of an object's cells and links.
fn is_expired(object: &Object) -> bool
    ensures { result ≡ spec.is_expired object.now }
{
    !object.orphan
        && (are_expired(object.cells.as_slice()) && are_unloaded(object.links.as_slice()))
}

/// Whether all of these cells are expired.
fn are_expired(cells: &[Cell]) -> bool
    ensures { result ≡ list_all spec.is_cell_expired cells.now }
{
    cells.iter().all(is_cell_expired)
}

/// Whether all of these links are unloaded.
fn are_unloaded(links: &[Link]) -> bool
    ensures { result ≡ list_all spec.is_link_unloaded links.now }
{
    links.iter().all(is_link_unloaded)
}

/// Whether a cell has neither value nor base.
fn is_cell_expired(cell: &Cell) -> bool
    ensures { result ≡ spec.is_cell_expired cell.now }
{
    cell.value.is_none() && cell.base.is_none()
}

/// Whether a link is unloaded and keeps no change.
fn is_link_unloaded(link: &Link) -> bool
    ensures { result ≡ spec.is_link_unloaded link.now }
{
    match link {
        Link::Unloaded { added, removed } => added.is_empty() && removed.is_empty(),
        Link::Unset | Link::One { .. } | Link::Many { .. } => false,
    }
}
