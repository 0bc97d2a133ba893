//! All that a flush of a prepared graph changes.

ghost use Rattle.std.specs.Prelude.{◌≡◌, ◌≤◌, length, IsTrue, IfOk};
ghost use Rattle.std.specs.List.{All};
ghost use Rattle.class_mapping.specs.Configured.{IsConfigured};
ghost use Rattle.flush_order.specs.Ready.{AreInRange, AreReady};
ghost use Rattle.object_arena.specs.Fit.{IsFit};
ghost use Rattle.object_arena.specs.Graph.{IsObject};
ghost use Rattle.object_rows.specs.Seen.{AreMade};
ghost use Rattle.object_writes.specs.Ready.{IsReady};
ghost use Rattle.row_project.specs.Changes as spec;
ghost use Rattle.row_project.specs.Changes.{project};
ghost use Rattle.row_project.specs.Ready.{AreDeclared, AreFew};

use crate::outside::warnings;
use base_core::{ListOf, TableId, both};
use class_mapping::Mapping;
use flush_order::{NewRows, ReadyRow, ready_rows};
use object_arena::Arena;
use object_rows::{Prepared, late_keys, new_names};
use object_writes::{Projection, gone_rows};
use pair_rows::{push_lost_rows, push_made_rows};
use row_switches::switched_changes;
use schema_core::{GoneRow, NewRow, RowChanges, Schema};
use std::alloc::{AllocError, Global};

/// The rows that are new: those of objects, and behind them those of pairs.
fn rows_made(alloc: Global, projection: &Projection) -> Result<ListOf<NewRow>, AllocError>
    requires ready { IsReady projection.now }
    requires made { All
        (λ row. IsObject projection.now.arena.now row.object) projection.now.names.now }
    ensures { IfOk result (λ rows. rows ≡ spec.fresh_rows projection.now.mapping.now
        projection.now.arena.now projection.now.prepared.now) }
{
    let mut rows = projection.new_rows(alloc)?;
    push_made_rows(&mut rows, projection, alloc)?;
    Ok(rows)
}

/// The rows that are taken away: those of objects, and behind them those of pairs.
fn rows_taken(
    alloc: Global,
    arena: &Arena,
    mapping: &Mapping,
    prepared: &Prepared,
) -> Result<ListOf<GoneRow>, AllocError>
    requires fit { IsFit mapping.now arena.now }
    requires made { AreMade arena.now prepared.now }
    ensures { IfOk result
        (λ rows. rows ≡ spec.rows_lost mapping.now arena.now prepared.now) }
{
    let mut rows = gone_rows(alloc, arena, mapping, prepared)?;
    push_lost_rows(&mut rows, alloc, arena, mapping, prepared)?;
    Ok(rows)
}

/// What the objects of a prepared graph and their links change, where each new row stands among the new ones and each deleted
/// row among the deleted ones, also if both have one key.
///
/// New is a row for each table of each pending object that stays pending, in the order in which the objects were added, the
/// root's table first. The key of a joined table's row is the key of the row before it, and the discriminator holds the
/// class's identity. Behind them stands a row for each pair of a many-to-many relationship that was added, of which both
/// objects are in the session and neither is to be deleted; a pair that was added at both sides makes one.
///
/// Changed is a row for each table of a persistent object that is not to be deleted in which a cell outside the key changes,
/// with these cells alone: one changes where it is not what was last read or written, and one that is expired does not.
///
/// A foreign key's cells come from a changed link whose end is none or in the session, and are parts of the end's key where
/// the end is new; every other cell is what the object holds.
///
/// Deleted is a row for each table of each object that is to be deleted, as it was last read or written; a row for each pair
/// that was removed, of which both objects are in the session and have rows; and one for each pair that stood, of which one
/// object is to be deleted.
///
/// Written after all rows are the foreign keys of which a relationship says `post_update`. Objects outside the session that
/// changed links name are skipped with a warning, by owner, relationship and member.
pub fn object_changes(
    alloc: Global,
    arena: &Arena,
    mapping: &Mapping,
    prepared: &Prepared,
) -> Result<RowChanges, AllocError>
    requires fit { IsFit mapping.now arena.now }
    requires made { AreMade arena.now prepared.now }
    ensures { IfOk result
        (λ changes. changes ≡ spec.object_changes mapping.now arena.now prepared.now) }
{
    let names = new_names(alloc, mapping, arena, prepared)?;
    let projection = Projection {
        mapping,
        arena,
        prepared,
        names: &names,
    };
    let ((fresh, changed), (gone, (post, warnings))) = both(
        both(
            rows_made(alloc, &projection),
            projection.changed_rows(alloc),
        ),
        both(
            rows_taken(alloc, arena, mapping, prepared),
            both(
                late_keys(alloc, mapping),
                warnings(alloc, arena, mapping, prepared),
            ),
        ),
    )?;
    Ok(RowChanges {
        fresh,
        changed,
        gone,
        post,
        warnings,
    })
}

/// Whether there are no more rows than have numbers.
fn are_few(changes: &RowChanges) -> bool
    ensures { IsTrue result → AreFew changes.now }
{
    let old = changes.changed.len().saturating_add(changes.gone.len());
    changes.fresh.len() <= u32::MAX as usize && old <= u32::MAX as usize
}

#[tactic(auto, using(crate::proofs::Range::all_narrow))]
/// Whether no table has more columns than have numbers.
fn are_narrow(schema: &Schema) -> bool
    ensures narrow { IsTrue result
        → All (λ spec. length spec.columns ≤ 4294967295) schema.now.tables }
    ensures few { length schema.now.tables ≤ 4294967295 }
{
    for table in 0..schema.count() {
        if schema.spec(TableId(table)).columns.len() > u32::MAX as usize {
            return false;
        }
    }
    true
}

/// The new rows of changes, made ready for a plan. Where there are more rows, or more columns of a table, than have numbers, it is
/// told as for want of memory.
fn rows_ready(
    alloc: Global,
    schema: &Schema,
    changes: &RowChanges,
) -> Result<Vec<ReadyRow>, AllocError>
    requires { AreDeclared schema.now changes.now }
    ensures range { IfOk result (λ rows. AreInRange schema.now changes.now) }
    ensures ready { IfOk result (λ rows. AreReady schema.now changes.now rows.items) }
{
    if !are_narrow(schema) || !are_few(changes) {
        return Err(AllocError);
    }
    ready_rows(alloc, schema, changes)
}

/// What a flush of a prepared graph changes (`project`), with its new rows made ready for a plan. Where no key passes from a
/// deleted row to a new one, they are made ready once. Of the mapping all was checked, as of each.
///
/// # Errors
/// As of `project`.
pub fn project_ready(
    alloc: Global,
    arena: &Arena,
    mapping: &Mapping,
    prepared: &Prepared,
) -> Result<(RowChanges, Vec<ReadyRow>), AllocError>
    requires fit { IsFit mapping.now arena.now }
    requires made { AreMade arena.now prepared.now }
    ensures changes { IfOk result
        (λ made. made.0 ≡ project mapping.now arena.now prepared.now) }
    ensures range { IfOk result (λ made. AreInRange mapping.now.schema made.0) }
    ensures ready { IfOk result (λ made. AreReady mapping.now.schema made.0 made.1.items) }
    ensures configured { IsConfigured mapping.now }
{
    let schema = mapping.schema();
    let plain = object_changes(alloc, arena, mapping, prepared)?;
    let rows = rows_ready(alloc, schema, &plain)?;
    let new = NewRows {
        schema,
        changes: &plain,
        rows: rows.as_slice(),
    };
    match switched_changes(alloc, arena, mapping, &new)? {
        Some(changes) => {
            let rows = rows_ready(alloc, schema, &changes)?;
            Ok((changes, rows))
        }
        None => Ok((plain, rows)),
    }
}

/// What a flush of a prepared graph changes: what the objects and their links change (`object_changes`), where a key that
/// passes from a deleted row to a new one makes one changed row of both.
///
/// A new row's key is known where each of its cells is a value, or comes through a link or a join from a row whose key is
/// known. Where it is the key of a deleted row of the same table, the two are switched, and both leave their lists; of several
/// new rows with this key the first in order is switched. In their place stands a changed row under the key, with the new
/// row's name, behind the other changed rows. Its cells are those of the new row outside the key that name a new row's key,
/// or are other than the deleted row held, or are of a column that is no attribute of the deleted object's class. It may have none.
///
/// In all lists a cell that named the key of a switched row is that key's value, and a changed row keeps only the cells that
/// it does not hold already. The tables and columns of all rows are declared, so a plan can be made of the changes.
///
/// # Errors
/// It is told as for want of memory where there are more rows, or more columns of a table, than have numbers.
pub fn project(
    alloc: Global,
    arena: &Arena,
    mapping: &Mapping,
    prepared: &Prepared,
) -> Result<RowChanges, AllocError>
    requires fit { IsFit mapping.now arena.now }
    requires made { AreMade arena.now prepared.now }
    ensures changes { IfOk result
        (λ changes. changes ≡ project mapping.now arena.now prepared.now) }
    ensures range { IfOk result (λ changes. AreInRange mapping.now.schema changes) }
{
    let (changes, _rows) = project_ready(alloc, arena, mapping, prepared)?;
    Ok(changes)
}
