//! The new objects in the order in which they were added, and the names of their rows.

ghost use Rattle.std.specs.Prelude.{◌≡◌, ◌++◌, [], fold, length, map, IfOk, OnOk};
ghost use Rattle.std.specs.List.{All, filter, flat_map};
ghost use Rattle.std.specs.Map.{values_of};
ghost use Rattle.object_arena.specs.Graph.{IsObject};
ghost use Rattle.object_arena.specs.Fit.{IsFit};
ghost use Rattle.class_mapping.specs.Mapped.{tables_of};
ghost use Rattle.object_rows.specs.Rows.{new_names, row_name, rows_of};
ghost use Rattle.object_rows.specs.Seen as spec;

use crate::places::RowNames;
use crate::prepared::Prepared;
use crate::standing::{is_new, keeps_rows};
use base_core::{ObjId, RowName, TableId};
use class_mapping::Mapping;
use object_arena::Arena;
use std::alloc::{AllocError, Global};
use std::collections::BTreeMap;

/// The new objects by add number, and then by number.
type Queue = BTreeMap<(u64, u32), ObjId>;

#[tactic(auto, using(crate::proofs::ObjectSteps::id_steps), unfolding(crate::specs::Seen::object_ids))]
/// The objects by number.
pub fn object_ids(alloc: Global, arena: &Arena) -> Result<Vec<ObjId>, AllocError>
    ensures ids { IfOk result (λ ids. ids.items ≡ spec.object_ids arena.now) }
    ensures made { IfOk result (λ ids. All (IsObject arena.now) ids.items) }
{
    let mut ids = Vec::new(alloc);
    for number in 0..arena.count() {
        ids.push(ObjId(number + 1))?;
    }
    Ok(ids)
}

/// An object goes to its place in the queue, where its rows are to be made.
fn put_in_queue(
    arena: &Arena,
    prepared: &Prepared,
    queue: &mut Queue,
    object: ObjId,
) -> Result<(), AllocError>
    requires { IsObject arena.now object }
    ensures { OnOk result (queue.new.entries
        ≡ spec.with_queued arena.now prepared.now queue.old.entries object) }
{
    if is_new(arena, prepared, object) {
        queue.insert((arena.object(object).added, object.0), object)?;
    }
    Ok(())
}

#[tactic(auto, using(class_layouts::proofs::Steps::steps))]
/// The new objects by their rank.
fn queue(alloc: Global, arena: &Arena, prepared: &Prepared) -> Result<Queue, AllocError>
    ensures { IfOk result (λ queue. queue.entries
        ≡ fold (spec.with_queued arena.now prepared.now) [] (spec.object_ids arena.now)) }
{
    let ids = object_ids(alloc, arena)?;
    let mut queue = BTreeMap::new(alloc);
    for object in &ids {
        put_in_queue(arena, prepared, &mut queue, *object)?;
    }
    Ok(queue)
}

#[tactic(auto, unfolding(crate::specs::Seen::new_objects))]
/// The new objects in the order in which they were added.
fn new_list(alloc: Global, arena: &Arena, prepared: &Prepared) -> Result<Vec<ObjId>, AllocError>
    ensures { IfOk result
        (λ objects. objects.items ≡ spec.new_objects arena.now prepared.now) }
{
    let queue = queue(alloc, arena, prepared)?;
    Ok(queue.into_values().collect(alloc)?)
}

/// These objects, which have been made.
fn new_objects(alloc: Global, arena: &Arena, prepared: &Prepared) -> Result<Vec<ObjId>, AllocError>
    ensures objects { IfOk result
        (λ objects. objects.items ≡ spec.new_objects arena.now prepared.now) }
    ensures made { IfOk result (λ objects. All (IsObject arena.now) objects.items) }
{
    let objects = new_list(alloc, arena, prepared)?;
    Ok(objects)
}

/// The objects that keep their rows.
fn kept_list(alloc: Global, arena: &Arena, prepared: &Prepared) -> Result<Vec<ObjId>, AllocError>
    ensures { IfOk result (λ objects. objects.items
        ≡ filter (spec.keeps_rows arena.now prepared.now) (spec.object_ids arena.now)) }
{
    let ids = object_ids(alloc, arena)?;
    let mut kept = Vec::new(alloc);
    for object in &ids {
        if keeps_rows(arena, prepared, *object) {
            kept.push(*object)?;
        }
    }
    Ok(kept)
}

/// The objects that keep their rows, which have been made.
pub fn kept_objects(
    alloc: Global,
    arena: &Arena,
    prepared: &Prepared,
) -> Result<Vec<ObjId>, AllocError>
    ensures objects { IfOk result (λ objects. objects.items
        ≡ filter (spec.keeps_rows arena.now prepared.now) (spec.object_ids arena.now)) }
    ensures made { IfOk result (λ objects. All (IsObject arena.now) objects.items) }
{
    let objects = kept_list(alloc, arena, prepared)?;
    Ok(objects)
}

/// The rows of an object in these tables go behind others.
fn push_names(out: &mut Vec<RowName>, object: ObjId, tables: &[TableId]) -> Result<(), AllocError>
    ensures { OnOk result (out.new.items
        ≡ out.old.items ++ map (row_name object) tables.now) }
{
    for table in tables {
        out.push(RowName {
            table: *table,
            object,
        })?;
    }
    Ok(())
}

/// The rows of an object go behind others.
fn push_rows_of(
    out: &mut Vec<RowName>,
    mapping: &Mapping,
    arena: &Arena,
    object: ObjId,
) -> Result<(), AllocError>
    requires fit { IsFit mapping.now arena.now }
    requires object { IsObject arena.now object }
    ensures { OnOk result (out.new.items
        ≡ out.old.items ++ rows_of mapping.now arena.now object) }
{
    let class = arena.object(object).class;
    push_names(out, object, mapping.tables_of(class))
}

#[tactic(auto, using(class_layouts::proofs::Steps::steps), unfolding(crate::specs::Rows::new_names))]
/// The rows of the new objects in the order in which they were added.
fn name_list(
    alloc: Global,
    mapping: &Mapping,
    arena: &Arena,
    prepared: &Prepared,
) -> Result<Vec<RowName>, AllocError>
    requires fit { IsFit mapping.now arena.now }
    ensures { IfOk result
        (λ names. names.items ≡ new_names mapping.now arena.now prepared.now) }
{
    let objects = new_objects(alloc, arena, prepared)?;
    let mut names = Vec::new(alloc);
    for object in &objects {
        push_rows_of(&mut names, mapping, arena, *object)?;
    }
    Ok(names)
}

/// These rows, whose objects have been made, found by table and object.
pub fn new_names(
    alloc: Global,
    mapping: &Mapping,
    arena: &Arena,
    prepared: &Prepared,
) -> Result<RowNames, AllocError>
    requires fit { IsFit mapping.now arena.now }
    ensures names { IfOk result
        (λ names. names ≡ new_names mapping.now arena.now prepared.now) }
    ensures made { IfOk result (λ names. All (λ row. IsObject arena.now row.object) names) }
{
    let names = name_list(alloc, mapping, arena, prepared)?;
    RowNames::new(alloc, names)
}
