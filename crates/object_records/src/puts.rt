//! Records that are put in.

ghost use Rattle.std.specs.Prelude.{◌≡◌, ◌<◌, ◌≤◌, length, true};
ghost use Rattle.object_arena.specs.Graph.{IsCell, IsLink, IsObject, is_persistent, object_at, with_cell, with_link, with_object};
ghost use Rattle.std.specs.Option.{unwrap_or};
ghost use Rattle.object_arena.specs.Identity.{IsFree};
ghost use Rattle.object_records.specs.Records.{CanReplace, with_records};
ghost use Rattle.object_records.specs.Way as way;

use crate::states::put_state;
use base_core::{AttrNo, ListOf, ObjId, RelNo};
use object_arena::{Arena, Cell, Link, Object};

/// Each object gets the record at its place, where there is one.
pub(crate) fn put_all(arena: &mut Arena, records: ListOf<Option<Object>>)
    requires long { length records ≡ length arena.old.objects }
    requires puttable { way.ArePuttable arena.old (with_records arena.old records).objects }
    ensures { arena.new ≡ with_records arena.old records }
{
    let mut records = records;
    for number in 0..arena.count() {
        let given = records.replace(number as usize, None);
        put_one(arena, ObjId(number + 1), given);
    }
}

#[tactic(auto, using(crate::proofs::StateSteps::stays))]
/// An object gets another record, if there is one.
fn put_one(arena: &mut Arena, object: ObjId, given: Option<Object>)
    requires object { IsObject arena.old object }
    requires replaces { CanReplace (object_at arena.old object)
        (unwrap_or given (object_at arena.old object)) }
    requires free { is_persistent (unwrap_or given (object_at arena.old object)).state ≡ true
        → IsFree arena.old object (unwrap_or given (object_at arena.old object)).identity }
    ensures { arena.new ≡ with_object arena.old object
        (unwrap_or given (object_at arena.old object)) }
{
    match given {
        Some(new) => put_record(arena, object, new),
        None => {}
    }
}

#[tactic(auto, using(crate::proofs::StateSteps::told))]
/// An object gets another record.
fn put_record(arena: &mut Arena, object: ObjId, new: Object)
    requires object { IsObject arena.old object }
    requires replaces { CanReplace (object_at arena.old object) new }
    requires free { is_persistent new.state ≡ true → IsFree arena.old object new.identity }
    ensures { arena.new ≡ with_object arena.old object new }
{
    let Object {
        class: _,
        state,
        identity,
        added,
        marked,
        orphan,
        cells,
        links,
    } = new;
    put_state(arena, object, state, identity);
    arena.put_marks(object, added, marked, orphan);
    put_cells(arena, object, cells);
    put_links(arena, object, links);
}

#[tactic(auto, using(crate::proofs::PutSteps::puts))]
/// An object gets other cells, as many as it has.
pub(crate) fn put_cells(arena: &mut Arena, object: ObjId, cells: ListOf<Cell>)
    requires object { IsObject arena.old object }
    requires long { length cells ≡ length (object_at arena.old object).cells }
    requires few { length cells ≤ 4294967295 }
    ensures { arena.new ≡ with_object arena.old object
        (record (object_at arena.old object) { cells = cells }) }
{
    let mut cells = cells;
    for place in 0..cells.len() {
        let cell = cells.replace(
            place,
            Cell {
                value: None,
                base: None,
            },
        );
        put_cell(arena, object, place, cell);
    }
}

/// A cell gives way to another.
fn put_cell(arena: &mut Arena, object: ObjId, place: usize, cell: Cell)
    requires object { IsObject arena.old object }
    requires within { place < length (object_at arena.old object).cells }
    requires few { place < 4294967295 }
    ensures { arena.new ≡ with_cell arena.old object (record { 0 = place }) cell }
{
    arena.put_cell(object, AttrNo(place as u32), cell);
}

#[tactic(auto, using(crate::proofs::PutSteps::puts))]
/// An object gets other links, as many as it has.
pub(crate) fn put_links(arena: &mut Arena, object: ObjId, links: ListOf<Link>)
    requires object { IsObject arena.old object }
    requires long { length links ≡ length (object_at arena.old object).links }
    requires few { length links ≤ 4294967295 }
    ensures { arena.new ≡ with_object arena.old object
        (record (object_at arena.old object) { links = links }) }
{
    let mut links = links;
    for place in 0..links.len() {
        let link = links.replace(place, Link::Unset);
        put_link(arena, object, place, link);
    }
}

/// A link gives way to another.
fn put_link(arena: &mut Arena, object: ObjId, place: usize, link: Link)
    requires object { IsObject arena.old object }
    requires within { place < length (object_at arena.old object).links }
    requires few { place < 4294967295 }
    ensures { arena.new ≡ with_link arena.old object (record { 0 = place }) link }
{
    arena.put_link(object, RelNo(place as u32), link);
}
