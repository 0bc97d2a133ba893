//! Plays the acts of a line.

ghost use Rattle.std.specs.Prelude.{◌≡◌, ◌<◌, true};
ghost use Rattle.class_mapping.specs.Mapped.{IsClass, Mapped};
ghost use Rattle.object_arena.specs.Fit.{IsFit};
ghost use Rattle.object_arena.specs.Graph.{IsObject};
ghost use Rattle.relations.specs.Mirror.{is_unloaded, link_at};

use crate::reading::read_before;
use crate::told::{say_prepared, say_reached, told, word};
use base_core::{AttrNo, ClassId, Key, ListOf, ObjId, ObjList, ObjSet, Refusal, RelNo, Value};
use cascades::{Flag, delete_closure, expire_closure, expunge_closure, reached, save_closure};
use class_mapping::Mapping;
use graph_fits::{cell_fits, key_fits, link_fits};
use notations::Page;
use object_arena::{Arena, Cell, Link, State};
use prepared_objects::{next_unread, prepared};
use relations::{append, remove, set_one};
use std::alloc::Global;

/// The byte at a place, or 0.
fn byte_at(act: &[u8], place: usize) -> u8 {
    match act.get(place) {
        Some(byte) => *byte,
        None => 0,
    }
}

/// The digit at a place, or 0.
fn digit_at(act: &[u8], place: usize) -> u32
    ensures { result < 10 }
{
    digit(byte_at(act, place))
}

fn digit(byte: u8) -> u32
    ensures { result < 10 }
{
    if byte < b'0' || b'9' < byte {
        return 0;
    }
    u32::from(byte - b'0')
}

/// The digits from a place on, up to another byte.
fn objects_from(page: &mut Page, act: &[u8], place: usize) -> ObjList {
    let mut objects = ListOf::new(page.alloc());
    for byte in act.iter().skip(place) {
        if digit(*byte) == 0 {
            return objects;
        }
        page.add(&mut objects, ObjId(digit(*byte)));
    }
    objects
}

/// The digits behind the slash.
fn objects_behind(page: &mut Page, act: &[u8]) -> ObjList {
    match act.iter().position(|byte| *byte == b'/') {
        Some(place) => objects_from(page, act, place + 1),
        None => ListOf::new(page.alloc()),
    }
}

fn key_from(page: &mut Page, act: &[u8]) -> Key {
    let mut key = ListOf::new(page.alloc());
    for byte in act.iter().skip(2) {
        page.add(&mut key, Value::Int(i64::from(digit(*byte))));
    }
    key
}

fn is_made(arena: &Arena, object: ObjId) -> bool
    ensures { result ≡ true → IsObject arena.now object }
{
    0 < object.0 && object.0 <= arena.count()
}

fn make(mapping: &Mapping, arena: &mut Arena, act: &[u8]) -> Result<(), Refusal>
    requires fit { IsFit mapping.now arena.old }
    ensures { IsFit mapping.now arena.new }
{
    let class = ClassId(digit_at(act, 1));
    if class.0 >= mapping.count() {
        return Err(Refusal::NotBuilt);
    }
    arena.make(mapping, class)?;
    Ok(())
}

fn register(
    page: &mut Page,
    mapping: &Mapping,
    arena: &mut Arena,
    act: &[u8],
) -> Result<(), Refusal>
    requires fit { IsFit mapping.now arena.old }
    ensures { IsFit mapping.now arena.new }
{
    let object = ObjId(digit_at(act, 1));
    if !is_made(arena, object) {
        return Err(Refusal::NotBuilt);
    }
    let key = key_from(page, act);
    if !key_fits(mapping, arena.object(object).class, &key) {
        return Err(Refusal::NotBuilt);
    }
    arena.register(object, key)
}

fn put_state(arena: &mut Arena, act: &[u8]) -> Result<(), Refusal>
    ensures { (mapped : Mapped) → IsFit mapped arena.old → IsFit mapped arena.new }
{
    let object = ObjId(digit_at(act, 1));
    if !is_made(arena, object) {
        return Err(Refusal::NotBuilt);
    }
    let known = arena.object(object).identity.is_some();
    match byte_at(act, 2) {
        b'p' => arena.put_state(object, State::Pending),
        b'd' if known => arena.put_state(object, State::Detached),
        b'e' if known => arena.put_state(object, State::Deleted),
        _ => return Err(Refusal::NotBuilt),
    }
    Ok(())
}

fn make_orphan(arena: &mut Arena, act: &[u8]) -> Result<(), Refusal>
    ensures { (mapped : Mapped) → IsFit mapped arena.old → IsFit mapped arena.new }
{
    let object = ObjId(digit_at(act, 1));
    if !is_made(arena, object) {
        return Err(Refusal::NotBuilt);
    }
    arena.put_marks(object, 0, false, true);
    Ok(())
}

/// Marks an object for deletion.
fn mark(arena: &mut Arena, act: &[u8]) -> Result<(), Refusal>
    ensures { (mapped : Mapped) → IsFit mapped arena.old → IsFit mapped arena.new }
{
    let object = ObjId(digit_at(act, 1));
    if !is_made(arena, object) {
        return Err(Refusal::NotBuilt);
    }
    let orphan = arena.object(object).orphan;
    arena.put_marks(object, 0, true, orphan);
    Ok(())
}

/// Puts a digit into a cell whose row holds it too.
fn know(arena: &mut Arena, mapping: &Mapping, act: &[u8]) -> Result<(), Refusal>
    requires fit { IsFit mapping.now arena.old }
    ensures { IsFit mapping.now arena.new }
{
    let object = ObjId(digit_at(act, 1));
    let attr = AttrNo(digit_at(act, 2));
    let cell = Cell {
        value: Some(Value::Int(i64::from(digit_at(act, 3)))),
        base: Some(Value::Int(i64::from(digit_at(act, 3)))),
    };
    if !is_made(arena, object) || attr.0 as usize >= arena.object(object).cells.len() {
        return Err(Refusal::NotBuilt);
    }
    let attributes = mapping.attributes(arena.object(object).class);
    if !cell_fits(&attributes[attr.0 as usize], &cell) {
        return Err(Refusal::NotBuilt);
    }
    arena.put_cell(object, attr, cell);
    Ok(())
}

/// Puts a digit into a cell, or expires it.
fn put_cell(
    arena: &mut Arena,
    mapping: &Mapping,
    act: &[u8],
    value: Option<Value>,
) -> Result<(), Refusal>
    requires fit { IsFit mapping.now arena.old }
    ensures { IsFit mapping.now arena.new }
{
    let object = ObjId(digit_at(act, 1));
    let attr = AttrNo(digit_at(act, 2));
    if !is_made(arena, object) || attr.0 as usize >= arena.object(object).cells.len() {
        return Err(Refusal::NotBuilt);
    }
    match value {
        Some(value) => arena.set_cell(mapping, object, attr, value),
        None => {
            let expired = Cell {
                value: None,
                base: None,
            };
            arena.put_cell(object, attr, expired);
            Ok(())
        }
    }
}

/// The end that a digit gives: an object, or none.
fn end_at(act: &[u8], place: usize) -> Option<ObjId> {
    match digit_at(act, place) {
        0 => None,
        number => Some(ObjId(number)),
    }
}

/// The link that an act puts in.
fn link_of(page: &mut Page, act: &[u8]) -> Link {
    match byte_at(act, 0) {
        b'e' => Link::One {
            end: end_at(act, 3),
            changed: byte_at(act, 4) == b'*',
        },
        b'm' => Link::Many {
            members: objects_from(page, act, 4),
            base: objects_behind(page, act),
        },
        _ => Link::Unloaded {
            added: objects_from(page, act, 4),
            removed: objects_behind(page, act),
        },
    }
}

/// Puts a link in, where it fits.
fn put_link(
    page: &mut Page,
    arena: &mut Arena,
    mapping: &Mapping,
    act: &[u8],
) -> Result<(), Refusal>
    requires fit { IsFit mapping.now arena.old }
    ensures { IsFit mapping.now arena.new }
{
    let object = ObjId(digit_at(act, 1));
    let place = RelNo(digit_at(act, 2));
    if !is_made(arena, object) {
        return Err(Refusal::NotBuilt);
    }
    let relations = mapping.relations(arena.object(object).class);
    if place.0 as usize >= relations.len() {
        return Err(Refusal::NotBuilt);
    }
    let link = link_of(page, act);
    if !link_fits(arena, mapping, &relations[place.0 as usize], &link) {
        return Err(Refusal::NotBuilt);
    }
    arena.put_link(object, place, link);
    Ok(())
}

/// An act that makes the graph.
fn prepare(page: &mut Page, arena: &mut Arena, mapping: &Mapping, act: &[u8]) -> Result<(), Refusal>
    requires fit { IsFit mapping.now arena.old }
    ensures { IsFit mapping.now arena.new }
{
    match byte_at(act, 0) {
        b'n' => make(mapping, arena, act),
        b'k' => register(page, mapping, arena, act),
        b't' => put_state(arena, act),
        b'o' => make_orphan(arena, act),
        b'w' => mark(arena, act),
        b'y' => know(arena, mapping, act),
        b'c' => {
            let value = Value::Int(i64::from(digit_at(act, 3)));
            put_cell(arena, mapping, act, Some(value))
        }
        b'x' => put_cell(arena, mapping, act, None),
        b'e' | b'm' | b'l' => put_link(page, arena, mapping, act),
        _ => Err(Refusal::NotBuilt),
    }
}

/// The change of a link.
fn change(alloc: Global, arena: &mut Arena, mapping: &Mapping, act: &[u8]) -> Result<(), Refusal>
    requires fit { IsFit mapping.now arena.old }
{
    let object = ObjId(digit_at(act, 1));
    let place = RelNo(digit_at(act, 2));
    let other = ObjId(digit_at(act, 3));
    if !is_made(arena, object) {
        return Err(Refusal::NotBuilt);
    }
    let relations = mapping.relations(arena.object(object).class);
    if place.0 as usize >= relations.len() {
        return Err(Refusal::NotBuilt);
    }
    if relations[place.0 as usize].many {
        if !is_made(arena, other) || is_unloaded(arena, object, place) {
            return Err(Refusal::NotBuilt);
        }
        if byte_at(act, 0) == b'a' {
            return append(alloc, arena, mapping, object, place, other);
        }
        return remove(alloc, arena, mapping, object, place, other);
    }
    if other.0 == 0 {
        return set_one(alloc, arena, mapping, object, place, None);
    }
    if !is_made(arena, other) {
        return Err(Refusal::NotBuilt);
    }
    set_one(alloc, arena, mapping, object, place, Some(other))
}

fn is_unloaded(arena: &Arena, object: ObjId, place: RelNo) -> bool
    requires { IsObject arena.now object }
    ensures { result ≡ is_unloaded (link_at arena.now object place) }
{
    match arena.object(object).links.get(place.0 as usize) {
        Some(Link::Unloaded { .. }) => true,
        _ => false,
    }
}

/// The closure of an object along the flag that a letter names.
fn closure(
    alloc: Global,
    arena: &Arena,
    mapping: &Mapping,
    letter: u8,
    object: ObjId,
) -> Result<ObjSet, Refusal>
    requires fit { IsFit mapping.now arena.now }
    requires object { IsObject arena.now object }
{
    match letter {
        b'u' => Ok(save_closure(alloc, arena, mapping, object)?),
        b'x' => Ok(expire_closure(alloc, arena, mapping, object)?),
        b'p' => Ok(expunge_closure(alloc, arena, mapping, object)?),
        _ => Ok(delete_closure(alloc, arena, mapping, object)?),
    }
}

/// The flag that a letter names.
fn flag(letter: u8) -> Flag {
    match letter {
        b'u' => Flag::SaveUpdate,
        b'x' => Flag::RefreshExpire,
        b'p' => Flag::Expunge,
        _ => Flag::Delete,
    }
}

/// What is reached from two objects along the flag that a letter names.
fn reached_from(
    alloc: Global,
    arena: &Arena,
    mapping: &Mapping,
    letter: u8,
    one: ObjId,
    other: ObjId,
) -> Result<ObjSet, Refusal>
    requires fit { IsFit mapping.now arena.now }
    requires one { IsObject arena.now one }
    requires other { IsObject arena.now other }
{
    let starts = [one, other];
    Ok(reached(alloc, arena, mapping, flag(letter), &starts)?)
}

/// Tells the closure of an object, or what is reached from it and a second one.
fn tell_closure(
    arena: &Arena,
    mapping: &Mapping,
    act: &[u8],
    page: &mut Page,
) -> Result<(), Refusal>
    requires fit { IsFit mapping.now arena.now }
{
    let object = ObjId(digit_at(act, 2));
    let other = ObjId(digit_at(act, 3));
    if !is_made(arena, object) {
        return Err(Refusal::NotBuilt);
    }
    let letter = byte_at(act, 1);
    let objects = if is_made(arena, other) {
        reached_from(page.alloc(), arena, mapping, letter, object, other)?
    } else {
        closure(page.alloc(), arena, mapping, letter, object)?
    };
    say_reached(&objects, page);
    Ok(())
}

/// Tells what a flush decides of the objects, and of which one something is to be read before.
fn tell_decided(arena: &Arena, mapping: &Mapping, page: &mut Page) -> Result<(), Refusal>
    requires fit { IsFit mapping.now arena.now }
{
    let prepared = prepared(page.alloc(), arena, mapping)?;
    let unread = next_unread(page.alloc(), arena, mapping)?;
    say_prepared(&prepared, unread, page);
    Ok(())
}

/// Whether an act changes a link.
fn is_change(act: &[u8]) -> bool {
    let letter = byte_at(act, 0);
    letter == b's' || letter == b'a' || letter == b'r'
}

/// Changes the graph, and tells the answer and the graph then.
fn tell_change(arena: &mut Arena, mapping: &Mapping, act: &[u8], page: &mut Page)
    requires fit { IsFit mapping.now arena.old }
{
    let answer = change(page.alloc(), arena, mapping, act);
    page.put(word(answer));
    told(arena, page);
}

/// Reads what a flush is to know before, and tells the answer and the graph then.
fn tell_read(arena: &mut Arena, mapping: &Mapping, page: &mut Page)
    requires fit { IsFit mapping.now arena.old }
{
    let answer = read_before(page.alloc(), arena, mapping);
    page.put(word(answer));
    told(arena, page);
}

/// The graph after the acts of a line, and the answer to the last one, or the closure for which it asks.
fn play(arena: &mut Arena, mapping: &Mapping, line: &str, page: &mut Page) -> Result<(), Refusal>
    requires fit { IsFit mapping.now arena.old }
{
    for text in line.split(';') {
        let act = text.as_bytes();
        if is_change(act) {
            tell_change(arena, mapping, act, page);
            return Ok(());
        }
        if byte_at(act, 0) == b'g' {
            return tell_closure(arena, mapping, act, page);
        }
        if byte_at(act, 0) == b'f' {
            return tell_decided(arena, mapping, page);
        }
        if byte_at(act, 0) == b'b' {
            tell_read(arena, mapping, page);
            return Ok(());
        }
        prepare(page, arena, mapping, act)?;
    }
    Ok(())
}

/// What is said of a line.
pub(crate) fn answer(mapping: &Mapping, line: &str, page: &mut Page) -> Result<(), Refusal> {
    let mut arena = Arena::new(page.alloc());
    play(&mut arena, mapping, line, page)
}
