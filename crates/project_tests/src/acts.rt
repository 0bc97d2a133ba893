//! Graphs from their words.

ghost use Rattle.std.specs.Prelude.{◌≡◌, true};
ghost use Rattle.std.specs.List.{All};
ghost use Rattle.object_arena.specs.Fit.{IsFit};
ghost use Rattle.object_arena.specs.Graph.{IsObject};

use base_core::{AttrNo, ClassId, ListOf, ObjId, ObjList, RelNo, Value};
use class_mapping::Mapping;
use graph_fits::{cell_fits, key_fits, link_fits};
use notations::{Page, number, parted};
use object_arena::{Arena, Cell, Link, State};

/// Whether an object has been made.
fn is_made(arena: &Arena, object: ObjId) -> bool
    ensures { result ≡ true → IsObject arena.now object }
{
    0 < object.0 && object.0 <= arena.count()
}

/// Whether objects have been made.
pub(crate) fn are_made(arena: &Arena, objects: &[ObjId]) -> bool
    ensures { result ≡ true → All (IsObject arena.now) objects.now }
{
    match objects.split_first() {
        Some((object, objects)) => is_made(arena, *object) && are_made(arena, objects),
        None => true,
    }
}

fn make(page: &mut Page, mapping: &Mapping, arena: &mut Arena, class: ClassId)
    requires fit { IsFit mapping.now arena.old }
    ensures { IsFit mapping.now arena.new }
{
    if class.0 >= mapping.count() {
        return page.lack();
    }
    match arena.make(mapping, class) {
        Ok(_) => {}
        Err(refusal) => page.note_done(Err(refusal)),
    }
}

fn register(page: &mut Page, mapping: &Mapping, arena: &mut Arena, object: ObjId, words: &str)
    requires fit { IsFit mapping.now arena.old }
    requires object { IsObject arena.old object }
    ensures { IsFit mapping.now arena.new }
{
    let key = page.row(words);
    if !key_fits(mapping, arena.object(object).class, &key) {
        return page.lack();
    }
    page.note_done(arena.register(object, key))
}

/// A pending object, with its add number.
fn put_pending(mapping: &Mapping, arena: &mut Arena, object: ObjId, added: u32)
    requires fit { IsFit mapping.now arena.old }
    requires object { IsObject arena.old object }
    ensures { IsFit mapping.now arena.new }
{
    arena.put_marks(object, u64::from(added), false, false);
    arena.put_state(object, State::Pending)
}

/// An object that was persistent is deleted or detached.
fn put_state(page: &mut Page, mapping: &Mapping, arena: &mut Arena, object: ObjId, letter: u8)
    requires fit { IsFit mapping.now arena.old }
    requires object { IsObject arena.old object }
    ensures { IsFit mapping.now arena.new }
{
    let known = arena.object(object).identity.is_some();
    match letter {
        b'g' if known => arena.put_state(object, State::Deleted),
        b'd' if known => arena.put_state(object, State::Detached),
        _ => page.lack(),
    }
}

/// A value, or none for `x` and for no word.
pub(crate) fn known(page: &mut Page, word: &str) -> Option<Value> {
    if word.is_empty() || word == "x" {
        None
    } else {
        Some(page.value(word))
    }
}

/// A value and its base, with a colon between them.
fn cell_of(page: &mut Page, words: &str) -> Cell {
    let (value, base) = parted(words, ':');
    Cell {
        value: known(page, value),
        base: known(page, base),
    }
}

/// Puts a cell in, where it fits.
fn put_cell(page: &mut Page, mapping: &Mapping, arena: &mut Arena, object: ObjId, words: &str)
    requires fit { IsFit mapping.now arena.old }
    requires object { IsObject arena.old object }
    ensures { IsFit mapping.now arena.new }
{
    let (place, words) = parted(words, ':');
    let attr = AttrNo(number(place));
    let attributes = mapping.attributes(arena.object(object).class);
    if attr.0 as usize >= attributes.len() {
        return page.lack();
    }
    let cell = cell_of(page, words);
    if !cell_fits(&attributes[attr.0 as usize], &cell) {
        drop(cell);
        return page.lack();
    }
    arena.put_cell(object, attr, cell)
}

/// Objects with commas between them; there may be none.
fn objects(page: &mut Page, words: &str) -> ObjList {
    let mut objects = ListOf::new(page.alloc());
    for word in words.split(',') {
        if !word.is_empty() {
            page.add(&mut objects, ObjId(number(word)));
        }
    }
    objects
}

/// The link that a word tells, by its letter.
fn link_of(page: &mut Page, letter: u8, words: &str) -> Link {
    let (first, second) = parted(words, ':');
    match letter {
        b'e' => {
            let end = ObjId(number(first));
            Link::One {
                end: if end.0 == 0 { None } else { Some(end) },
                changed: second == "1",
            }
        }
        b'm' => Link::Many {
            members: objects(page, first),
            base: objects(page, second),
        },
        _ => Link::Unloaded {
            added: objects(page, first),
            removed: objects(page, second),
        },
    }
}

/// Puts a link in, where it fits.
fn put_link(
    page: &mut Page,
    mapping: &Mapping,
    arena: &mut Arena,
    object: ObjId,
    letter: u8,
    words: &str,
)
    requires fit { IsFit mapping.now arena.old }
    requires object { IsObject arena.old object }
    ensures { IsFit mapping.now arena.new }
{
    let (place, words) = parted(words, ':');
    let place = RelNo(number(place));
    let relations = mapping.relations(arena.object(object).class);
    if place.0 as usize >= relations.len() {
        return page.lack();
    }
    let link = link_of(page, letter, words);
    if !link_fits(arena, mapping, &relations[place.0 as usize], &link) {
        drop(link);
        return page.lack();
    }
    arena.put_link(object, place, link)
}

/// What the words so far say of the preparation.
#[derive(Drop)]
pub(crate) struct Said {
    pub(crate) deleted: ObjList,
    pub(crate) transient: ObjList,
    pub(crate) cleared: ListOf<(ObjId, RelNo)>,
}

/// What a word says of the preparation.
fn prepare(page: &mut Page, said: &mut Said, letter: u8, object: ObjId, place: RelNo) {
    match letter {
        b'D' => page.add(&mut said.deleted, object),
        b'T' => page.add(&mut said.transient, object),
        b'X' => page.add(&mut said.cleared, (object, place)),
        _ => page.lack(),
    }
}

/// The letter with which a word begins, or 0.
fn letter_of(word: &str) -> u8 {
    match word.as_bytes().first() {
        Some(letter) => *letter,
        None => 0,
    }
}

/// What a word says of an object that has been made.
fn put(
    page: &mut Page,
    mapping: &Mapping,
    arena: &mut Arena,
    object: ObjId,
    letter: u8,
    words: &str,
)
    requires fit { IsFit mapping.now arena.old }
    requires object { IsObject arena.old object }
    ensures { IsFit mapping.now arena.new }
{
    match letter {
        b'k' => register(page, mapping, arena, object, words),
        b'p' => put_pending(mapping, arena, object, number(words)),
        b'c' => put_cell(page, mapping, arena, object, words),
        b'e' | b'm' | b'l' => put_link(page, mapping, arena, object, letter, words),
        _ => put_state(page, mapping, arena, object, letter),
    }
}

/// What a word says of the graph or of the preparation. The page notes a word that says nothing of them.
pub(crate) fn act(
    page: &mut Page,
    mapping: &Mapping,
    arena: &mut Arena,
    said: &mut Said,
    word: &str,
)
    requires fit { IsFit mapping.now arena.old }
    ensures { IsFit mapping.now arena.new }
{
    let letter = letter_of(word);
    let (_, words) = parted(word, ':');
    let (first, words) = parted(words, ':');
    let object = ObjId(number(first));
    if letter == b'n' {
        return make(page, mapping, arena, ClassId(number(first)));
    }
    if letter.is_ascii_uppercase() {
        return prepare(page, said, letter, object, RelNo(number(words)));
    }
    if !is_made(arena, object) {
        return page.lack();
    }
    put(page, mapping, arena, object, letter, words)
}
