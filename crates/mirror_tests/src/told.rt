//! What is said of a graph, in a line of text.

use base_core::{ObjId, ObjList, ObjSet, Refusal, RequestKind};
use notations::Page;
use object_arena::{Arena, Link, Object};
use object_rows::Prepared;

/// A number of one digit.
fn say_number(page: &mut Page, number: u32) {
    let digit = if number < 10 {
        (b'0' + number as u8) as char
    } else {
        '?'
    };
    page.push(digit)
}

fn say_objects(page: &mut Page, objects: &[ObjId]) {
    for object in objects {
        say_number(page, object.0);
    }
}

/// Two lists, with a slash between them.
fn say_both(page: &mut Page, letter: char, one: &ObjList, other: &ObjList) {
    page.push(letter);
    say_objects(page, one.as_slice());
    page.push('/');
    say_objects(page, other.as_slice())
}

fn say_end(page: &mut Page, end: Option<ObjId>, changed: bool) {
    page.push('e');
    match end {
        Some(end) => say_number(page, end.0),
        None => page.push('0'),
    }
    if changed {
        page.push('*');
    }
}

fn say_link(page: &mut Page, link: &Link) {
    page.push(' ');
    match link {
        Link::Unset => page.push('.'),
        Link::One { end, changed } => say_end(page, *end, *changed),
        Link::Many { members, base } => say_both(page, 'm', members, base),
        Link::Unloaded { added, removed } => say_both(page, 'l', added, removed),
    }
}

fn say_object(page: &mut Page, number: u32, object: &Object) {
    page.push(' ');
    say_number(page, number);
    if object.orphan {
        page.push('!');
    }
    for link in object.links.as_slice() {
        say_link(page, link);
    }
}

/// The answer to a change, or to a reading.
pub(crate) fn word(answer: Result<(), Refusal>) -> &'static str {
    match answer {
        Ok(()) => "Ok",
        Err(refusal) => word_of(&refusal),
    }
}

fn word_of(refusal: &Refusal) -> &'static str {
    match refusal {
        Refusal::InvalidRequestError(kind) => word_of_kind(kind),
        Refusal::ObjectDeletedError(_) => "ObjectDeletedError",
        Refusal::OperationalError(_) => "OperationalError",
        _ => "?",
    }
}

fn word_of_kind(kind: &RequestKind) -> &'static str {
    match kind {
        RequestKind::BadOwner => "BadOwner",
        RequestKind::BadMember => "BadMember",
        RequestKind::NotAMember => "NotAMember",
        RequestKind::KeyChange => "KeyChange",
        _ => "?",
    }
}

/// The objects with their links.
pub(crate) fn told(arena: &Arena, page: &mut Page) {
    for number in 0..arena.count() {
        say_object(page, number + 1, arena.object(ObjId(number + 1)));
    }
}

/// The objects of a closure, by their numbers.
pub(crate) fn say_reached(objects: &ObjSet, page: &mut Page) {
    page.put("Reaches ");
    for object in objects.as_slice() {
        say_number(page, object.0);
    }
}

/// What a flush decides: the objects that go, those that are new no more, the links that become none, and the object of which something
/// is to be read before, or 0.
pub(crate) fn say_prepared(prepared: &Prepared, unread: Option<ObjId>, page: &mut Page) {
    page.put("Goes ");
    say_objects(page, prepared.deleted.as_slice());
    page.put(" drops ");
    say_objects(page, prepared.transient.as_slice());
    page.put(" clears");
    for cleared in prepared.cleared.as_slice() {
        page.push(' ');
        say_number(page, cleared.0.0);
        say_number(page, cleared.1.0);
    }
    page.put(" reads ");
    match unread {
        Some(object) => say_number(page, object.0),
        None => page.push('0'),
    }
}
