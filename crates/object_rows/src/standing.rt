//! Where objects stand once a flush is prepared, and what their links are.

ghost use Rattle.std.specs.Prelude.{◌≡◌, IfOk};
ghost use Rattle.std.specs.Prelude.{slice_index_or};
ghost use Rattle.base_core.specs.declared.value.Value.TheVariants.{Null};
ghost use Rattle.object_arena.specs.declared.object.Link.TheVariants.{Unset};
ghost use Rattle.object_arena.specs.Graph.{is_pending, is_persistent, object_at};
ghost use Rattle.object_rows.specs.Seen as spec;
ghost use Rattle.object_rows.specs.Cells.{key_value};

use crate::prepared::Prepared;
use base_core::{Copied, Key, ObjId, RelNo, Value};
use object_arena::{Arena, Link, State};
use object_parts::changed_end;
use std::alloc::AllocError;

/// An object's state; one that has not been made is transient.
fn state_of(arena: &Arena, object: ObjId) -> State
    ensures { result ≡ (object_at arena.now object).state }
{
    let place = object.0.saturating_sub(1);
    if place < arena.count() {
        return arena.state_of(ObjId(place + 1));
    }
    State::Transient
}

fn is_pending(state: State) -> bool
    ensures { result ≡ is_pending state }
{
    matches!(state, State::Pending)
}

fn is_persistent(state: State) -> bool
    ensures { result ≡ is_persistent state }
{
    matches!(state, State::Persistent)
}

/// Whether an object's rows are to be made.
pub fn is_new(arena: &Arena, prepared: &Prepared, object: ObjId) -> bool
    ensures { result ≡ spec.is_new arena.now prepared.now object }
{
    is_pending(state_of(arena, object)) && !prepared.transient.has(object)
}

/// Whether an object has rows, and keeps them.
pub fn keeps_rows(arena: &Arena, prepared: &Prepared, object: ObjId) -> bool
    ensures { result ≡ spec.keeps_rows arena.now prepared.now object }
{
    is_persistent(state_of(arena, object)) && !prepared.deleted.has(object)
}

/// Whether an object is in the session.
pub fn is_in_session(arena: &Arena, prepared: &Prepared, object: ObjId) -> bool
    ensures { result ≡ spec.is_in_session arena.now prepared.now object }
{
    is_persistent(state_of(arena, object)) || is_new(arena, prepared, object)
}

/// Whether an end is none, or in the session.
pub fn is_kept_end(arena: &Arena, prepared: &Prepared, end: Option<ObjId>) -> bool
    ensures { result ≡ spec.is_kept_end arena.now prepared.now end }
{
    match end {
        Some(end) => is_in_session(arena, prepared, end),
        None => true,
    }
}

/// Whether an object's link is to become none.
pub fn is_cleared(prepared: &Prepared, object: ObjId, relation: RelNo) -> bool
    ensures { result ≡ spec.is_cleared prepared.now object relation }
{
    prepared.cleared.has(object, relation)
}

/// The end of a many-to-one link of these, where it was changed.
fn end_among(links: &[Link], relation: RelNo) -> Option<Option<ObjId>>
    ensures { result ≡ spec.changed_end (slice_index_or links.now relation.0 Unset) }
{
    match links.get(relation.0 as usize) {
        Some(link) => changed_end(link),
        None => None,
    }
}

/// The end of an object's many-to-one link, where it was changed or is to become none.
pub fn end_put(
    arena: &Arena,
    prepared: &Prepared,
    object: ObjId,
    relation: RelNo,
) -> Option<Option<ObjId>>
    ensures { result ≡ spec.end_put arena.now prepared.now object relation }
{
    if is_cleared(prepared, object, relation) {
        return Some(None);
    }
    let place = object.0.saturating_sub(1);
    if place < arena.count() {
        return end_among(arena.object(ObjId(place + 1)).links.as_slice(), relation);
    }
    None
}

/// A part of a key, or NULL.
pub fn part_of_key(key: &Key, part: u32) -> Result<Value, AllocError>
    ensures { IfOk result (λ value. value ≡ slice_index_or key.now part Null) }
{
    match key.get(part as usize) {
        Some(value) => Ok(value.copied()?),
        None => Ok(Value::Null),
    }
}

/// A part of the key of an identity, or NULL.
pub fn key_value(identity: &Option<Key>, part: u32) -> Result<Value, AllocError>
    ensures { IfOk result (λ value. value ≡ key_value identity.now part) }
{
    match identity {
        Some(key) => part_of_key(key, part),
        None => Ok(Value::Null),
    }
}

/// A part of the key that an object has, or NULL.
pub fn identity_value(arena: &Arena, object: ObjId, part: u32) -> Result<Value, AllocError>
    ensures { IfOk result
        (λ value. value ≡ key_value (object_at arena.now object).identity part) }
{
    let place = object.0.saturating_sub(1);
    if place < arena.count() {
        return key_value(&arena.object(ObjId(place + 1)).identity, part);
    }
    Ok(Value::Null)
}
