//! Whether two records of objects are the same.

ghost use Rattle.std.specs.Prelude.{◌≡◌, ◌↔◌, IsTrue};
ghost use Rattle.std.specs.Cmp.Lexicographic.{pointwise};
ghost use Rattle.base_core.specs.Order.{same_value};
ghost use Rattle.schema_core.specs.Tables.{same_values};
ghost use Rattle.object_records.specs.Same as spec;

use base_core::{Key, ObjId, Value, compare};
use object_arena::{Cell, Link, Object, State};

/// Whether both values are there and equal, or none is there.
fn same_value(one: &Option<Value>, other: &Option<Value>) -> bool
    ensures { result ≡ spec.both_alike same_value one.now other.now }
{
    match (one, other) {
        (Some(one), Some(other)) => compare(one, other).is_eq(),
        (None, None) => true,
        (Some(_), None) | (None, Some(_)) => false,
    }
}

/// Whether both keys are there and equal, or none is there.
fn same_key(one: &Option<Key>, other: &Option<Key>) -> bool
    ensures { result ≡ spec.both_alike same_values one.now other.now }
{
    match (one, other) {
        (Some(one), Some(other)) => one.cmp(other).is_eq(),
        (None, None) => true,
        (Some(_), None) | (None, Some(_)) => false,
    }
}

/// Whether both objects are there and one, or none is there.
fn same_end(one: Option<ObjId>, other: Option<ObjId>) -> bool
    ensures { result ≡ spec.both_alike spec.same_id one other }
{
    match (one, other) {
        (Some(one), Some(other)) => one.0 == other.0,
        (None, None) => true,
        (Some(_), None) | (None, Some(_)) => false,
    }
}

pub(crate) fn same_bool(one: bool, other: bool) -> bool
    ensures { result ≡ spec.same_bool one other }
{
    if one { other } else { !other }
}

fn same_state(one: State, other: State) -> bool
    ensures { result ≡ spec.same_state one other }
{
    match one {
        State::Transient => matches!(other, State::Transient),
        State::Pending => matches!(other, State::Pending),
        State::Persistent => matches!(other, State::Persistent),
        State::Deleted => matches!(other, State::Deleted),
        State::Detached => matches!(other, State::Detached),
    }
}

/// Whether two cells hold the same and have the same base.
pub fn same_cell(one: &Cell, other: &Cell) -> bool
    ensures { result ≡ spec.same_cell one.now other.now }
{
    same_value(&one.value, &other.value) && same_value(&one.base, &other.base)
}

#[tactic(auto, using(schema_core::proofs::Steps::pair_steps))]
fn same_ids(one: &[ObjId], other: &[ObjId]) -> bool
    ensures { result ≡ pointwise spec.same_id one.now other.now }
{
    for (place, object) in one.iter().enumerate() {
        if place >= other.len() || object.0 != other[place].0 {
            return false;
        }
    }
    one.len() == other.len()
}

/// Whether two links are the same, with what they keep.
pub(crate) fn same_link(one: &Link, other: &Link) -> bool
    ensures { result ≡ spec.same_link one.now other.now }
{
    match (one, other) {
        (Link::Unset, Link::Unset) => true,
        (
            Link::Unloaded { added, removed },
            Link::Unloaded {
                added: more,
                removed: less,
            },
        ) => same_ids(added.as_slice(), more.as_slice())
            && same_ids(removed.as_slice(), less.as_slice()),
        (
            Link::One { end, changed },
            Link::One {
                end: other,
                changed: new,
            },
        ) => same_end(*end, *other) && same_bool(*changed, *new),
        (
            Link::Many { members, base },
            Link::Many {
                members: others,
                base: before,
            },
        ) => same_ids(members.as_slice(), others.as_slice())
            && same_ids(base.as_slice(), before.as_slice()),
        _ => false,
    }
}

#[tactic(auto, using(schema_core::proofs::Steps::pair_steps))]
fn same_cells(one: &[Cell], other: &[Cell]) -> bool
    ensures { result ≡ pointwise spec.same_cell one.now other.now }
{
    for (place, cell) in one.iter().enumerate() {
        if place >= other.len() || !same_cell(cell, &other[place]) {
            return false;
        }
    }
    one.len() == other.len()
}

#[tactic(auto, using(schema_core::proofs::Steps::pair_steps))]
fn same_links(one: &[Link], other: &[Link]) -> bool
    ensures { result ≡ pointwise spec.same_link one.now other.now }
{
    for (place, link) in one.iter().enumerate() {
        if place >= other.len() || !same_link(link, &other[place]) {
            return false;
        }
    }
    one.len() == other.len()
}

/// Whether two objects stand alike.
fn same_standing(one: &Object, other: &Object) -> bool
    ensures { result ≡ spec.same_standing one.now other.now }
{
    one.class.0 == other.class.0
        && (same_state(one.state, other.state)
            && (same_key(&one.identity, &other.identity)
                && (one.added == other.added
                    && (same_bool(one.marked, other.marked)
                        && same_bool(one.orphan, other.orphan)))))
}

/// Whether two objects stand alike, and have the same cells and links.
#[tactic(auto, unfolding(crate::specs::Same::same_object))]
fn has_same_parts(one: &Object, other: &Object) -> bool
    ensures { result ≡ spec.same_object one.now other.now }
{
    same_standing(one, other)
        && (same_cells(one.cells.as_slice(), other.cells.as_slice())
            && same_links(one.links.as_slice(), other.links.as_slice()))
}

/// Whether two records of objects are the same, which is so exactly where they are equal.
#[tactic(auto, using(crate::proofs::Exact::records))]
pub fn same_object(one: &Object, other: &Object) -> bool
    ensures test { result ≡ spec.same_object one.now other.now }
    ensures same { IsTrue result ↔ (one.now ≡ other.now) }
{
    has_same_parts(one, other)
}
