//! Whether links, cells and keys fit a mapping.

ghost use Rattle.std.specs.Prelude.{◌≡◌, true};
ghost use Rattle.std.specs.List.{list_all, zip};
ghost use Rattle.class_mapping.specs.Mapped.{IsClass, root_of};
ghost use Rattle.object_arena.specs.Fit as spec;
ghost use Rattle.graph_fits.specs.Keys.{is_value};

use base_core::{AttrNo, ClassId, Key, Kind, ObjId, ObjList, Value};
use class_mapping::{Attribute, Mapping, Relation};
use object_arena::{Arena, Cell, Link};
use schema_core::{kind_of_value, same_kind};

/// Whether an object has been made and is of the root's hierarchy.
fn is_of_root(arena: &Arena, root: ClassId, object: ObjId) -> bool
    ensures { result ≡ spec.is_of_root arena.now.roots root object }
{
    if object.0 == 0 || object.0 > arena.count() {
        return false;
    }
    arena.root_at(object).0 == root.0
}

fn are_of_root(arena: &Arena, root: ClassId, objects: &ObjList) -> bool
    ensures { result ≡ list_all (spec.is_of_root arena.now.roots root) objects.now }
{
    objects
        .as_slice()
        .iter()
        .all(|object| is_of_root(arena, root, *object))
}

fn end_fits(arena: &Arena, root: ClassId, end: Option<ObjId>) -> bool
    ensures { result ≡ spec.end_fits arena.now.roots root end }
{
    match end {
        None => true,
        Some(end) => is_of_root(arena, root, end),
    }
}

/// Whether a link fits a relationship to the root's hierarchy.
fn held_fit(arena: &Arena, root: ClassId, many: bool, link: &Link) -> bool
    ensures { result ≡ spec.held_fit arena.now.roots root many link.now }
{
    match link {
        Link::Unset => true,
        Link::One { end, .. } => !many && end_fits(arena, root, *end),
        Link::Many { members, base } => {
            many && are_of_root(arena, root, members) && are_of_root(arena, root, base)
        }
        Link::Unloaded { added, removed } => {
            (added.is_empty() && removed.is_empty() || many)
                && are_of_root(arena, root, added)
                && are_of_root(arena, root, removed)
        }
    }
}

/// Whether a link fits a relationship.
pub fn link_fits(arena: &Arena, mapping: &Mapping, relation: &Relation, link: &Link) -> bool
    ensures { result ≡ true
        → spec.link_fits mapping.now arena.now.roots relation.now link.now ≡ true }
{
    if relation.target.0 >= mapping.count() {
        return false;
    }
    held_fit(arena, mapping.root_of(relation.target), relation.many, link)
}

/// Whether a value is one of the kind of a column of the key.
fn value_fits(attributes: &[Attribute], attr: AttrNo, value: &Value) -> bool
    ensures { result ≡ is_value attributes.now attr value.now }
{
    match attributes.get(attr.0 as usize) {
        None => false,
        Some(attribute) => is_just_of_kind(attribute.kind, kind_of_value(value)),
    }
}

fn is_just_of_kind(wanted: Kind, found: Option<Kind>) -> bool
    ensures { result ≡ spec.is_just_of_kind wanted found }
{
    match found {
        None => false,
        Some(found) => same_kind(wanted, found),
    }
}

/// Whether a key has a value of its kind for each column of the key of a class.
pub fn key_fits(mapping: &Mapping, class: ClassId, key: &Key) -> bool
    requires declared { IsClass mapping.now class }
    ensures { result ≡ true → spec.key_fits mapping.now class key.now ≡ true }
{
    let keys = mapping.key_attributes(class);
    let attributes = mapping.attributes(class);
    keys.len() == key.len() && values_fit(attributes, keys, key.as_slice())
}

/// Whether each value is one of the kind of its column of the key.
fn values_fit(attributes: &[Attribute], keys: &[AttrNo], values: &[Value]) -> bool
    ensures { result ≡ list_all (λ given. is_value attributes.now given.0 given.1)
        (zip keys.now values.now) }
{
    keys.iter()
        .zip(values.iter())
        .all(|(attr, value)| value_fits(attributes, *attr, value))
}

/// Whether a value is NULL or of a kind.
fn is_of_kind(wanted: Kind, found: Option<Kind>) -> bool
    ensures { result ≡ spec.is_of_kind wanted found }
{
    match found {
        None => true,
        Some(found) => same_kind(wanted, found),
    }
}

/// Whether a value that may not be known is NULL or of an attribute's kind.
fn known_fits(attribute: &Attribute, value: &Option<Value>) -> bool
    ensures { result ≡ spec.value_fits attribute.now value.now }
{
    match value {
        None => true,
        Some(value) => is_of_kind(attribute.kind, kind_of_value(value)),
    }
}

/// Whether what a cell holds is NULL or of its attribute's kind.
pub fn cell_fits(attribute: &Attribute, cell: &Cell) -> bool
    ensures { result ≡ spec.cell_fits attribute.now cell.now }
{
    known_fits(attribute, &cell.value) && known_fits(attribute, &cell.base)
}
