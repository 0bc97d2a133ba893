//! The object to which a many-to-one link has led.

ghost use Rattle.std.specs.Prelude.{◌≡◌, ◌<◌, IfOk, true, is_none, length};
ghost use Rattle.std.specs.List.{position};
ghost use Rattle.std.specs.Option.{option_copied};
ghost use Rattle.schema_core.specs.Tables.{has_null, is_null, value_or_null};
ghost use Rattle.class_mapping.specs.Mapped.{IsClass, relations_of, root_of};
ghost use Rattle.object_arena.specs.Fit.{IsFit, relation_of};
ghost use Rattle.object_arena.specs.Graph.{IsObject, object_at};
ghost use Rattle.relations.specs.Parents as spec;

use base_core::{ClassId, Copied, Key, ListOf, Name, ObjId, RelNo, TableId, Value};
use class_mapping::{Attribute, Mapping, Relation};
use class_sides::names_of;
use object_arena::{Arena, Cell, Link, Object};
use std::alloc::{AllocError, Global};

/// What is known of the object to which a link has led.
#[derive(Clone, Copy)]
pub enum OldParent {
    /// It is this one, or none.
    Known(Option<ObjId>),
    /// It would have to be read first.
    NotKnown,
}

/// The object to which a many-to-one link has led. A loaded link leads to its object or to none, and an unset one to none.
/// For an unloaded one the identity map is asked for the values of the foreign key's cells: it leads to none where one of
/// them is NULL, and it is not known where one of them is expired or the map lacks their key. The only refusal is out of
/// memory.
pub fn old_parent(
    alloc: Global,
    arena: &Arena,
    mapping: &Mapping,
    child: ObjId,
    place: RelNo,
) -> Result<OldParent, AllocError>
    requires fit { IsFit mapping.now arena.now }
    requires child { IsObject arena.now child }
    requires relation { place.0
        < length (relations_of mapping.now (object_at arena.now child).class) }
    ensures parent { IfOk result (λ old. old ≡ spec.old_parent arena.now mapping.now child place
        (relation_of mapping.now (object_at arena.now child).class place)) }
    ensures made { IfOk result (spec.IsMade arena.now) }
{
    let relation = &mapping.relations(arena.object(child).class)[place.0 as usize];
    parent_before(alloc, arena, mapping, child, place, relation)
}

#[tactic(auto, unfolding(crate::specs::Parents::old_parent))]
/// The object to which the link of a relationship has led.
pub(crate) fn parent_before(
    alloc: Global,
    arena: &Arena,
    mapping: &Mapping,
    child: ObjId,
    place: RelNo,
    relation: &Relation,
) -> Result<OldParent, AllocError>
    requires fit { IsFit mapping.now arena.now }
    requires child { IsObject arena.now child }
    ensures parent { IfOk result (λ old. old
        ≡ spec.old_parent arena.now mapping.now child place relation.now) }
    ensures made { IfOk result (spec.IsMade arena.now) }
{
    let record = arena.object(child);
    match record.links.get(place.0 as usize) {
        None => Ok(OldParent::Known(None)),
        Some(Link::Unset) => Ok(OldParent::Known(None)),
        Some(Link::Many { .. }) => Ok(OldParent::Known(None)),
        Some(Link::One { end, .. }) => Ok(OldParent::Known(*end)),
        Some(Link::Unloaded { .. }) => parent_by_cells(alloc, arena, mapping, record, relation),
    }
}

/// The parent that the cells of an object's foreign key name.
fn parent_by_cells(
    alloc: Global,
    arena: &Arena,
    mapping: &Mapping,
    object: &Object,
    relation: &Relation,
) -> Result<OldParent, AllocError>
    requires declared { IsClass mapping.now object.now.class }
    ensures parent { IfOk result (λ old. old
        ≡ spec.parent_by_cells arena.now mapping.now object.now relation.now) }
    ensures made { IfOk result (spec.IsMade arena.now) }
{
    let attributes = mapping.attributes(object.class);
    let table = relation.foreign.0;
    let names = names_of(mapping.schema(), relation.foreign);
    let cells = object.cells.as_slice();
    if is_expired_in(attributes, cells, table, names) {
        return Ok(OldParent::NotKnown);
    }
    let key = values_in(alloc, attributes, cells, table, names)?;
    Ok(parent_under(arena, root_of(mapping, relation.target), &key))
}

/// The root of a class's hierarchy.
fn root_of(mapping: &Mapping, class: ClassId) -> ClassId
    ensures { result ≡ root_of mapping.now class }
{
    match mapping.line_of(class).get(0).copied() {
        Some(root) => root,
        None => class,
    }
}

/// The parent that the values of a foreign key name.
fn parent_under(arena: &Arena, root: ClassId, key: &Key) -> OldParent
    ensures parent { result ≡ spec.parent_under arena.now root key.now }
    ensures made { spec.IsMade arena.now result }
{
    if has_null(key.as_slice()) {
        return OldParent::Known(None);
    }
    match arena.find_identity(root, key) {
        None => OldParent::NotKnown,
        Some(found) => OldParent::Known(Some(found)),
    }
}

fn has_null(key: &[Value]) -> bool
    ensures { result ≡ has_null key.now }
{
    let Some((value, key)) = key.split_first() else {
        return false;
    };
    is_null(value) || has_null(key)
}

fn is_null(value: &Value) -> bool
    ensures { result ≡ is_null value.now }
{
    match value {
        Value::Null => true,
        Value::Bool(_) | Value::Int(_) | Value::Text(_) | Value::Bytes(_) => false,
    }
}

/// Whether the cell of one of these columns is expired.
fn is_expired_in(attributes: &[Attribute], cells: &[Cell], table: TableId, names: &[Name]) -> bool
    ensures { result ≡ spec.is_expired_in attributes.now cells.now table names.now }
{
    let Some((name, names)) = names.split_first() else {
        return false;
    };
    column_value(attributes, cells, table, name).is_none()
        || is_expired_in(attributes, cells, table, names)
}

/// The values of these columns.
fn values_in(
    alloc: Global,
    attributes: &[Attribute],
    cells: &[Cell],
    table: TableId,
    names: &[Name],
) -> Result<Key, AllocError>
    ensures { IfOk result (λ values. values
        ≡ spec.values_in attributes.now cells.now table names.now) }
{
    let mut values = ListOf::new(alloc);
    for name in names {
        values.push(copied_or_null(column_value(attributes, cells, table, name))?)?;
    }
    Ok(values)
}

fn copied_or_null(value: Option<&Value>) -> Result<Value, AllocError>
    ensures { IfOk result (λ copy. copy ≡ value_or_null (option_copied value.entry)) }
{
    match value {
        None => Ok(Value::Null),
        Some(value) => Ok(value.copied()?),
    }
}

/// The value of the cell of a table's column, unless it is expired.
fn column_value<'a>(
    attributes: &[Attribute],
    cells: &'a [Cell],
    table: TableId,
    name: &Name,
) -> Option<&'a Value>
    ensures { option_copied result ≡ spec.column_value attributes.now cells.now table name.now }
{
    value_at(cells, column_place(attributes, table, name))
}

/// The place of the attribute that is a table's column.
fn column_place(attributes: &[Attribute], table: TableId, name: &Name) -> Option<usize>
    ensures { result ≡ position (spec.is_column table name.now) attributes.now }
{
    attributes
        .iter()
        .position(|attribute| is_column(attribute, table, name))
}

fn value_at(cells: &[Cell], place: Option<usize>) -> Option<&Value>
    ensures { option_copied result ≡ spec.value_at cells.now place }
{
    match place {
        None => None,
        Some(place) => match cells.get(place) {
            None => None,
            Some(cell) => cell.value.as_ref(),
        },
    }
}

/// Whether an attribute is the column of this name of a table.
fn is_column(attribute: &Attribute, table: TableId, name: &Name) -> bool
    ensures { result ≡ spec.is_column table name.now attribute.now }
{
    attribute.table.0 == table.0 && attribute.name == *name
}

impl OldParent {
    /// Whether the old parent is known to be this object, or known to be none.
    pub fn is_known_as(self, parent: Option<ObjId>) -> bool
        ensures { result ≡ spec.is_known_as self parent }
    {
        match self {
            OldParent::Known(end) => same_end(end, parent),
            OldParent::NotKnown => false,
        }
    }
}

fn same_end(one: Option<ObjId>, other: Option<ObjId>) -> bool
    ensures { result ≡ spec.same_end one other }
{
    match (one, other) {
        (None, None) => true,
        (Some(one), Some(other)) => one.0 == other.0,
        _ => false,
    }
}
