//! The cells of foreign keys.

ghost use Rattle.std.specs.Prelude.{◌≡◌, true, is_none, IfOk};
ghost use Rattle.std.specs.List.{position};
ghost use Rattle.std.specs.Option.{option_copied};
ghost use Rattle.schema_core.specs.Tables.{value_or_null};
ghost use Rattle.class_mapping.specs.Configured.{IsConfigured};
ghost use Rattle.class_mapping.specs.Mapped.{IsClass};
ghost use Rattle.relations.specs.Parents.{is_column};
ghost use Rattle.load_targets.specs.ForeignKeys as spec;

use base_core::{AttrNo, ClassId, Copied, Key, ListOf, Name, TableId, Value};
use class_layouts::number_of;
use class_mapping::{Attribute, Mapping, Relation};
use class_sides::names_of;
use object_arena::Object;
use std::alloc::{AllocError, Global};

fn place_named(attributes: &[Attribute], table: TableId, name: &Name) -> Option<usize>
    ensures { result ≡ position (is_column table name.now) attributes.now }
{
    attributes.iter().position(|attribute| attribute.table.0 == table.0 && attribute.name == *name)
}

/// The attribute of the column of a name; where there is none, a number that no attribute has.
fn attr_named(attributes: &[Attribute], table: TableId, name: &Name) -> Result<AttrNo, AllocError>
    ensures { IfOk result (λ attr. attr ≡ spec.attr_named attributes.now table name.now) }
{
    match place_named(attributes, table, name) {
        Some(place) => Ok(AttrNo(number_of(place)?)),
        None => Ok(AttrNo(number_of(attributes.len())?)),
    }
}

/// The attributes of a class that are the columns of a relationship's foreign key, in the key's order; in the place of a column
/// of which the class has no attribute, how many attributes it has. Of the mapping all was checked, as of each.
#[tactic(auto, unfolding(crate::specs::ForeignKeys::foreign_attrs))]
pub fn foreign_attrs(
    alloc: Global,
    mapping: &Mapping,
    class: ClassId,
    relation: &Relation,
) -> Result<ListOf<AttrNo>, AllocError>
    requires class { IsClass mapping.now class }
    ensures attrs { IfOk result
        (λ attrs. attrs ≡ spec.foreign_attrs mapping.now class relation.now) }
    ensures configured { IsConfigured mapping.now }
{
    let mut attrs = ListOf::new(alloc);
    let attributes = mapping.attributes(class);
    let names = names_of(mapping.schema(), relation.foreign);
    for name in names {
        attrs.push(attr_named(attributes, relation.foreign.0, name)?)?;
    }
    Ok(attrs)
}

/// The value of a cell, unless it is expired.
fn value_of(object: &Object, attr: AttrNo) -> Option<&Value>
    ensures { option_copied result ≡ spec.value_of object.now attr }
{
    match object.cells.get(attr.0 as usize) {
        Some(cell) => cell.value.as_ref(),
        None => None,
    }
}

fn is_expired(object: &Object, attr: AttrNo) -> bool
    ensures { result ≡ is_none (spec.value_of object.now attr) }
{
    match value_of(object, attr) {
        Some(_value) => false,
        None => true,
    }
}

/// Whether one of these cells is expired.
pub(crate) fn is_expired_among(object: &Object, attrs: &[AttrNo]) -> bool
    ensures { result ≡ spec.is_expired_among attrs.now object.now }
{
    attrs.iter().any(|attr| is_expired(object, *attr))
}

fn value_at(object: &Object, attr: AttrNo) -> Result<Value, AllocError>
    ensures { IfOk result (λ value. value ≡ spec.value_at object.now attr) }
{
    match value_of(object, attr) {
        Some(value) => Ok(value.copied()?),
        None => Ok(Value::Null),
    }
}

/// What these cells hold, NULL in the place of one that is expired.
pub fn values_at(alloc: Global, object: &Object, attrs: &[AttrNo]) -> Result<Key, AllocError>
    ensures { IfOk result (λ values. values ≡ spec.values_at attrs.now object.now) }
{
    let mut values = ListOf::new(alloc);
    for attr in attrs {
        values.push(value_at(object, *attr)?)?;
    }
    Ok(values)
}
