//! The object of a row.

ghost use Rattle.std.specs.Prelude.{◌≡◌, IfOk, OnOk};
ghost use Rattle.std.specs.List.{position};
ghost use Rattle.std.specs.Option.{option_copied};
ghost use Rattle.class_mapping.specs.Mapped.{IsClass, root_of};
ghost use Rattle.object_arena.specs.Fit.{IsFit, KeepsWith};
ghost use Rattle.object_arena.specs.Graph.{IsObject, object_at, root_at};
ghost use Rattle.keeper_core.specs.Alone.{IsQuiet};
ghost use Rattle.load_filling.specs.Filled.{AreFoundFor};
ghost use Rattle.load_filling.specs.Growing.{Grows};
ghost use Rattle.load_rows.specs.Loading as spec;
ghost use Rattle.load_rows.specs.Reading.{IsRowOf};

use crate::filling::fill_noted;
use base_core::{ClassId, Copied, ListOf, ObjId, Refusal, Value};
use class_mapping::{Attribute, Mapping};
use keeper_core::Notes;
use load_filling::row_object;
use object_arena::Arena;
use std::alloc::{AllocError, Global};

/// The place of the attribute of a column.
fn place_of_column(attributes: &[Attribute], wanted: &Attribute) -> Option<usize>
    ensures { result ≡ position (spec.is_same_column wanted.now) attributes.now }
{
    attributes.iter().position(|other| {
        other.table.0 == wanted.table.0 && other.column.0 == wanted.column.0
    })
}

/// What a row of a class's attributes has for an attribute.
fn value_for(
    mapping: &Mapping,
    class: ClassId,
    values: &[Value],
    attribute: &Attribute,
) -> Result<Option<Value>, AllocError>
    requires class { IsClass mapping.now class }
    ensures { IfOk result
        (λ value. value ≡ spec.value_for mapping.now class values.now attribute.now) }
{
    let Some(place) = place_of_column(mapping.attributes(class), attribute) else {
        return Ok(None);
    };
    match values.get(place) {
        Some(value) => Ok(Some(value.copied()?)),
        None => Ok(None),
    }
}

/// What a row of a class's attributes has for the cells of an object of another class, one by one.
fn found_in_row(
    alloc: Global,
    mapping: &Mapping,
    class: ClassId,
    values: &[Value],
    own: ClassId,
) -> Result<ListOf<Option<Value>>, AllocError>
    requires class { IsClass mapping.now class }
    requires own { IsClass mapping.now own }
    ensures { IfOk result
        (λ found. found ≡ spec.found_in_row mapping.now class values.now own) }
{
    let mut found = ListOf::new(alloc);
    let attributes = mapping.attributes(own);
    for attribute in attributes {
        found.push(value_for(mapping, class, values, attribute)?)?;
    }
    Ok(found)
}

/// The expired cells of an object hold what a row has for them, and the object is noted where one was filled.
fn fill_by_row(
    alloc: Global,
    arena: &mut Arena,
    mapping: &Mapping,
    class: ClassId,
    values: &[Value],
    object: ObjId,
    notes: &mut Notes,
) -> Result<(), AllocError>
    requires class { IsClass mapping.now class }
    requires fit { IsFit mapping.now arena.old }
    requires object { IsObject arena.old object }
    ensures filled { OnOk result (spec.loading arena.new notes.new
        ≡ spec.filled_by_row mapping.now class values.now object
        (spec.loading arena.old notes.old)) }
    ensures keeps { KeepsWith (AreFoundFor (object_at arena.old object).class
        (spec.found_in_row mapping.now class values.now (object_at arena.old object).class))
        arena.old arena.new }
{
    let own = arena.object(object).class;
    let found = found_in_row(alloc, mapping, class, values, own)?;
    fill_noted(arena, object, found.as_slice(), notes)
}

/// The object that stands for a row, whose expired cells hold what the row has for them: the one that the identity map has for the
/// row's key, or one that is made, of the class that the row names. It is noted where a cell was filled.
///
/// # Errors
/// `InvalidRequestError(NoSuchIdentity)` where the map lacks the key and the row names no class at or under the one that was
/// selected, then `LimitReached(Objects)`; they change nothing. `Memory`, after which the object may have been made.
pub fn take_row(
    alloc: Global,
    arena: &mut Arena,
    mapping: &Mapping,
    class: ClassId,
    values: &[Value],
    notes: &mut Notes,
) -> Result<ObjId, Refusal>
    requires class { IsClass mapping.now class }
    requires fit { IsFit mapping.now arena.old }
    requires row { IsRowOf mapping.now class values.now }
    ensures step { IsQuiet (λ object. object)
        (spec.take_row mapping.now class values.now (spec.loading arena.old notes.old))
        result (spec.loading arena.new notes.new) }
    ensures exists { IfOk result (λ object. IsObject arena.new object) }
    ensures rooted { IfOk result
        (λ object. (root_at arena.new object).0 ≡ (root_of mapping.now class).0) }
    ensures grows { Grows arena.old arena.new }
    ensures fits { IsFit mapping.now arena.new }
{
    let object = row_object(alloc, arena, mapping, class, values)?;
    fill_by_row(alloc, arena, mapping, class, values, object, notes)?;
    Ok(object)
}
