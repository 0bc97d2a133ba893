//! What a row of a class's attributes tells: its key, its class, and the object that stands for it.

ghost use Rattle.std.specs.Prelude.{◌≡◌, ◌&&◌, true, filter, find, IfOk, IfSome};
ghost use Rattle.std.specs.List.{position};
ghost use Rattle.std.specs.Option.{option_copied};
ghost use Rattle.base_core.specs.Answers.{Takes};
ghost use Rattle.class_mapping.specs.Mapped.{IsClass, root_of};
ghost use Rattle.class_mapping.specs.Paired.{is_at_or_under};
ghost use Rattle.object_arena.specs.Fit.{IsFit};
ghost use Rattle.object_arena.specs.Graph.{IsObject, root_at};
ghost use Rattle.relations.specs.Parents.{is_column};
ghost use Rattle.load_selects.specs.Branches as branches;
ghost use Rattle.load_filling.specs.Growing.{Grows};
ghost use Rattle.load_filling.specs.Rows as spec;

use crate::loaded::load_object;
use base_core::{
    AttrNo, ClassId, Copied, Key, ListOf, Name, ObjId, Refusal, RequestKind, TableId, Value,
    compare,
};
use class_layouts::has_class;
use class_mapping::{Attribute, Mapping};
use object_arena::Arena;
use std::alloc::{AllocError, Global};

fn value_in(values: &[Value], attr: AttrNo) -> Result<Value, AllocError>
    ensures { IfOk result (λ value. value ≡ spec.value_in values.now attr) }
{
    match values.get(attr.0 as usize) {
        Some(value) => Ok(value.copied()?),
        None => Ok(Value::Null),
    }
}

/// The key in a row.
pub fn row_key(
    alloc: Global,
    mapping: &Mapping,
    class: ClassId,
    values: &[Value],
) -> Result<Key, AllocError>
    requires class { IsClass mapping.now class }
    ensures { IfOk result (λ key. key ≡ spec.row_key mapping.now class values.now) }
{
    let mut key = ListOf::new(alloc);
    let attrs = mapping.key_attributes(class);
    for attr in attrs {
        key.push(value_in(values, *attr)?)?;
    }
    Ok(key)
}

/// The place of the column of a name of a table.
fn place_of(attributes: &[Attribute], table: TableId, name: &Name) -> Option<usize>
    ensures { result ≡ position (is_column table name.now) attributes.now }
{
    attributes.iter().position(|attribute| attribute.table.0 == table.0 && attribute.name == *name)
}

/// What a row has for the column of a name of the root's table.
fn value_named<'a>(
    mapping: &Mapping,
    class: ClassId,
    values: &'a [Value],
    name: &Name,
) -> Option<&'a Value>
    requires class { IsClass mapping.now class }
    ensures { option_copied result ≡ spec.value_named mapping.now class values.now name.now }
{
    let table = mapping.root_table(class);
    match place_of(mapping.attributes(class), table, name) {
        Some(place) => values.get(place),
        None => None,
    }
}

/// Whether a class has the identity.
fn has_identity(mapping: &Mapping, found: Option<&Value>, other: ClassId) -> bool
    requires { IsClass mapping.now other }
    ensures { result ≡ spec.has_identity mapping.now (option_copied found.entry) other }
{
    match (&mapping.spec_of(other).identity, found) {
        (Some(one), Some(found)) => compare(one, found).is_eq(),
        _ => false,
    }
}

/// Whether a class stands under another and has the identity.
fn is_named(mapping: &Mapping, class: ClassId, found: Option<&Value>, other: ClassId) -> bool
    requires { IsClass mapping.now other }
    ensures { result ≡ (branches.is_under mapping.now class other
        && spec.has_identity mapping.now (option_copied found.entry) other) }
{
    other.0 != class.0
        && has_class(mapping.line_of(other), class.0 as usize)
        && has_identity(mapping, found, other)
}

/// The first class under another that has the identity.
fn found_under(mapping: &Mapping, class: ClassId, found: Option<&Value>) -> Option<ClassId>
    ensures named { result ≡ find (spec.has_identity mapping.now (option_copied found.entry))
        (filter (branches.is_under mapping.now class) (branches.class_ids mapping.now)) }
    ensures declared { IfSome result (IsClass mapping.now) }
    ensures under { IfSome result
        (λ other. is_at_or_under mapping.now other class ≡ true) }
{
    for number in 0..mapping.count() {
        let other = ClassId(number);
        if is_named(mapping, class, found, other) {
            return Some(other);
        }
    }
    None
}

/// The class of the branch that a row names, if it names one: the class itself where its hierarchy has no discriminator.
#[tactic(auto, unfolding(crate::specs::Rows::class_named))]
pub fn class_named(mapping: &Mapping, class: ClassId, values: &[Value]) -> Option<ClassId>
    requires class { IsClass mapping.now class }
    ensures named { result ≡ spec.class_named mapping.now class values.now }
    ensures declared { IfSome result (IsClass mapping.now) }
    ensures rooted { IfSome result
        (λ named. root_of mapping.now named ≡ root_of mapping.now class) }
{
    let root = mapping.root_of(class);
    let Some(name) = &mapping.spec_of(root).discriminator else {
        return Some(class);
    };
    let found = value_named(mapping, class, values, name);
    if has_identity(mapping, found, class) {
        return Some(class);
    }
    found_under(mapping, class, found)
}

/// The object that stands for a row: the one that the identity map has for the row's key, or one that is made, of the class that
/// the row names.
///
/// # Errors
/// `InvalidRequestError(NoSuchIdentity)` where the map lacks the key and the row names no class at or under the one that was
/// selected, then `LimitReached(Objects)`; or `Memory`. A refusal changes nothing.
#[tactic(auto, unfolding(crate::specs::Rows::row_object))]
pub fn row_object(
    alloc: Global,
    arena: &mut Arena,
    mapping: &Mapping,
    class: ClassId,
    values: &[Value],
) -> Result<ObjId, Refusal>
    requires class { IsClass mapping.now class }
    requires key { spec.HasKeyOf mapping.now class values.now }
    ensures step { Takes (λ object. object)
        (spec.row_object mapping.now class values.now arena.old) arena.old result arena.new }
    ensures exists { IfOk result (λ object. IsObject arena.new object) }
    ensures rooted { IfOk result
        (λ object. (root_at arena.new object).0 ≡ (root_of mapping.now class).0) }
    ensures grows { Grows arena.old arena.new }
    ensures fits { IsFit mapping.now arena.old → IsFit mapping.now arena.new }
{
    let key = row_key(alloc, mapping, class, values)?;
    if let Some(object) = arena.find_identity(mapping.root_of(class), &key) {
        return Ok(object);
    }
    match class_named(mapping, class, values) {
        Some(named) => load_object(arena, mapping, named, key),
        None => Err(Refusal::InvalidRequestError(RequestKind::NoSuchIdentity)),
    }
}
