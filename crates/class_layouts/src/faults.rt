//! Why a block of a class is refused.

ghost use Rattle.std.specs.Prelude.{◌≡◌, ◌&&◌, ◌++◌, IfOk, OnOk, find, length, map, take, ◌<◌, Some};
ghost use Rattle.std.specs.Option.{option_and_then, option_copied};
ghost use Rattle.std.specs.List.{enumerate_from, flat_map, list_any};
ghost use Rattle.schema_core.specs.Catalog.{has_name, same_name};
ghost use Rattle.schema_core.specs.Tables.{kind_of_value};
ghost use Rattle.schema_core.specs.Declaration.{some_two};
ghost use Rattle.class_types.specs.Shown.{rules_of};
ghost use Rattle.class_layouts.specs.Columns.{attributes_on};
ghost use Rattle.class_layouts.specs.Faults.{discriminator_on, fails_discriminator, fault_at, fault_of_lines, first_fault, has_kind, is_bad_cascade, is_bad_hook, is_discriminating, is_named, misses_declaration, names_on, repeats_identity, root_table_on, takes_identity, takes_in};
ghost use Rattle.class_layouts.specs.Hierarchy.{relations_at, root_in};

use crate::Classes;
use crate::columns::{foreigns_of, own_table, tables_on};
use crate::layout::attributes_on;
use crate::lookup::{line_of, relations_at, root_in, same_root};
use base_core::{ArgumentKind, ClassId, Copied, Kind, ListOf, Name, TableId, Value};
use class_blocks::{
    cascade_or_default, columns_of, has_name, is_declared, is_named, maps_name, named_table,
    shares_identity,
};
use class_types::{Attribute, ClassSpec, Hooks, RelationSpec};
use schema_core::{ColumnSpec, ForeignSpec, Schema, kind_of, kind_of_value, same_kind};
use std::alloc::{AllocError, Global};

// ---- DuplicateName

/// The names of relationships go behind others.
fn push_relation_names(
    names: &mut ListOf<Name>,
    relations: &[RelationSpec],
) -> Result<(), AllocError>
    ensures { OnOk result (names.new
        ≡ names.old ++ map (λ relation. relation.name) relations.now) }
{
    for relation in relations {
        names.push(relation.name.copied()?)?;
    }
    Ok(())
}

/// The names of attributes go behind others.
fn push_attribute_names(
    names: &mut ListOf<Name>,
    attributes: &[Attribute],
) -> Result<(), AllocError>
    ensures { OnOk result (names.new
        ≡ names.old ++ map (λ attribute. attribute.name) attributes.now) }
{
    for attribute in attributes {
        names.push(attribute.name.copied()?)?;
    }
    Ok(())
}

#[tactic(auto, using(crate::proofs::Steps::steps))]
/// The names of the relationships of the classes of a line.
fn relation_names(
    alloc: Global,
    classes: &Classes,
    line: &[ClassId],
) -> Result<ListOf<Name>, AllocError>
    ensures { IfOk result (λ names. names
        ≡ flat_map (λ class. map
        (λ relation. relation.name) (relations_at classes.now class.0)) line.now) }
{
    let mut names = ListOf::new(alloc);
    for class in line {
        push_relation_names(&mut names, relations_at(classes, class.0 as usize))?;
    }
    Ok(names)
}

/// The names of what the class of a line has: its relationships and its attributes, inherited ones included.
fn names_on(
    alloc: Global,
    schema: &Schema,
    classes: &Classes,
    line: &[ClassId],
    attributes: &[Attribute],
) -> Result<ListOf<Name>, AllocError>
    requires { attributes.now ≡ attributes_on schema.now.tables classes.now line.now }
    ensures { IfOk result (λ names. names ≡ names_on schema.now.tables classes.now line.now) }
{
    let mut names = relation_names(alloc, classes, line)?;
    push_attribute_names(&mut names, attributes)?;
    Ok(names)
}

#[tactic(auto, using(schema_core::proofs::SomeTwo::some_two_steps))]
/// Whether a name stands twice.
pub fn repeats(names: &[Name]) -> bool
    ensures { result ≡ some_two same_name names.now }
{
    for (place, name) in names.iter().enumerate() {
        if has_name(&names[place + 1..], name) {
            return true;
        }
    }
    false
}

// ---- BadClass

/// Whether what a class names is not declared: the class that it extends, or its table; or it names neither.
fn misses_declaration(schema: &Schema, spec: &ClassSpec, line: &[ClassId]) -> bool
    ensures { result ≡ misses_declaration schema.now.tables spec.now line.now }
{
    (spec.base.is_some() && line.len() == 1)
        || (named_table(schema, &spec.table).is_none()
            && (spec.table.is_some() || spec.base.is_none()))
}

// ---- NoDiscriminator

/// Whether a column of this kind can tell classes apart.
fn is_discriminating(kind: Kind) -> bool
    ensures { result ≡ is_discriminating kind }
{
    match kind {
        Kind::Integer => true,
        Kind::Text => true,
        _ => false,
    }
}

fn has_kind(found: Option<Kind>, kind: Kind) -> bool
    ensures { result ≡ has_kind found kind }
{
    match found {
        Some(found) => same_kind(found, kind),
        None => false,
    }
}

/// The kind of an identity, if it has one.
fn kind_of_identity(identity: &Option<Value>) -> Option<Kind>
    ensures { result ≡ option_and_then kind_of_value identity.now }
{
    match identity {
        Some(value) => kind_of_value(value),
        None => None,
    }
}

/// Whether a foreign key has the column.
fn some_foreign_has(foreigns: &[ForeignSpec], name: &Name) -> bool
    ensures { result ≡ list_any (λ foreign. has_name foreign.columns name.now) foreigns.now }
{
    foreigns
        .iter()
        .any(|foreign| has_name(foreign.columns.as_slice(), name))
}

/// Whether a column can tell classes apart, and an identity is of its kind.
fn takes_identity(foreigns: &[ForeignSpec], identity: &Option<Value>, column: &ColumnSpec) -> bool
    ensures { result ≡ takes_identity foreigns.now identity.now (Some column.now) }
{
    is_discriminating(kind_of(column.kind))
        && !column.key
        && !some_foreign_has(foreigns, &column.name)
        && has_kind(kind_of_identity(identity), kind_of(column.kind))
}

/// The column of a name.
pub fn column_of<'a>(columns: &'a [ColumnSpec], name: &Name) -> Option<&'a ColumnSpec>
    ensures { option_copied result ≡ find (λ column. same_name column.name name.now) columns.now }
{
    columns.iter().find(|column| column.name == *name)
}

/// Whether the column of a name of a table takes the identity.
fn takes_at(schema: &Schema, name: &Name, identity: &Option<Value>, table: TableId) -> bool
    ensures { result ≡ takes_in schema.now.tables name.now identity.now (Some table) }
{
    match column_of(columns_of(schema, table), name) {
        Some(column) => takes_identity(foreigns_of(schema, table), identity, column),
        None => false,
    }
}

/// Whether the discriminator of a root is a column of its table that takes the identity.
fn takes_in(schema: &Schema, name: &Name, identity: &Option<Value>, table: Option<TableId>) -> bool
    ensures { result ≡ takes_in schema.now.tables name.now identity.now table }
{
    match table {
        Some(table) => takes_at(schema, name, identity, table),
        None => false,
    }
}

/// Whether the discriminator is none, or takes no such identity.
fn fails_discriminator(
    schema: &Schema,
    table: Option<TableId>,
    name: &Option<Name>,
    identity: &Option<Value>,
    line: &[ClassId],
) -> bool
    ensures { result ≡ fails_discriminator schema.now.tables table name.now identity.now line.now }
{
    match name {
        Some(name) => !takes_in(schema, name, identity, table),
        None => line.len() != 1,
    }
}

/// Whether the hierarchy of a root has a discriminator that takes the identity, where it needs one.
fn fails_in(
    schema: &Schema,
    classes: &Classes,
    root: Option<ClassId>,
    identity: &Option<Value>,
    line: &[ClassId],
) -> bool
    ensures { result ≡ fails_discriminator schema.now.tables
        (root_table_on schema.now.tables classes.now root)
        (discriminator_on classes.now root) identity.now line.now }
{
    let Some(root) = root else {
        return fails_discriminator(schema, None, &None, identity, line);
    };
    let place = root.0 as usize;
    match classes.specs.get(place) {
        Some(spec) => fails_discriminator(
            schema,
            own_table(schema, classes, place),
            &spec.discriminator,
            identity,
            line,
        ),
        None => fails_discriminator(schema, None, &None, identity, line),
    }
}

/// Whether the discriminator of the hierarchy of a root has the name.
pub fn discriminator_is(classes: &Classes, root: Option<ClassId>, name: &Name) -> bool
    ensures { result ≡ is_named (discriminator_on classes.now root) name.now }
{
    let Some(root) = root else {
        return false;
    };
    match classes.specs.get(root.0 as usize) {
        Some(spec) => is_named(&spec.discriminator, name),
        None => false,
    }
}

// ---- DuplicateIdentity

/// Whether another class of the hierarchy has the identity.
fn repeats_identity(
    classes: &Classes,
    spec: &ClassSpec,
    root: Option<ClassId>,
    others: &[ClassSpec],
) -> bool
    ensures { result ≡ repeats_identity classes.now spec.now root others.now }
{
    others.iter().enumerate().any(|(class, other)| {
        shares_identity(other, spec) && same_root(root_in(line_of(classes, class)), root)
    })
}

// ---- BadCascade

/// Whether a relationship has delete-orphan without delete, or is another one than one-to-many.
fn is_bad_cascade(relation: &RelationSpec) -> bool
    ensures { result ≡ is_bad_cascade relation.now }
{
    let cascade = cascade_or_default(relation.cascade);
    cascade.delete_orphan && (!cascade.delete || !relation.many || relation.secondary.is_some())
}

// ---- BadHook

/// The attribute of a name.
fn attribute_of<'a>(attributes: &'a [Attribute], name: &Name) -> Option<&'a Attribute>
    ensures { option_copied result
        ≡ find (λ attribute. same_name attribute.name name.now) attributes.now }
{
    attributes.iter().find(|attribute| attribute.name == *name)
}

/// Whether there is no such attribute, or no validator of its kind.
fn is_bad_hook(hooks: &Hooks, attributes: &[Attribute], attribute: &Name, hook: &Name) -> bool
    ensures { result ≡ is_bad_hook (rules_of hooks.now) attributes.now (attribute.now, hook.now) }
{
    match attribute_of(attributes, attribute) {
        Some(attribute) => !has_kind(hooks.kind_of(hook), attribute.kind),
        None => true,
    }
}

#[tactic(auto, using(schema_core::proofs::AnySteps::any_steps))]
/// Whether a validator is a bad one beside these attributes.
fn some_bad_hook(hooks: &Hooks, attributes: &[Attribute], validators: &[(Name, Name)]) -> bool
    ensures { result ≡ list_any (is_bad_hook (rules_of hooks.now) attributes.now) validators.now }
{
    for validator in validators {
        if is_bad_hook(hooks, attributes, &validator.0, &validator.1) {
            return true;
        }
    }
    false
}

/// Whether a validator of a class is a bad one, where the attributes of the class of the line are known.
fn has_bad_hook(
    hooks: &Hooks,
    schema: &Schema,
    classes: &Classes,
    line: &[ClassId],
    attributes: &[Attribute],
    spec: &ClassSpec,
) -> bool
    requires { attributes.now ≡ attributes_on schema.now.tables classes.now line.now }
    ensures { result ≡ list_any
        (is_bad_hook (rules_of hooks.now)
        (attributes_on schema.now.tables classes.now line.now)) spec.now.validators }
{
    some_bad_hook(hooks, attributes, spec.validators.as_slice())
}

// ---- the first fault

/// Whether a relationship of a class has flags that it may not have.
fn some_bad_cascade(relations: &[RelationSpec]) -> bool
    ensures { result ≡ list_any is_bad_cascade relations.now }
{
    relations.iter().any(is_bad_cascade)
}

#[tactic(auto, unfolding(crate::specs::Faults::fault_of_lines))]
/// The first fault of a class's lines, where the attributes of the class of the line are known.
fn fault_of_lines(
    hooks: &Hooks,
    schema: &Schema,
    classes: &Classes,
    spec: &ClassSpec,
    line: &[ClassId],
    attributes: &[Attribute],
) -> Option<ArgumentKind>
    requires { attributes.now ≡ attributes_on schema.now.tables classes.now line.now }
    ensures { result ≡ fault_of_lines
        (rules_of hooks.now) schema.now.tables classes.now spec.now line.now }
{
    if some_bad_cascade(spec.relations.as_slice()) {
        return Some(ArgumentKind::BadCascade);
    }
    if has_bad_hook(hooks, schema, classes, line, attributes, spec) {
        return Some(ArgumentKind::BadHook);
    }
    None
}

#[tactic(auto, unfolding(crate::specs::Faults::first_fault))]
/// The first fault of a declaration beside the classes before it.
fn first_fault(
    alloc: Global,
    hooks: &Hooks,
    schema: &Schema,
    others: &[ClassSpec],
    classes: &Classes,
    spec: &ClassSpec,
    line: &[ClassId],
) -> Result<Option<ArgumentKind>, AllocError>
    ensures { IfOk result (λ fault. fault
        ≡ first_fault (rules_of hooks.now) schema.now.tables others.now classes.now spec.now
        line.now) }
{
    let tables = tables_on(alloc, schema, classes, line)?;
    let attributes = attributes_on(alloc, schema, classes, line, tables.as_slice())?;
    let names = names_on(alloc, schema, classes, line, attributes.as_slice())?;
    if is_declared(others, &spec.name) || repeats(names.as_slice()) {
        return Ok(Some(ArgumentKind::DuplicateName));
    }
    if misses_declaration(schema, spec, line) || maps_name(others, &spec.table) {
        return Ok(Some(ArgumentKind::BadClass));
    }
    if fails_in(schema, classes, root_in(line), &spec.identity, line) {
        return Ok(Some(ArgumentKind::NoDiscriminator));
    }
    if repeats_identity(classes, spec, root_in(line), others) {
        return Ok(Some(ArgumentKind::DuplicateIdentity));
    }
    Ok(fault_of_lines(hooks, schema, classes, spec, line, attributes.as_slice()))
}

/// The first fault of the class at a place beside those before it.
pub(crate) fn last_fault(
    alloc: Global,
    hooks: &Hooks,
    schema: &Schema,
    classes: &Classes,
    class: usize,
) -> Result<Option<ArgumentKind>, AllocError>
    requires { class < length classes.now.specs }
    ensures { IfOk result (λ fault. fault
        ≡ fault_at (rules_of hooks.now) schema.now.tables classes.now class) }
{
    let specs = classes.specs.as_slice();
    first_fault(
        alloc,
        hooks,
        schema,
        &specs[..class],
        classes,
        &specs[class],
        line_of(classes, class),
    )
}
