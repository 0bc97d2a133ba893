//! The condition by which the rows of a class without a table of its own are told. The only refusal is `Memory`.

ghost use Rattle.std.specs.Prelude.{◌≡◌, true, Some, is_some, IfOk};
ghost use Rattle.std.specs.Option.{option_copied};
ghost use Rattle.class_mapping.specs.Mapped.{IsClass, class_spec};
ghost use Rattle.load_selects.specs.Branches as spec;

use base_core::{ClassId, Copied, ListOf, Name, RowValues, Value};
use class_layouts::has_class;
use class_mapping::Mapping;
use expr_types::ExprList;
use load_columns::{Placement, SourceColumn, column_named, is_in, place_at_rank};
use sqlite_items::Items;
use std::alloc::{AllocError, Global};

/// The classes by number.
#[tactic(auto, using(crate::proofs::Steps::number_steps))]
fn class_ids(alloc: Global, mapping: &Mapping) -> Result<ListOf<ClassId>, AllocError>
    ensures { IfOk result (λ ids. ids ≡ spec.class_ids mapping.now) }
{
    let mut ids = ListOf::new(alloc);
    for number in 0..mapping.count() {
        ids.push(ClassId(number))?;
    }
    Ok(ids)
}

/// Whether a class stands under another.
fn is_under(mapping: &Mapping, class: ClassId, other: ClassId) -> bool
    ensures { result ≡ spec.is_under mapping.now class other }
{
    other.0 != class.0 && has_class(mapping.line_of(other), class.0 as usize)
}

/// A class, and its descendants in order of declaration.
fn branch(alloc: Global, mapping: &Mapping, class: ClassId) -> Result<ListOf<ClassId>, AllocError>
    ensures { IfOk result (λ classes. classes ≡ spec.branch mapping.now class) }
{
    let ids = class_ids(alloc, mapping)?;
    let mut classes = ListOf::new(alloc);
    classes.push(class)?;
    for other in ids.as_slice() {
        if is_under(mapping, class, *other) {
            classes.push(*other)?;
        }
    }
    Ok(classes)
}

/// The identity of a class, if it has one. A class that is not declared has none.
fn identity_of(mapping: &Mapping, class: ClassId) -> Option<&Value>
    ensures { option_copied result ≡ (class_spec mapping.now class).identity }
{
    if class.0 < mapping.count() {
        return mapping.spec_of(class).identity.as_ref();
    }
    None
}

/// What the discriminator of a row of the branch can be.
#[tactic(auto, using(class_layouts::proofs::Steps::steps))]
fn identities(alloc: Global, mapping: &Mapping, class: ClassId) -> Result<RowValues, AllocError>
    ensures { IfOk result (λ values. values ≡ spec.identities mapping.now class) }
{
    let classes = branch(alloc, mapping, class)?;
    let mut values = ListOf::new(alloc);
    for other in classes.as_slice() {
        if let Some(identity) = identity_of(mapping, *other) {
            values.push(identity.copied()?)?;
        }
    }
    Ok(values)
}

/// The name of the column that tells the classes of a hierarchy apart.
fn discriminator_of(mapping: &Mapping, class: ClassId) -> Option<&Name>
    requires { IsClass mapping.now class }
    ensures { option_copied result ≡ spec.discriminator_of mapping.now class }
{
    mapping
        .spec_of(mapping.root_of(class))
        .discriminator
        .as_ref()
}

/// The column of that name.
fn discriminator_column(
    mapping: &Mapping,
    class: ClassId,
    placement: Placement,
    name: &Name,
) -> Result<SourceColumn, AllocError>
    requires { IsClass mapping.now class }
    ensures { IfOk result (λ column. column
        ≡ spec.discriminator_column mapping.now class placement name.now) }
{
    Ok(SourceColumn {
        source: place_at_rank(placement, 0)?,
        column: column_named(mapping, mapping.root_table(class), name)?,
    })
}

/// The discriminator is that of a class of the branch.
fn names_branch(
    alloc: Global,
    mapping: &Mapping,
    class: ClassId,
    placement: Placement,
    name: &Name,
) -> Result<ExprList, AllocError>
    requires { IsClass mapping.now class }
    ensures { IfOk result
        (λ es. es ≡ spec.names_branch mapping.now class placement (Some name.now)) }
{
    let column = discriminator_column(mapping, class, placement, name)?;
    let values = identities(alloc, mapping, class)?;
    let mut out = Items::new(alloc);
    out.push(is_in(alloc, column, values)?)?;
    Ok(out)
}

/// Whether a class has a table of its own.
fn has_table(mapping: &Mapping, class: ClassId) -> bool
    requires { IsClass mapping.now class }
    ensures { result ≡ is_some (class_spec mapping.now class).table }
{
    mapping.spec_of(class).table.is_some()
}

/// The rows of a class without a table of its own are those of its branch: the condition, or none where the class has a table.
pub fn is_of_branch(
    alloc: Global,
    mapping: &Mapping,
    class: ClassId,
    placement: Placement,
) -> Result<ExprList, AllocError>
    requires { IsClass mapping.now class }
    ensures { IfOk result (λ es. es ≡ spec.is_of_branch mapping.now class placement) }
{
    if has_table(mapping, class) {
        return Ok(Items::new(alloc));
    }
    match discriminator_of(mapping, class) {
        Some(name) => names_branch(alloc, mapping, class, placement, name),
        None => Ok(Items::new(alloc)),
    }
}
