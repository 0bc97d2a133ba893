//! The values of a new object.

ghost use Rattle.std.specs.Prelude.{◌≡◌, [], None, IfErr, IfOk, IfSome};
ghost use Rattle.std.specs.List.{All};
ghost use Rattle.base_core.specs.Answers.{Gives};
ghost use Rattle.class_mapping.specs.Mapped.{IsAttribute, IsClass};
ghost use Rattle.script_resolve.specs.Refusals.{CanRefuse};
ghost use Rattle.command_names.specs.Attributes as spec;

use crate::attributes::value_fault;
use crate::members::attribute_named;
use crate::terms::wrong_kind;
use base_core::{AttrNo, ClassId, Copied, ListOf, Name, Refusal, Value};
use class_mapping::Mapping;
use std::alloc::Global;

/// Values for attributes.
pub type Cells = ListOf<(AttrNo, Value)>;

/// Whether a name has a value already.
fn is_given(before: &[(Name, Value)], name: &Name) -> bool
    ensures { result ≡ spec.is_given before.now name.now }
{
    let Some((giving, before)) = before.split_first() else {
        return false;
    };
    giving.0 == *name || is_given(before, name)
}

/// The attribute of a name that has no value yet.
fn attribute_given(
    mapping: &Mapping,
    class: ClassId,
    before: &[(Name, Value)],
    name: &Name,
) -> Result<AttrNo, Refusal>
    requires class { IsClass mapping.now class }
    ensures attribute { Gives (λ attr. attr) result
        (spec.attribute_given mapping.now class before.now name.now) }
    ensures cause { IfErr result CanRefuse }
    ensures exists { IfOk result (IsAttribute mapping.now class) }
{
    let attr = attribute_named(mapping, class, name)?;
    if is_given(before, name) {
        return Err(wrong_kind());
    }
    Ok(attr)
}

/// Values for the attributes of their names, none of them twice.
#[tactic(auto, using(crate::proofs::Behind::behind))]
fn cells_named(
    alloc: Global,
    mapping: &Mapping,
    class: ClassId,
    given: &[(Name, Value)],
) -> Result<Cells, Refusal>
    requires class { IsClass mapping.now class }
    ensures cells { Gives (λ cells. cells) result
        (spec.cells_behind mapping.now class [] given.now) }
    ensures cause { IfErr result CanRefuse }
    ensures exist { IfOk result (All (λ cell. IsAttribute mapping.now class cell.0)) }
{
    let mut cells = ListOf::new(alloc);
    for (place, giving) in given.iter().enumerate() {
        let attr = attribute_given(mapping, class, &given[..place], &giving.0)?;
        cells.push((attr, giving.1.copied()?))?;
    }
    Ok(cells)
}

/// The fault of the first value of another kind than its attribute.
fn cells_fault(mapping: &Mapping, class: ClassId, cells: &[(AttrNo, Value)]) -> Option<Refusal>
    requires class { IsClass mapping.now class }
    requires exist { All (λ cell. IsAttribute mapping.now class cell.0) cells.now }
    ensures fault { result ≡ spec.cells_fault mapping.now class cells.now }
    ensures cause { IfSome result CanRefuse }
{
    for cell in cells {
        if let Some(fault) = value_fault(mapping, class, cell.0, &cell.1) {
            return Some(fault);
        }
    }
    None
}

/// The values of a line for a new object of a class.
///
/// # Errors
/// The first in the order of the line: `Unknown` and `WrongKind` of a name that stands for no attribute, `WrongKind` of one that
/// is given twice; then `TypeMismatch` of the first value of another kind than its attribute. `Memory`.
pub fn cells_of(
    alloc: Global,
    mapping: &Mapping,
    class: ClassId,
    given: &[(Name, Value)],
) -> Result<Cells, Refusal>
    requires class { IsClass mapping.now class }
    ensures cells { Gives (λ cells. cells) result (spec.cells_of mapping.now class given.now) }
    ensures cause { IfErr result CanRefuse }
    ensures exist { IfOk result (All (λ cell. IsAttribute mapping.now class cell.0)) }
    ensures fit { IfOk result (λ cells. spec.cells_fault mapping.now class cells ≡ None) }
{
    let cells = cells_named(alloc, mapping, class, given)?;
    match cells_fault(mapping, class, cells.as_slice()) {
        Some(fault) => Err(fault),
        None => Ok(cells),
    }
}
