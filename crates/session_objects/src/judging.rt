//! Whether values are taken by validators, and which attributes are discriminators.

ghost use Rattle.std.specs.Prelude.{◌≡◌, true, IfOk, IfSome};
ghost use Rattle.std.specs.List.{All, list_any};
ghost use Rattle.std.specs.Option.{option_copied};
ghost use Rattle.class_types.specs.Shown.{rules_of};
ghost use Rattle.class_mapping.specs.Mapped.{IsAttribute, IsClass};
ghost use Rattle.keeper_core.specs.Alone.{IsOwn};
ghost use Rattle.session_objects.specs.Judging as spec;
ghost use Rattle.session_objects.specs.ValueSteps as steps;

use base_core::{AttrNo, ClassId, Copied, Name, Refusal, RequestKind, Value};
use class_mapping::Mapping;
use class_types::{Attribute, Hooks};
use object_parts::first_refusing;
use session_scopes::first_fault;
use std::alloc::AllocError;

/// Why a value is not given to an attribute of a class: the first validator that does not take it.
pub(crate) fn invalid_fault(
    mapping: &Mapping,
    hooks: &Hooks,
    class: ClassId,
    attr: AttrNo,
    value: &Value,
) -> Result<Option<Refusal>, AllocError>
    requires class { IsClass mapping.now class }
    requires attr { IsAttribute mapping.now class attr }
    ensures fault { IfOk result (λ fault. fault
        ≡ spec.invalid_fault (rules_of hooks.now) mapping.now class attr value.now) }
    ensures own { IfOk result (λ fault. IfSome fault IsOwn) }
{
    let name = &mapping.attributes(class)[attr.0 as usize].name;
    match first_refusing(hooks, mapping.validators(class), name, value) {
        Some(validator) => {
            let hook = validator.1.copied()?;
            Ok(Some(Refusal::ValidationError(class, attr, hook)))
        }
        None => Ok(None),
    }
}

/// Why values are not given to attributes of a class: the first of them that is not taken.
fn first_invalid(
    mapping: &Mapping,
    hooks: &Hooks,
    class: ClassId,
    given: &[(AttrNo, Value)],
) -> Result<Option<Refusal>, AllocError>
    requires class { IsClass mapping.now class }
    requires attributes { All (λ one. IsAttribute mapping.now class one.0) given.now }
    ensures fault { IfOk result (λ fault. fault
        ≡ spec.first_invalid (rules_of hooks.now) mapping.now class given.now) }
    ensures own { IfOk result (λ fault. IfSome fault IsOwn) }
{
    for one in given {
        if let Some(fault) = invalid_fault(mapping, hooks, class, one.0, &one.1)? {
            return Ok(Some(fault));
        }
    }
    Ok(None)
}

fn is_named_by(name: &Option<Name>, attribute: Option<&Attribute>) -> bool
    ensures { result ≡ spec.is_named_by name.now (option_copied attribute.entry) }
{
    match (name, attribute) {
        (Some(name), Some(attribute)) => *name == attribute.name,
        _ => false,
    }
}

/// Whether an attribute of a class tells the classes of its hierarchy apart.
pub(crate) fn is_discriminator(mapping: &Mapping, class: ClassId, attr: AttrNo) -> bool
    requires class { IsClass mapping.now class }
    ensures { result ≡ spec.is_discriminator mapping.now class attr }
{
    let root = mapping.root_of(class);
    let attributes = mapping.attributes(class);
    is_named_by(
        &mapping.spec_of(root).discriminator,
        attributes.get(attr.0 as usize),
    )
}

/// Whether one of some values is for the discriminator.
fn sets_discriminator(mapping: &Mapping, class: ClassId, given: &[(AttrNo, Value)]) -> bool
    requires class { IsClass mapping.now class }
    ensures { result ≡ list_any (λ one. spec.is_discriminator mapping.now class one.0) given.now }
{
    for one in given {
        if is_discriminator(mapping, class, one.0) {
            return true;
        }
    }
    false
}

/// Why an object of a class is not made with these values: one of them is of another kind, a validator does not take one, or one is
/// for the discriminator.
pub(crate) fn given_fault(
    mapping: &Mapping,
    hooks: &Hooks,
    class: ClassId,
    given: &[(AttrNo, Value)],
) -> Result<Option<Refusal>, AllocError>
    requires class { IsClass mapping.now class }
    requires attributes { All (λ one. IsAttribute mapping.now class one.0) given.now }
    ensures fault { IfOk result (λ fault. fault
        ≡ steps.given_fault (rules_of hooks.now) mapping.now class given.now) }
    ensures own { IfOk result (λ fault. IfSome fault IsOwn) }
{
    if let Some(fault) = first_fault(mapping, class, given) {
        return Ok(Some(fault));
    }
    match first_invalid(mapping, hooks, class, given)? {
        Some(fault) => Ok(Some(fault)),
        None => Ok(discriminator_if(sets_discriminator(mapping, class, given))),
    }
}

/// Refused where a discriminator would be set.
pub(crate) fn discriminator_if(is_set: bool) -> Option<Refusal>
    ensures fault { result ≡ spec.discriminator_if is_set }
    ensures own { IfSome result IsOwn }
{
    if is_set {
        return Some(Refusal::InvalidRequestError(RequestKind::Discriminator));
    }
    None
}
