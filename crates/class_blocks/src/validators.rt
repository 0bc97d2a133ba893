//! The validators of a class and of those that it extends.

ghost use Rattle.std.specs.Prelude.{◌≡◌, ◌++◌, IfOk, OnOk};
ghost use Rattle.class_blocks.specs.Validators.{all_validators, validators_at, validators_on};

use base_core::{ClassId, Copied, ListOf, Name};
use class_types::ClassSpec;
use std::alloc::{AllocError, Global};

/// The validators of a class's own block.
fn validators_at(specs: &[ClassSpec], class: usize) -> &[(Name, Name)]
    ensures { result.now ≡ validators_at specs.now class }
{
    match specs.get(class) {
        Some(spec) => spec.validators.as_slice(),
        None => &[],
    }
}

/// Validators go behind others.
fn push_validators(all: &mut ListOf<(Name, Name)>, found: &[(Name, Name)]) -> Result<(), AllocError>
    ensures { OnOk result (all.new ≡ all.old ++ found.now) }
{
    for validator in found {
        all.push(validator.copied()?)?;
    }
    Ok(())
}

#[tactic(auto, using(crate::proofs::Steps::steps))]
/// The validators of the class of a line, from its root's on.
fn validators_on(
    alloc: Global,
    specs: &[ClassSpec],
    line: &[ClassId],
) -> Result<ListOf<(Name, Name)>, AllocError>
    ensures { IfOk result (λ all. all ≡ validators_on specs.now line.now) }
{
    let mut all = ListOf::new(alloc);
    for class in line {
        push_validators(&mut all, validators_at(specs, class.0 as usize))?;
    }
    Ok(all)
}

/// The validators of each class, where the lines of all classes are given.
pub fn all_validators(
    alloc: Global,
    specs: &[ClassSpec],
    lines: &[ListOf<ClassId>],
) -> Result<ListOf<ListOf<(Name, Name)>>, AllocError>
    ensures { IfOk result (λ all. all ≡ all_validators specs.now lines.now) }
{
    let mut all = ListOf::new(alloc);
    for line in lines {
        all.push(validators_on(alloc, specs, line.as_slice())?)?;
    }
    Ok(all)
}
