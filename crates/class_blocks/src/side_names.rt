//! The names that declared relationships give to classes.

ghost use Rattle.std.specs.Prelude.{◌≡◌, ◌&&◌, ◌++◌, IfOk, OnOk, filter, map};
ghost use Rattle.std.specs.List.{flat_map};
ghost use Rattle.class_blocks.specs.Sides.{is_own, makes_back, names_at, names_on};

use crate::side::{Side, is_class};
use base_core::{ClassId, Copied, ListOf, Name};
use std::alloc::{AllocError, Global};

/// Whether a relationship is of a class's own block.
pub fn is_own(class: ClassId, side: &Side) -> bool
    ensures { result ≡ is_own class side.now }
{
    side.class.0 == class.0
}

/// Whether a declaration makes a backref at a class.
pub fn makes_back(class: ClassId, side: &Side) -> bool
    ensures { result ≡ makes_back class side.now }
{
    side.spec.backref && is_class(side.target, class)
}

#[tactic(auto, using(crate::proofs::Steps::steps))]
/// The names of a class's own relationships go behind others.
fn push_own_names(
    names: &mut ListOf<Name>,
    sides: &[Side],
    class: ClassId,
) -> Result<(), AllocError>
    ensures { OnOk result (names.new
        ≡ names.old ++ map (λ side. side.spec.name) (filter (is_own class) sides.now)) }
{
    for side in sides {
        if is_own(class, side) {
            names.push(side.spec.name.copied()?)?;
        }
    }
    Ok(())
}

#[tactic(auto, using(crate::proofs::Steps::steps))]
/// The names of a class's backrefs go behind others.
fn push_back_names(
    names: &mut ListOf<Name>,
    sides: &[Side],
    class: ClassId,
) -> Result<(), AllocError>
    ensures { OnOk result (names.new
        ≡ names.old ++ map (λ side. side.spec.partner) (filter (makes_back class) sides.now)) }
{
    for side in sides {
        if makes_back(class, side) {
            names.push(side.spec.partner.copied()?)?;
        }
    }
    Ok(())
}

/// The names of the relationships of a class's own block, and then of its backrefs, go behind others.
fn push_names(names: &mut ListOf<Name>, sides: &[Side], class: ClassId) -> Result<(), AllocError>
    ensures { OnOk result (names.new ≡ names.old ++ names_at sides.now class) }
{
    push_own_names(names, sides, class)?;
    push_back_names(names, sides, class)
}

#[tactic(auto, using(crate::proofs::Steps::steps))]
/// The names of the relationships of the class of a line: of each class its own, and then its backrefs.
pub fn names_on(alloc: Global, sides: &[Side], line: &[ClassId]) -> Result<ListOf<Name>, AllocError>
    ensures { IfOk result (λ names. names ≡ names_on sides.now line.now) }
{
    let mut names = ListOf::new(alloc);
    for class in line {
        push_names(&mut names, sides, *class)?;
    }
    Ok(names)
}
