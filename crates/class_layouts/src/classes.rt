//! The declared classes.

ghost use Rattle.std.specs.Prelude.{◌≡◌, ◌≤◌, ◌++◌, [], ◌∷◌, IfOk, OnErr, OnOk, length, take};
ghost use Rattle.base_core.specs.Answers.{Takes};
ghost use Rattle.class_types.specs.Shown.{rules_of};
ghost use Rattle.class_layouts.specs.Declaring.{declare};
ghost use Rattle.class_layouts.specs.Hierarchy.{new_line, with_class};

use crate::faults::last_fault;
use crate::layout::number_of;
use crate::lookup::{line_at, place_named};
use base_core::{ClassId, ListOf, Refusal};
use class_types::{ClassSpec, Hooks};
use schema_core::Schema;
use std::alloc::{AllocError, Global};
use std::mem;

/// The declared classes in order of number, and of each its line: the classes from its root down to itself.
#[derive(Drop)]
pub struct Classes {
    pub specs: ListOf<ClassSpec>,
    pub lines: ListOf<ListOf<ClassId>>,
}

/// The line of a class that is declared behind the others.
fn new_line(
    alloc: Global,
    classes: &Classes,
    spec: &ClassSpec,
) -> Result<ListOf<ClassId>, AllocError>
    ensures { IfOk result (λ line. line ≡ new_line classes.now spec.now) }
{
    let base = place_named(classes.specs.as_slice(), &spec.base);
    let mut line = ListOf::from_vec(line_at(classes, base).to_vec(alloc)?);
    line.push(ClassId(number_of(classes.specs.len())?))?;
    Ok(line)
}

/// Only so many items of a list stay, from its first on.
fn keep_first<T: Drop>(alloc: Global, list: &mut ListOf<T>, count: usize)
    ensures { list.new ≡ take count list.old }
{
    let mut items = mem::replace(list, ListOf::new(alloc)).into_vec();
    items.truncate(count);
    *list = ListOf::from_vec(items);
}

/// A class goes behind the others, with its line. Where memory runs out it leaves the classes as they were.
fn push_class(
    alloc: Global,
    classes: &mut Classes,
    spec: ClassSpec,
    line: ListOf<ClassId>,
) -> Result<(), AllocError>
    ensures ok { OnOk result (classes.new
        ≡ record {
          specs = classes.old.specs ++ spec ∷ [];
          lines = classes.old.lines
              ++ line ∷ [];
        }) }
    ensures err { OnErr result (classes.new ≡ classes.old) }
{
    let count = classes.lines.len();
    classes.lines.push(line)?;
    match classes.specs.push(spec) {
        Ok(()) => Ok(()),
        Err(refusal) => {
            keep_first(alloc, &mut classes.lines, count);
            Err(refusal)
        }
    }
}

/// The last class is taken back.
fn pop_class(alloc: Global, classes: &mut Classes, count: usize)
    ensures { classes.new ≡ record {
      specs = take count classes.old.specs;
      lines = take count classes.old.lines;
    } }
{
    keep_first(alloc, &mut classes.specs, count);
    keep_first(alloc, &mut classes.lines, count);
}

/// Declares a class behind the others.
///
/// # Errors
/// `ArgumentError` with the first fault of the declaration. A refusal changes nothing.
pub fn declare(
    alloc: Global,
    hooks: &Hooks,
    schema: &Schema,
    classes: &mut Classes,
    spec: ClassSpec,
) -> Result<(), Refusal>
    requires { length classes.old.lines ≡ length classes.old.specs }
    ensures { Takes (λ _. tt) (declare
        (rules_of hooks.now) schema.now.tables classes.old spec) classes.old result classes.new }
{
    let count = classes.specs.len();
    let line = new_line(alloc, classes, &spec)?;
    push_class(alloc, classes, spec, line)?;
    match last_fault(alloc, hooks, schema, classes, count) {
        Ok(None) => Ok(()),
        Ok(Some(fault)) => {
            pop_class(alloc, classes, count);
            Err(Refusal::ArgumentError(fault))
        }
        Err(full) => {
            pop_class(alloc, classes, count);
            Err(full.into())
        }
    }
}
