//! The declared relationships, and which of them name each other.

ghost use Rattle.std.specs.Prelude.{◌≡◌, ◌&&◌};
ghost use Rattle.class_blocks.specs.Lines.{line_in};
ghost use Rattle.class_blocks.specs.Sides.{is_class, is_of_target, leads_to, names_each_other};

use crate::lines::has_class;
use base_core::{ClassId, ListOf, TableId};
use class_types::RelationSpec;

/// A foreign key: its table, and its number there.
pub type TableKey = (TableId, u32);

/// A secondary table's key to the near side, and its key to the far side.
pub type Ends = (TableKey, TableKey);

/// A declared relationship, where it leads, and which keys can serve it.
#[derive(Drop)]
pub struct Side {
    /// The class that declares it.
    pub class: ClassId,
    pub spec: RelationSpec,
    /// The class to which it leads, if it is declared.
    pub target: Option<ClassId>,
    /// Without a secondary table: the foreign keys that can serve it.
    pub candidates: ListOf<TableKey>,
    /// With a secondary table: its two keys.
    pub ends: Option<Ends>,
}

/// Whether the class that was found is this one.
pub fn is_class(found: Option<ClassId>, class: ClassId) -> bool
    ensures { result ≡ is_class found class }
{
    match found {
        Some(found) => found.0 == class.0,
        None => false,
    }
}

/// The line of the class of a number, among those of all classes.
fn line_in(lines: &[ListOf<ClassId>], class: usize) -> &[ClassId]
    ensures { result.now ≡ line_in lines.now class }
{
    match lines.get(class) {
        Some(line) => line.as_slice(),
        None => &[],
    }
}

/// Whether a class stands in the line of the target.
fn is_of_target(lines: &[ListOf<ClassId>], target: Option<ClassId>, class: ClassId) -> bool
    ensures { result ≡ is_of_target lines.now target class }
{
    match target {
        Some(target) => has_class(line_in(lines, target.0 as usize), class.0 as usize),
        None => false,
    }
}

/// Whether the partner that the one names is the other.
fn leads_to(lines: &[ListOf<ClassId>], one: &Side, other: &Side) -> bool
    ensures { result ≡ leads_to lines.now one.now other.now }
{
    is_of_target(lines, one.target, other.class) && other.spec.name == one.spec.partner
}

/// Whether two declared relationships name each other, where the lines of all classes are given.
pub fn names_each_other(lines: &[ListOf<ClassId>], one: &Side, other: &Side) -> bool
    ensures { result ≡ names_each_other lines.now one.now other.now }
{
    !one.spec.backref
        && !other.spec.backref
        && leads_to(lines, one, other)
        && leads_to(lines, other, one)
}
