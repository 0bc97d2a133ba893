//! The partners of sides, and the names of backrefs.

ghost use Rattle.std.specs.Prelude.{◌≡◌, ◌&&◌, ◌||◌, find};
ghost use Rattle.std.specs.Option.{option_copied};
ghost use Rattle.std.specs.List.{enumerate_from, list_any};
ghost use Rattle.schema_core.specs.Catalog.{same_name};
ghost use Rattle.class_sides.specs.Pairs.{differ, differs, gives_name, is_opposite, is_partner, is_taken_in, is_target_in, many_cascade, same_side};

use crate::pairs::{is_plain, same_secondary};
use base_core::{ClassId, Name};
use class_blocks::{Side, cascade_or_default, has_class, is_class};
use class_layouts::{Classes, Layout, line_of};
use class_types::{Attribute, Cascade};

fn differ(one: bool, other: bool) -> bool
    ensures { result ≡ differ one other }
{
    if one { !other } else { other }
}

/// Whether two sides are collections over a secondary table, or a collection and a link.
fn is_opposite(one: &Side, other: &Side) -> bool
    ensures { result ≡ is_opposite one.now other.now }
{
    if is_plain(one) {
        differ(one.spec.many, other.spec.many)
    } else {
        one.spec.many && other.spec.many
    }
}

/// Whether the other one is the partner that a side names.
pub(crate) fn is_partner(one: &Side, other: &Side) -> bool
    ensures { result ≡ is_partner one.now other.now }
{
    is_class(one.target, other.class)
        && other.spec.name == one.spec.partner
        && !other.spec.backref
        && other.spec.partner == one.spec.name
        && is_class(other.target, one.class)
        && same_secondary(&one.spec.secondary, &other.spec.secondary)
        && is_opposite(one, other)
}

/// The partner that a side names.
fn partner_of<'a>(sides: &'a [Side], side: &Side) -> Option<&'a Side>
    ensures { option_copied result ≡ find (is_partner side.now) sides.now }
{
    let Some((other, sides)) = sides.split_first() else {
        return None;
    };
    if is_partner(side, other) {
        return Some(other);
    }
    partner_of(sides, side)
}

pub(crate) fn same_side(one: &Side, other: &Side) -> bool
    ensures { result ≡ same_side one.now other.now }
{
    one.class.0 == other.class.0 && one.spec.name == other.spec.name
}

/// Whether the target of a side stands in the line.
fn is_target_in(target: Option<ClassId>, line: &[ClassId]) -> bool
    ensures { result ≡ is_target_in target line.now }
{
    match target {
        Some(target) => has_class(line, target.0 as usize),
        None => false,
    }
}

/// Whether the other one gives its name, or makes a backref of the name, in a class of the line.
fn gives_name(line: &[ClassId], side: &Side, other: &Side) -> bool
    ensures { result ≡ gives_name line.now side.now other.now }
{
    (has_class(line, other.class.0 as usize) && other.spec.name == side.spec.partner)
        || (other.spec.backref
            && is_target_in(other.target, line)
            && other.spec.partner == side.spec.partner
            && !same_side(side, other))
}

/// Whether a relationship gives the name of a side's backref in a class of the line.
fn some_gives_name(line: &[ClassId], side: &Side, sides: &[Side]) -> bool
    ensures { result ≡ list_any (gives_name line.now side.now) sides.now }
{
    let Some((other, sides)) = sides.split_first() else {
        return false;
    };
    gives_name(line, side, other) || some_gives_name(line, side, sides)
}

/// Whether an attribute has the name.
fn is_attribute_named(attributes: &[Attribute], name: &Name) -> bool
    ensures { result ≡ list_any (λ attribute. same_name attribute.name name.now) attributes.now }
{
    let Some((attribute, attributes)) = attributes.split_first() else {
        return false;
    };
    attribute.name == *name || is_attribute_named(attributes, name)
}

/// Whether the name of a side's backref is taken in a class that is the target or extends it.
fn is_taken_in(
    classes: &Classes,
    sides: &[Side],
    side: &Side,
    class: usize,
    layout: &Layout,
) -> bool
    ensures { result ≡ is_taken_in classes.now sides.now side.now (class, layout.now) }
{
    let line = line_of(classes, class);
    is_target_in(side.target, line)
        && (is_attribute_named(layout.attributes.as_slice(), &side.spec.partner)
            || some_gives_name(line, side, sides))
}

#[tactic(auto, using(class_layouts::proofs::Steps::steps))]
/// Whether the name of a side's backref is taken.
fn is_taken(classes: &Classes, layouts: &[Layout], sides: &[Side], side: &Side) -> bool
    ensures { result ≡ list_any (is_taken_in classes.now sides.now side.now)
        (enumerate_from 0 layouts.now) }
{
    for (class, layout) in layouts.iter().enumerate() {
        if is_taken_in(classes, sides, side, class, layout) {
            return true;
        }
    }
    false
}

#[tactic(auto, using(crate::proofs::Found::none_found))]
/// Whether the name of a side's backref is taken, or no relationship is the partner that it names.
pub fn differs(classes: &Classes, layouts: &[Layout], sides: &[Side], side: &Side) -> bool
    ensures { result ≡ differs classes.now layouts.now sides.now side.now }
{
    if side.spec.backref {
        return is_taken(classes, layouts, sides, side);
    }
    partner_of(sides, side).is_none()
}

/// The flags of the many side of a pair; a backref has the default ones.
pub fn many_cascade(sides: &[Side], side: &Side) -> Cascade
    ensures { result ≡ many_cascade sides.now side.now }
{
    if side.spec.many {
        return cascade_or_default(side.spec.cascade);
    }
    if side.spec.backref {
        return cascade_or_default(None);
    }
    match partner_of(sides, side) {
        Some(partner) => cascade_or_default(partner.spec.cascade),
        None => cascade_or_default(None),
    }
}
