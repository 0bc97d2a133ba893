//! Pairs of sides that name each other, and the foreign keys that serve them.

ghost use Rattle.std.specs.Prelude.{◌≡◌, ◌&&◌, find, nat_lt, count_by};
ghost use Rattle.std.specs.Option.{option_copied};
ghost use Rattle.std.specs.List.{list_any};
ghost use Rattle.schema_core.specs.Declaration.{some_two};
ghost use Rattle.class_sides.specs.Keys.{same_key};
ghost use Rattle.class_sides.specs.Pairs.{fits, has_two_joins, is_plain, is_served_by, join_of, lacks_join, mutual_of, names_each_other, overlaps, same_secondary, shares};

use crate::keys::{names_of, same_key};
use base_core::Name;
use class_blocks::{Side, TableKey, allows, names_each_other};
use class_layouts::Classes;
use schema_core::Schema;

/// Whether a side has no secondary table.
pub fn is_plain(side: &Side) -> bool
    ensures { result ≡ is_plain side.now }
{
    side.spec.secondary.is_none()
}

/// Whether two declared relationships name each other.
fn are_mutual(classes: &Classes, one: &Side, other: &Side) -> bool
    ensures { result ≡ names_each_other classes.now one.now other.now }
{
    names_each_other(classes.lines.as_slice(), one, other)
}

/// The declared relationship that a side and it name each other.
fn mutual_of<'a>(classes: &Classes, sides: &'a [Side], side: &Side) -> Option<&'a Side>
    ensures { option_copied result ≡ mutual_of classes.now sides.now side.now }
{
    let Some((other, sides)) = sides.split_first() else {
        return None;
    };
    if are_mutual(classes, side, other) {
        return Some(other);
    }
    mutual_of(classes, sides, side)
}

/// Whether a foreign key that can serve the side is the one that its partner names too.
fn fits(schema: &Schema, classes: &Classes, sides: &[Side], side: &Side, key: TableKey) -> bool
    ensures { result ≡ fits schema.now.tables classes.now sides.now side.now key }
{
    match mutual_of(classes, sides, side) {
        Some(partner) => allows(partner.spec.using.as_slice(), names_of(schema, key)),
        None => true,
    }
}

/// The first foreign key that fits.
fn first_fit(
    schema: &Schema,
    classes: &Classes,
    sides: &[Side],
    side: &Side,
    keys: &[TableKey],
) -> Option<TableKey>
    ensures { result ≡ find (fits schema.now.tables classes.now sides.now side.now) keys.now }
{
    let Some((key, keys)) = keys.split_first() else {
        return None;
    };
    if fits(schema, classes, sides, side, *key) {
        return Some(*key);
    }
    first_fit(schema, classes, sides, side, keys)
}

/// The foreign key behind a side without a secondary table.
pub fn join_of(schema: &Schema, classes: &Classes, sides: &[Side], side: &Side) -> Option<TableKey>
    ensures { result ≡ join_of schema.now.tables classes.now sides.now side.now }
{
    first_fit(schema, classes, sides, side, side.candidates.as_slice())
}

#[tactic(auto, using(crate::proofs::Found::none_found))]
/// Whether no foreign key is found for a side without a secondary table.
pub fn lacks_join(schema: &Schema, classes: &Classes, sides: &[Side], side: &Side) -> bool
    ensures { result ≡ lacks_join schema.now.tables classes.now sides.now side.now }
{
    is_plain(side) && join_of(schema, classes, sides, side).is_none()
}

/// How many foreign keys are found for a side.
fn count_joins(schema: &Schema, classes: &Classes, sides: &[Side], side: &Side) -> usize
    ensures { result ≡ count_by
        (fits schema.now.tables classes.now sides.now side.now) side.now.candidates }
{
    side.candidates
        .as_slice()
        .iter()
        .filter(|key| fits(schema, classes, sides, side, **key))
        .count()
}

/// Whether two foreign keys are found for a side without a secondary table.
pub fn has_two_joins(schema: &Schema, classes: &Classes, sides: &[Side], side: &Side) -> bool
    ensures { result ≡ has_two_joins schema.now.tables classes.now sides.now side.now }
{
    is_plain(side) && 1 < count_joins(schema, classes, sides, side)
}

/// Whether a foreign key is one of these, and serves a side.
fn is_served(
    schema: &Schema,
    classes: &Classes,
    sides: &[Side],
    key: TableKey,
    side: &Side,
    keys: &[TableKey],
) -> bool
    ensures { result ≡ list_any (λ found. same_key found key
        && fits schema.now.tables classes.now sides.now side.now found) keys.now }
{
    let Some((found, keys)) = keys.split_first() else {
        return false;
    };
    (same_key(*found, key) && fits(schema, classes, sides, side, *found))
        || is_served(schema, classes, sides, key, side, keys)
}

/// Whether the foreign key that was found serves a side.
fn is_served_by(
    schema: &Schema,
    classes: &Classes,
    sides: &[Side],
    key: Option<TableKey>,
    side: &Side,
) -> bool
    ensures { result ≡ is_served_by schema.now.tables classes.now sides.now key side.now }
{
    match key {
        Some(key) => {
            let keys = side.candidates.as_slice();
            is_served(schema, classes, sides, key, side, keys)
        }
        None => false,
    }
}

/// Whether two sides have no secondary table, or the same one.
pub(crate) fn same_secondary(one: &Option<Name>, other: &Option<Name>) -> bool
    ensures { result ≡ same_secondary one.now other.now }
{
    match (one, other) {
        (None, None) => true,
        (Some(one), Some(other)) => *one == *other,
        _ => false,
    }
}

/// Whether another side is served by the same foreign key, which is given, or by the same secondary table.
fn shares(
    schema: &Schema,
    classes: &Classes,
    sides: &[Side],
    one: &Side,
    join: Option<TableKey>,
    other: &Side,
) -> bool
    requires { join ≡ join_of schema.now.tables classes.now sides.now one.now }
    ensures { result ≡ shares schema.now.tables classes.now sides.now one.now other.now }
{
    same_secondary(&one.spec.secondary, &other.spec.secondary)
        && (one.spec.secondary.is_some() || is_served_by(schema, classes, sides, join, other))
}

/// Whether a side and one behind it are no pair, and are served by one key or one secondary table.
fn overlaps(
    schema: &Schema,
    classes: &Classes,
    sides: &[Side],
    one: &Side,
    join: Option<TableKey>,
    later: &Side,
) -> bool
    requires { join ≡ join_of schema.now.tables classes.now sides.now one.now }
    ensures { result ≡ overlaps schema.now.tables classes.now sides.now later.now one.now }
{
    !are_mutual(classes, one, later) && shares(schema, classes, sides, one, join, later)
}

/// Whether a side, of which the foreign key is given, overlaps with one of these.
fn some_overlaps(
    schema: &Schema,
    classes: &Classes,
    sides: &[Side],
    one: &Side,
    join: Option<TableKey>,
    behind: &[Side],
) -> bool
    requires { join ≡ join_of schema.now.tables classes.now sides.now one.now }
    ensures { result ≡ list_any
        (λ later. overlaps schema.now.tables classes.now sides.now later one.now) behind.now }
{
    let Some((later, behind)) = behind.split_first() else {
        return false;
    };
    overlaps(schema, classes, sides, one, join, later)
        || some_overlaps(schema, classes, sides, one, join, behind)
}

/// Whether a side overlaps with one behind it.
fn overlaps_one(
    schema: &Schema,
    classes: &Classes,
    sides: &[Side],
    one: &Side,
    behind: &[Side],
) -> bool
    ensures { result ≡ list_any
        (λ later. overlaps schema.now.tables classes.now sides.now later one.now) behind.now }
{
    let join = join_of(schema, classes, sides, one);
    some_overlaps(schema, classes, sides, one, join, behind)
}

#[tactic(auto, using(schema_core::proofs::SomeTwo::some_two_steps))]
/// Whether two sides that are no pair are served by one key or one secondary table.
pub fn some_overlap(schema: &Schema, classes: &Classes, sides: &[Side]) -> bool
    ensures { result ≡ some_two (overlaps schema.now.tables classes.now sides.now) sides.now }
{
    for (place, one) in sides.iter().enumerate() {
        if overlaps_one(schema, classes, sides, one, &sides[place + 1..]) {
            return true;
        }
    }
    false
}
