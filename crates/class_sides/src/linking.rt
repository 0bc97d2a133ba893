//! The relationships of each class of a configured mapping.

ghost use Rattle.std.specs.Prelude.{◌≡◌, ◌&&◌, ◌||◌, ◌++◌, [], ◌∷◌, IfOk, OnOk, filter, find, map, not};
ghost use Rattle.std.specs.Option.{option_copied};
ghost use Rattle.std.specs.List.{flat_map, position};
ghost use Rattle.schema_core.specs.Catalog.{same_name};
ghost use Rattle.class_blocks.specs.Sides.{is_own, makes_back, names_on};
ghost use Rattle.class_sides.specs.Pairs.{is_plain};
ghost use Rattle.class_sides.specs.Linking.{all_names, back_relation, class_or, ends_from, ends_on, far_key, far_or, is_same_pair, key_or_none, near_key, near_or, own_relation, place_in, place_or_none, relations_at, relations_by, relations_on, swapped_ends};

use crate::pairs::{is_plain, join_of};
use crate::partners::{is_partner, same_side};
use base_core::{ClassId, Copied, ListOf, Name, RelNo, TableId};
use class_blocks::{Ends, Side, TableKey, cascade_or_default, is_own, makes_back, names_on};
use class_layouts::{Classes, number_of};
use class_types::Relation;
use schema_core::Schema;
use std::alloc::{AllocError, Global};

// ---- the names of a class's relationships

/// The names of the relationships of each class.
fn all_names(
    alloc: Global,
    classes: &Classes,
    sides: &[Side],
) -> Result<ListOf<ListOf<Name>>, AllocError>
    ensures { IfOk result (λ names. names ≡ all_names classes.now sides.now) }
{
    let mut names = ListOf::new(alloc);
    for line in classes.lines.as_slice() {
        names.push(names_on(alloc, sides, line.as_slice())?)?;
    }
    Ok(names)
}

/// Where a name stands.
fn place_of(names: &[Name], name: &Name) -> Option<usize>
    ensures { result ≡ position (λ other. same_name other name.now) names.now }
{
    names.iter().position(|other| *other == *name)
}

/// The place of a name as a relationship's number.
fn place_among(names: &[Name], name: &Name) -> Result<RelNo, AllocError>
    ensures { IfOk result (λ place. place
        ≡ place_or_none (position (λ other. same_name other name.now) names.now)) }
{
    match place_of(names, name) {
        Some(place) => Ok(RelNo(number_of(place)?)),
        None => Ok(RelNo(0)),
    }
}

/// The place of the relationship of a name in the list of a class.
fn place_in(names: &[ListOf<Name>], class: ClassId, name: &Name) -> Result<RelNo, AllocError>
    ensures { IfOk result (λ place. place ≡ place_in names.now class name.now) }
{
    match names.get(class.0 as usize) {
        Some(own) => place_among(own.as_slice(), name),
        None => Ok(RelNo(0)),
    }
}

// ---- the keys of a pair

fn key_or_none(key: Option<TableKey>) -> TableKey
    ensures { result ≡ key_or_none key }
{
    match key {
        Some(key) => key,
        None => (TableId(0), 0),
    }
}

fn swapped_ends(ends: Option<Ends>) -> Option<Ends>
    ensures { result ≡ swapped_ends ends }
{
    match ends {
        Some(ends) => Some((ends.1, ends.0)),
        None => None,
    }
}

fn is_same_pair(side: &Side, other: &Side) -> bool
    ensures { result ≡ is_same_pair side.now other.now }
{
    same_side(side, other) || (!side.spec.backref && is_partner(side, other))
}

/// The side of a pair that is declared first.
fn first_of<'a>(sides: &'a [Side], side: &Side) -> Option<&'a Side>
    ensures { option_copied result ≡ find (is_same_pair side.now) sides.now }
{
    let Some((other, sides)) = sides.split_first() else {
        return None;
    };
    if is_same_pair(side, other) {
        return Some(other);
    }
    first_of(sides, side)
}

/// The keys of the secondary table of a side, as the side of its pair that is declared first finds them.
fn ends_on(sides: &[Side], side: &Side) -> Option<Ends>
    ensures { result ≡ ends_on sides.now side.now }
{
    match first_of(sides, side) {
        Some(first) if same_side(side, first) => first.ends,
        Some(first) => swapped_ends(first.ends),
        None => side.ends,
    }
}

fn near_or(ends: Option<Ends>, key: TableKey) -> TableKey
    ensures { result ≡ near_or ends key }
{
    match ends {
        Some(ends) => ends.0,
        None => key,
    }
}

fn far_or(ends: Option<Ends>, key: TableKey) -> TableKey
    ensures { result ≡ far_or ends key }
{
    match ends {
        Some(ends) => ends.1,
        None => key,
    }
}

fn near_key(ends: Option<Ends>) -> Option<TableKey>
    ensures { result ≡ near_key ends }
{
    match ends {
        Some(ends) => Some(ends.0),
        None => None,
    }
}

fn far_key(ends: Option<Ends>) -> Option<TableKey>
    ensures { result ≡ far_key ends }
{
    match ends {
        Some(ends) => Some(ends.1),
        None => None,
    }
}

fn class_or(found: Option<ClassId>, class: ClassId) -> ClassId
    ensures { result ≡ class_or found class }
{
    match found {
        Some(found) => found,
        None => class,
    }
}

// ---- the relationships

/// A declared relationship goes behind others.
fn push_own_relation(
    all: &mut ListOf<Relation>,
    schema: &Schema,
    classes: &Classes,
    sides: &[Side],
    names: &[ListOf<Name>],
    side: &Side,
) -> Result<(), AllocError>
    ensures { OnOk result (all.new ≡ all.old
        ++ own_relation schema.now.tables classes.now sides.now names.now side.now ∷ []) }
{
    let target = class_or(side.target, side.class);
    let ends = ends_on(sides, side);
    let partner = place_in(names, target, &side.spec.partner)?;
    let name = side.spec.name.copied()?;
    all.push(Relation {
        name,
        class: side.class,
        target,
        many: side.spec.many,
        foreign: near_or(ends, key_or_none(join_of(schema, classes, sides, side))),
        far: far_key(ends),
        partner,
        cascade: cascade_or_default(side.spec.cascade),
        post_update: side.spec.post_update,
    })
}

/// The backref that a declaration makes, of the opposite form and with the default cascade, goes behind others.
fn push_back_relation(
    all: &mut ListOf<Relation>,
    schema: &Schema,
    classes: &Classes,
    sides: &[Side],
    names: &[ListOf<Name>],
    side: &Side,
) -> Result<(), AllocError>
    ensures { OnOk result (all.new ≡ all.old
        ++ back_relation schema.now.tables classes.now sides.now names.now side.now ∷ []) }
{
    let ends = ends_on(sides, side);
    let partner = place_in(names, side.class, &side.spec.name)?;
    let name = side.spec.partner.copied()?;
    all.push(Relation {
        name,
        class: class_or(side.target, side.class),
        target: side.class,
        many: !is_plain(side) || !side.spec.many,
        foreign: far_or(ends, key_or_none(join_of(schema, classes, sides, side))),
        far: near_key(ends),
        partner,
        cascade: cascade_or_default(None),
        post_update: false,
    })
}

#[tactic(auto, using(class_layouts::proofs::Steps::steps))]
/// A class's own relationships go behind others.
fn push_own(
    all: &mut ListOf<Relation>,
    schema: &Schema,
    classes: &Classes,
    sides: &[Side],
    names: &[ListOf<Name>],
    class: ClassId,
) -> Result<(), AllocError>
    ensures { OnOk result (all.new
        ≡ all.old ++ map (own_relation schema.now.tables classes.now sides.now names.now)
        (filter (is_own class) sides.now)) }
{
    for side in sides {
        if is_own(class, side) {
            push_own_relation(all, schema, classes, sides, names, side)?;
        }
    }
    Ok(())
}

#[tactic(auto, using(class_layouts::proofs::Steps::steps))]
/// A class's backrefs go behind others.
fn push_back(
    all: &mut ListOf<Relation>,
    schema: &Schema,
    classes: &Classes,
    sides: &[Side],
    names: &[ListOf<Name>],
    class: ClassId,
) -> Result<(), AllocError>
    ensures { OnOk result (all.new
        ≡ all.old ++ map (back_relation schema.now.tables classes.now sides.now names.now)
        (filter (makes_back class) sides.now)) }
{
    for side in sides {
        if makes_back(class, side) {
            push_back_relation(all, schema, classes, sides, names, side)?;
        }
    }
    Ok(())
}

#[tactic(auto, using(class_layouts::proofs::Steps::steps))]
/// The relationships of the class of a line go behind those of others: of each class its own, and then its backrefs, in order of
/// declaration.
fn push_relations_on(
    all: &mut ListOf<ListOf<Relation>>,
    alloc: Global,
    schema: &Schema,
    classes: &Classes,
    sides: &[Side],
    names: &[ListOf<Name>],
    line: &[ClassId],
) -> Result<(), AllocError>
    ensures { OnOk result (all.new ≡ all.old
        ++ relations_on schema.now.tables classes.now sides.now names.now line.now ∷ []) }
{
    let mut relations = ListOf::new(alloc);
    for class in line {
        push_own(&mut relations, schema, classes, sides, names, *class)?;
        push_back(&mut relations, schema, classes, sides, names, *class)?;
    }
    all.push(relations)
}

/// The relationships of each class, where the declared relationships are known.
pub fn relations_by(
    alloc: Global,
    schema: &Schema,
    classes: &Classes,
    sides: &[Side],
) -> Result<ListOf<ListOf<Relation>>, AllocError>
    ensures { IfOk result (λ all. all ≡ relations_by schema.now.tables classes.now sides.now) }
{
    let names = all_names(alloc, classes, sides)?;
    let mut all = ListOf::new(alloc);
    for line in classes.lines.as_slice() {
        push_relations_on(
            &mut all,
            alloc,
            schema,
            classes,
            sides,
            names.as_slice(),
            line.as_slice(),
        )?;
    }
    Ok(all)
}
