//! Where the columns of joined options stand in a row. The only refusal is `Memory`.

ghost use Rattle.std.specs.Prelude.{◌≡◌, ◌<◌, length, IfOk};
ghost use Rattle.std.specs.List.{All};
ghost use Rattle.class_mapping.specs.Mapped.{IsClass, relations_of};
ghost use Rattle.joined_rows.specs.Parts as spec;

use base_core::{ClassId, ListOf, RelNo};
use class_layouts::number_of;
use class_mapping::{Mapping, Relation};
use load_columns::from_root;
use load_rows::relation_at;
use main_selects::option_columns;
use std::alloc::{AllocError, Global};

/// What a row of a main select has of one joined option, the one of the relationship at `place`: the attributes of the target from
/// `first` on, and the keys of the target's tables behind its root's from `keys` on. `end` is the place behind them.
#[derive(Clone, Copy)]
pub struct Part {
    pub place: RelNo,
    pub target: ClassId,
    pub first: u32,
    pub keys: u32,
    pub end: u32,
}

/// How many attributes a class has.
fn width_of(mapping: &Mapping, class: ClassId) -> Result<u32, AllocError>
    requires class { IsClass mapping.now class }
    ensures { IfOk result (λ width. width ≡ spec.width_of mapping.now class) }
{
    number_of(mapping.attributes(class).len())
}

/// How many columns an option reads of its target.
fn option_width(alloc: Global, mapping: &Mapping, class: ClassId) -> Result<u32, AllocError>
    requires class { IsClass mapping.now class }
    ensures { IfOk result (λ width. width ≡ spec.option_width mapping.now class) }
{
    let columns = option_columns(alloc, mapping, class, from_root(0))?;
    number_of(columns.len())
}

/// The part of an option that begins at a place of the row.
fn part_from(
    alloc: Global,
    mapping: &Mapping,
    place: RelNo,
    relation: &Relation,
    first: u32,
) -> Result<Part, AllocError>
    requires target { IsClass mapping.now relation.now.target }
    ensures { IfOk result
        (λ part. part ≡ spec.part_from mapping.now place relation.now first) }
{
    let target = relation.target;
    let attributes = width_of(mapping, target)?;
    let whole = option_width(alloc, mapping, target)?;
    Ok(Part {
        place,
        target,
        first,
        keys: number_of(first as usize + attributes as usize)?,
        end: number_of(first as usize + whole as usize)?,
    })
}

/// The part of the option at a place of a class.
fn part_at(
    alloc: Global,
    mapping: &Mapping,
    class: ClassId,
    place: RelNo,
    first: u32,
) -> Result<Part, AllocError>
    requires class { IsClass mapping.now class }
    requires place { place.0 < length (relations_of mapping.now class) }
    ensures { IfOk result
        (λ part. part ≡ spec.part_at mapping.now class place first) }
{
    part_from(
        alloc,
        mapping,
        place,
        relation_at(mapping, class, place),
        first,
    )
}

/// Where the joined options at these places of a class stand in the rows of a query's main select: behind the attributes of the
/// class, one behind the other.
#[tactic(auto, using(crate::proofs::Steps::part_steps), unfolding(crate::specs::Parts::parts_of))]
pub fn parts_of(
    alloc: Global,
    mapping: &Mapping,
    class: ClassId,
    places: &[RelNo],
) -> Result<ListOf<Part>, AllocError>
    requires class { IsClass mapping.now class }
    requires places { All
        (λ place. place.0 < length (relations_of mapping.now class)) places.now }
    ensures { IfOk result
        (λ parts. parts ≡ spec.parts_of mapping.now class places.now) }
{
    let mut parts = ListOf::new(alloc);
    let mut first = width_of(mapping, class)?;
    for place in places {
        let part = part_at(alloc, mapping, class, *place, first)?;
        first = part.end;
        parts.push(part)?;
    }
    Ok(parts)
}
