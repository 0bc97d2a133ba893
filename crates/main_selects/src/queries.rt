//! The main select of a query for objects.

ghost use Rattle.std.specs.Prelude.{◌≡◌, ◌<◌, ◌-◌, length, suc, fold, IfOk, OnOk};
ghost use Rattle.std.specs.List.{All};
ghost use Rattle.class_mapping.specs.Mapped.{IsClass, relations_of};
ghost use Rattle.object_arena.specs.Fit.{relation_of};
ghost use Rattle.main_selects.specs.MainSelect as spec;

use crate::options::push_option;
use crate::shifted::{Shift, shifted_filter, shifted_order};
use base_core::{ClassId, RelNo, both};
use class_layouts::number_of;
use class_mapping::{Mapping, Relation};
use expr_types::{CopiedIn, ObjectQuery, Select};
use std::alloc::{AllocError, Global};

/// The relationship at a place of a class. The class to which it leads is declared.
pub fn relation_at(mapping: &Mapping, class: ClassId, place: RelNo) -> &Relation
    requires class { IsClass mapping.now class }
    requires place { place.0 < length (relations_of mapping.now class) }
    ensures is { result.now ≡ relation_of mapping.now class place }
    ensures target { IsClass mapping.now (relation_of mapping.now class place).target }
{
    &mapping.relations(class)[place.0 as usize]
}

/// The sources and columns of the joined option at a place.
fn push_joined(
    select: &mut Select,
    alloc: Global,
    mapping: &Mapping,
    class: ClassId,
    place: RelNo,
) -> Result<(), AllocError>
    requires class { IsClass mapping.now class }
    requires place { place.0 < length (relations_of mapping.now class) }
    ensures { OnOk result
        (select.new ≡ spec.with_joined mapping.now class select.old place) }
{
    push_option(
        select,
        alloc,
        mapping,
        class,
        relation_at(mapping, class, place),
    )
}

/// The sources and columns of joined options, in order.
#[tactic(auto, using(class_layouts::proofs::Steps::steps))]
fn push_options(
    select: &mut Select,
    alloc: Global,
    mapping: &Mapping,
    class: ClassId,
    places: &[RelNo],
) -> Result<(), AllocError>
    requires class { IsClass mapping.now class }
    requires places { All
        (λ place. place.0 < length (relations_of mapping.now class)) places.now }
    ensures { OnOk result (select.new
        ≡ fold (spec.with_joined mapping.now class) select.old places.now) }
{
    for place in places {
        push_joined(select, alloc, mapping, class, *place)?;
    }
    Ok(())
}

/// How many sources a select has of its own, and how many more a wider one has.
fn shift_between(own: &Select, wide: &Select) -> Result<Shift, AllocError>
    ensures own { IfOk result (λ shift. shift.own ≡ suc (length own.now.joins)) }
    ensures more { IfOk result
        (λ shift. shift.more ≡ length wide.now.joins - length own.now.joins) }
{
    let further = number_of(own.joins.len())?;
    Ok(Shift {
        own: number_of(further as usize + 1)?,
        more: number_of(wide.joins.len().saturating_sub(own.joins.len()))?,
    })
}

/// A value gives way to another one.
fn put<T: Drop>(place: &mut T, value: T)
    ensures { place.new ≡ value }
{
    *place = value;
}

/// A wider select takes the condition and the order of a select.
fn take_shifted(wide: &mut Select, alloc: Global, own: &Select) -> Result<(), AllocError>
    ensures { OnOk result (wide.new ≡ spec.with_shifted own.now wide.old) }
{
    let shift = shift_between(own, &*wide)?;
    let (filter, order) = both(
        shifted_filter(alloc, shift, &own.filter),
        shifted_order(alloc, shift, own.order.as_slice()),
    )?;
    put(&mut wide.filter, filter);
    put(&mut wide.order, order);
    Ok(())
}

/// A copy of a query's own select becomes its main select.
#[tactic(auto, unfolding(crate::specs::MainSelect::main_select))]
fn widen(
    wide: &mut Select,
    alloc: Global,
    mapping: &Mapping,
    query: &ObjectQuery,
) -> Result<(), AllocError>
    requires own { wide.old ≡ query.now.select }
    requires class { IsClass mapping.now query.now.class }
    requires options { All
        (λ place. place.0 < length (relations_of mapping.now query.now.class))
        query.now.joined }
    ensures { OnOk result (wide.new ≡ spec.main_select mapping.now query.now) }
{
    push_options(wide, alloc, mapping, query.class, query.joined.as_slice())?;
    take_shifted(wide, alloc, &query.select)
}

/// A query's main select: its own, with the sources and columns of its joined options. These are left-joined under aliases that
/// no table, no source and no source of an `exists` has; conditions and order speak of the same sources as before.
pub fn main_select(
    alloc: Global,
    mapping: &Mapping,
    query: &ObjectQuery,
) -> Result<Select, AllocError>
    requires class { IsClass mapping.now query.now.class }
    requires options { All
        (λ place. place.0 < length (relations_of mapping.now query.now.class))
        query.now.joined }
    ensures { IfOk result (λ s. s ≡ spec.main_select mapping.now query.now) }
{
    let mut wide = query.select.copied_in(alloc)?;
    widen(&mut wide, alloc, mapping, query).and(Ok(wide))
}
