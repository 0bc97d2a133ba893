//! The filling of the links of joined options.

ghost use Rattle.std.specs.Prelude.{◌≡◌, ◌<◌, true, length, slice_get, Ok, OnOk};
ghost use Rattle.std.specs.List.{All};
ghost use Rattle.class_mapping.specs.Mapped.{IsClass, relations_of, root_of};
ghost use Rattle.object_arena.specs.Every.{classes_of};
ghost use Rattle.object_arena.specs.Fit.{IsFit, is_of_root, relation_of};
ghost use Rattle.keeper_core.specs.Alone.{alone};
ghost use Rattle.keeper_core.specs.Moment.{Runs};
ghost use Rattle.load_rows.specs.Loading.{loading};
ghost use Rattle.joined_rows.specs.Taking.{IsTaken};
ghost use Rattle.load_queries.specs.Joined as spec;

use crate::given::{given_by_rows, objects_at};
use crate::joined_owners::owners_among;
use base_core::{ClassId, ObjId, RelNo};
use class_mapping::Mapping;
use joined_rows::Part;
use keeper_core::Notes;
use load_rows::{fill_collection, fill_end, relation_at};
use object_arena::Arena;
use object_parts::Taken;
use std::alloc::{AllocError, Global};

/// The first of what was given.
fn first_of(given: &[ObjId]) -> Option<ObjId>
    ensures { result ≡ slice_get given.now 0 }
{
    given.get(0).copied()
}

/// The link of an owner at a place of its class, or of the one under which that stands, holds what was given.
fn fill_link(
    alloc: Global,
    arena: &mut Arena,
    mapping: &Mapping,
    class: ClassId,
    place: RelNo,
    owner: ObjId,
    given: &[ObjId],
    notes: &mut Notes,
) -> Result<(), AllocError>
    requires class { IsClass mapping.now class }
    requires fit { IsFit mapping.now arena.old }
    requires place { place.0 < length (relations_of mapping.now class) }
    requires owner { spec.IsOwner mapping.now arena.old class owner }
    requires of { All (λ object. is_of_root arena.old.roots (root_of mapping.now
        (relation_of mapping.now class place).target) object ≡ true) given.now }
    ensures filled { OnOk result (loading arena.new notes.new
        ≡ spec.link_filled (spec.is_many mapping.now class place) owner place given.now
        (loading arena.old notes.old)) }
    ensures fits { IsFit mapping.now arena.new }
    ensures classes { classes_of arena.new ≡ classes_of arena.old }
{
    let many = relation_at(mapping, class, place).many;
    if many {
        return fill_collection(alloc, arena, mapping, owner, place, given, notes);
    }
    fill_end(arena, mapping, owner, place, first_of(given), notes)
}

/// The link of an option, of each owner.
#[tactic(auto, unfolding(crate::specs::Joined::fill_option))]
fn fill_option(
    alloc: Global,
    arena: &mut Arena,
    mapping: &Mapping,
    class: ClassId,
    number: usize,
    part: Part,
    taken: &[Taken],
    owners: &[ObjId],
    notes: &mut Notes,
) -> Result<(), AllocError>
    requires class { IsClass mapping.now class }
    requires fit { IsFit mapping.now arena.old }
    requires part { spec.IsPartOf mapping.now class part }
    requires of { spec.GiveMembers mapping.now arena.old.roots (number, part) taken.now }
    requires owners { All (spec.IsOwner mapping.now arena.old class) owners.now }
    ensures step { OnOk result (Runs alone (λ u. u)
        (spec.fill_option mapping.now class taken.now owners.now (number, part) tt)
        (loading arena.old notes.old) (Ok tt) (loading arena.new notes.new)) }
    ensures fits { IsFit mapping.now arena.new }
    ensures classes { classes_of arena.new ≡ classes_of arena.old }
{
    let given = given_by_rows(alloc, number, taken)?;
    for owner in owners {
        let objects = objects_at(&given, *owner);
        fill_link(
            alloc, arena, mapping, class, part.place, *owner, objects, notes,
        )?;
    }
    Ok(())
}

/// The links of all options, one option after the other.
#[tactic(auto, unfolding(crate::specs::Joined::fill_options))]
fn fill_options(
    alloc: Global,
    arena: &mut Arena,
    mapping: &Mapping,
    class: ClassId,
    parts: &[Part],
    taken: &[Taken],
    owners: &[ObjId],
    notes: &mut Notes,
) -> Result<(), AllocError>
    requires class { IsClass mapping.now class }
    requires fit { IsFit mapping.now arena.old }
    requires parts { All (spec.IsPartOf mapping.now class) parts.now }
    requires taken { All (IsTaken mapping.now arena.old.roots class parts.now) taken.now }
    requires owners { All (spec.IsOwner mapping.now arena.old class) owners.now }
    ensures step { OnOk result (Runs alone (λ u. u)
        (spec.fill_options mapping.now class parts.now taken.now owners.now)
        (loading arena.old notes.old) (Ok tt) (loading arena.new notes.new)) }
    ensures fits { IsFit mapping.now arena.new }
    ensures classes { classes_of arena.new ≡ classes_of arena.old }
{
    for (number, part) in parts.iter().enumerate() {
        fill_option(
            alloc, arena, mapping, class, number, *part, taken, owners, notes,
        )?;
    }
    Ok(())
}

/// The links of the owners among objects.
pub(crate) fn fill_owners(
    alloc: Global,
    arena: &mut Arena,
    mapping: &Mapping,
    class: ClassId,
    parts: &[Part],
    taken: &[Taken],
    objects: &[ObjId],
    notes: &mut Notes,
) -> Result<(), AllocError>
    requires class { IsClass mapping.now class }
    requires fit { IsFit mapping.now arena.old }
    requires parts { All (spec.IsPartOf mapping.now class) parts.now }
    requires taken { All (IsTaken mapping.now arena.old.roots class parts.now) taken.now }
    requires of { All (λ object. is_of_root arena.old.roots (root_of mapping.now class) object
        ≡ true) objects.now }
    ensures step { OnOk result (Runs alone (λ u. u)
        (spec.fill_owners mapping.now class parts.now taken.now objects.now)
        (loading arena.old notes.old) (Ok tt) (loading arena.new notes.new)) }
    ensures fits { IsFit mapping.now arena.new }
    ensures classes { classes_of arena.new ≡ classes_of arena.old }
{
    let owners = owners_among(alloc, mapping, &*arena, class, objects)?;
    fill_options(
        alloc,
        arena,
        mapping,
        class,
        parts,
        taken,
        owners.as_slice(),
        notes,
    )
}
