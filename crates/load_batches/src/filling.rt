//! The filling of the collections of several owners.

ghost use Rattle.std.specs.Prelude.{◌≡◌, true, Ok, OnOk};
ghost use Rattle.std.specs.List.{All};
ghost use Rattle.class_mapping.specs.Mapped.{root_of};
ghost use Rattle.object_arena.specs.Every.{classes_of};
ghost use Rattle.object_arena.specs.Fit.{IsFit, is_of_root};
ghost use Rattle.keeper_core.specs.Alone.{alone};
ghost use Rattle.keeper_core.specs.Moment.{Runs};
ghost use Rattle.load_rows.specs.Loading.{loading};
ghost use Rattle.load_batches.specs.Batches as spec;

use crate::groups::{Groups, groups_of, members_under};
use crate::members::Member;
use crate::owners::Owner;
use base_core::RelNo;
use class_mapping::{Mapping, Relation};
use keeper_core::Notes;
use load_rows::fill_collection;
use object_arena::Arena;
use std::alloc::{AllocError, Global};

/// The collection of an owner holds the members under its key.
fn fill_owner(
    alloc: Global,
    arena: &mut Arena,
    mapping: &Mapping,
    relation: &Relation,
    place: RelNo,
    owner: &Owner,
    members: &[Member],
    groups: &Groups,
    notes: &mut Notes,
) -> Result<(), AllocError>
    requires fit { IsFit mapping.now arena.old }
    requires owned { spec.IsOwned mapping.now arena.old relation.now place owner.now }
    requires groups { spec.AreGroups members.now groups.now }
    requires many { relation.now.many ≡ true }
    requires of { All (λ object. is_of_root arena.old.roots
        (root_of mapping.now relation.now.target) object ≡ true) (spec.objects_in members.now) }
    ensures step { OnOk result (Runs alone (λ u. u) (spec.fill_owner place members.now owner.now tt)
        (loading arena.old notes.old) (Ok tt) (loading arena.new notes.new)) }
    ensures fits { IsFit mapping.now arena.new }
    ensures classes { classes_of arena.new ≡ classes_of arena.old }
{
    let _ = relation;
    let _ = members;
    fill_collection(
        alloc,
        arena,
        mapping,
        owner.object,
        place,
        members_under(groups, &owner.key),
        notes,
    )
}

/// The collection of each owner holds the members under its key.
#[tactic(auto, unfolding(crate::specs::Batches::fill_owners))]
pub(crate) fn fill_owners(
    alloc: Global,
    arena: &mut Arena,
    mapping: &Mapping,
    relation: &Relation,
    place: RelNo,
    owners: &[Owner],
    members: &[Member],
    notes: &mut Notes,
) -> Result<(), AllocError>
    requires fit { IsFit mapping.now arena.old }
    requires owned { All (spec.IsOwned mapping.now arena.old relation.now place) owners.now }
    requires many { relation.now.many ≡ true }
    requires of { All (λ object. is_of_root arena.old.roots
        (root_of mapping.now relation.now.target) object ≡ true) (spec.objects_in members.now) }
    ensures step { OnOk result (Runs alone (λ u. u) (spec.fill_owners place owners.now members.now)
        (loading arena.old notes.old) (Ok tt) (loading arena.new notes.new)) }
    ensures fits { IsFit mapping.now arena.new }
    ensures classes { classes_of arena.new ≡ classes_of arena.old }
{
    let groups = groups_of(alloc, members)?;
    for owner in owners {
        fill_owner(
            alloc, arena, mapping, relation, place, owner, members, &groups, notes,
        )?;
    }
    Ok(())
}
