//! The filling of the links of several owners.

ghost use Rattle.std.specs.Prelude.{◌≡◌, true, false, Ok, OnOk};
ghost use Rattle.std.specs.List.{All};
ghost use Rattle.class_mapping.specs.Mapped.{IsClass, root_of};
ghost use Rattle.object_arena.specs.Every.{classes_of};
ghost use Rattle.object_arena.specs.Fit.{IsFit, end_fits};
ghost use Rattle.keeper_core.specs.Alone.{alone};
ghost use Rattle.keeper_core.specs.Moment.{Runs};
ghost use Rattle.load_rows.specs.Loading.{loading};
ghost use Rattle.load_ends.specs.Ends as spec;

use base_core::{ClassId, Key, ObjId, RelNo};
use class_mapping::{Mapping, Relation};
use keeper_core::Notes;
use load_rows::fill_end;
use load_targets::{has_null, if_of, target_key};
use object_arena::Arena;
use std::alloc::{AllocError, Global};

/// The object of a class that the identity map has under a key.
fn known_end(arena: &Arena, mapping: &Mapping, class: ClassId, key: &Key) -> Option<ObjId>
    requires class { IsClass mapping.now class }
    requires fit { IsFit mapping.now arena.now }
    ensures end { result ≡ spec.known_end mapping.now class arena.now key.now }
    ensures of { end_fits arena.now.roots (root_of mapping.now class) result ≡ true }
{
    if has_null(key.as_slice()) {
        return None;
    }
    match arena.find_identity(mapping.root_of(class), key) {
        Some(found) => if_of(arena, mapping, class, found),
        None => None,
    }
}

/// The link of an owner leads to what the identity map has under its foreign key.
fn fill_owner(
    alloc: Global,
    arena: &mut Arena,
    mapping: &Mapping,
    relation: &Relation,
    place: RelNo,
    owner: ObjId,
    notes: &mut Notes,
) -> Result<(), AllocError>
    requires fit { IsFit mapping.now arena.old }
    requires owner { spec.IsChild mapping.now arena.old relation.now place owner }
    requires one { relation.now.many ≡ false }
    ensures step { OnOk result (Runs alone (λ u. u)
        (spec.fill_owner mapping.now relation.now place owner tt)
        (loading arena.old notes.old) (Ok tt) (loading arena.new notes.new)) }
    ensures fits { IsFit mapping.now arena.new }
    ensures classes { classes_of arena.new ≡ classes_of arena.old }
{
    let key = target_key(alloc, &*arena, mapping, relation, owner, place)?;
    let end = known_end(&*arena, mapping, relation.target, &key);
    fill_end(arena, mapping, owner, place, end, notes)
}

/// The links of owners lead to what the identity map has under their foreign keys.
#[tactic(auto, unfolding(crate::specs::Ends::fill_owners))]
pub(crate) fn fill_owners(
    alloc: Global,
    arena: &mut Arena,
    mapping: &Mapping,
    relation: &Relation,
    place: RelNo,
    owners: &[ObjId],
    notes: &mut Notes,
) -> Result<(), AllocError>
    requires fit { IsFit mapping.now arena.old }
    requires owners { All (spec.IsChild mapping.now arena.old relation.now place) owners.now }
    requires one { relation.now.many ≡ false }
    ensures step { OnOk result (Runs alone (λ u. u)
        (spec.fill_owners mapping.now relation.now place owners.now)
        (loading arena.old notes.old) (Ok tt) (loading arena.new notes.new)) }
    ensures fits { IsFit mapping.now arena.new }
    ensures classes { classes_of arena.new ≡ classes_of arena.old }
{
    for owner in owners {
        fill_owner(alloc, arena, mapping, relation, place, *owner, notes)?;
    }
    Ok(())
}
