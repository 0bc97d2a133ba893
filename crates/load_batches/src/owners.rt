//! Owners with the keys of their rows.

ghost use Rattle.std.specs.Prelude.{◌≡◌, ◌++◌, IfOk, OnOk};
ghost use Rattle.std.specs.List.{All};
ghost use Rattle.class_types.specs.declared.mapped.Relation.{Relation};
ghost use Rattle.class_mapping.specs.Mapped.{Mapped};
ghost use Rattle.object_arena.specs.Fit.{IsFit};
ghost use Rattle.object_arena.specs.Graph.{IsObject};
ghost use Rattle.load_rows.specs.Links.{link_in};
ghost use Rattle.load_batches.specs.Batches as spec;

use base_core::{Copied, Key, KeyList, ListOf, ObjId, RelNo};
use load_rows::identity_key;
use object_arena::{Arena, Object};
use std::alloc::{AllocError, Global};

/// An owner of a collection, and the key of its row.
#[derive(Drop)]
pub struct Owner {
    pub object: ObjId,
    pub key: Key,
}

/// Whether the link of an object at a place is to be read.
pub fn is_unloaded(object: &Object, place: RelNo) -> bool
    ensures { result ≡ spec.is_unloaded (link_in object.now.links place) }
{
    match object.links.get(place.0 as usize) {
        Some(link) => object_parts::is_unloaded(link),
        None => false,
    }
}

/// An owner with the key of its row.
fn with_key(alloc: Global, arena: &Arena, owner: ObjId) -> Result<Owner, AllocError>
    requires { IsObject arena.now owner }
    ensures { IfOk result (λ o. o ≡ spec.with_key arena.now owner) }
{
    let key = identity_key(alloc, arena, owner)?;
    Ok(Owner { object: owner, key })
}

/// An owner goes behind others with the key of its row, where its link at a place is unloaded.
fn push_unloaded(
    out: &mut ListOf<Owner>,
    alloc: Global,
    arena: &Arena,
    place: RelNo,
    owner: ObjId,
) -> Result<(), AllocError>
    requires { IsObject arena.now owner }
    ensures owners { OnOk result
        (out.new ≡ out.old ++ spec.unloaded_owner arena.now place owner) }
    ensures owned { (mapped : Mapped) (relation : Relation) → IsFit mapped arena.now
        → spec.IsOwner mapped arena.now relation place owner
        → All (spec.IsOwned mapped arena.now relation place) out.old
        → OnOk result (All (spec.IsOwned mapped arena.now relation place) out.new) }
{
    if !is_unloaded(arena.object(owner), place) {
        return Ok(());
    }
    out.push(with_key(alloc, arena, owner)?)
}

/// The owners whose link at a place is unloaded, with their keys.
#[tactic(auto, using(class_layouts::proofs::Steps::steps), unfolding(crate::specs::Batches::unloaded_owners))]
pub(crate) fn unloaded_owners(
    alloc: Global,
    arena: &Arena,
    place: RelNo,
    owners: &[ObjId],
) -> Result<ListOf<Owner>, AllocError>
    requires { All (IsObject arena.now) owners.now }
    ensures owners { IfOk result
        (λ found. found ≡ spec.unloaded_owners arena.now place owners.now) }
    ensures owned { (mapped : Mapped) (relation : Relation) → IsFit mapped arena.now
        → All (spec.IsOwner mapped arena.now relation place) owners.now
        → IfOk result (All (spec.IsOwned mapped arena.now relation place)) }
{
    let mut found = ListOf::new(alloc);
    for owner in owners {
        push_unloaded(&mut found, alloc, arena, place, *owner)?;
    }
    Ok(found)
}

/// The keys of owners.
pub(crate) fn keys_of(alloc: Global, owners: &[Owner]) -> Result<KeyList, AllocError>
    ensures { IfOk result (λ keys. keys ≡ spec.keys_of owners.now) }
{
    let mut keys = ListOf::new(alloc);
    for owner in owners {
        keys.push(owner.key.copied()?)?;
    }
    Ok(keys)
}
