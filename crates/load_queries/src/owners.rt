//! The objects whose links are loaded.

ghost use Rattle.std.specs.Prelude.{◌≡◌, ◌++◌, IfOk, OnOk};
ghost use Rattle.std.specs.List.{All};
ghost use Rattle.object_arena.specs.Graph.{IsObject, is_persistent};
ghost use Rattle.load_queries.specs.Selectin as spec;

use base_core::{ClassId, ListOf, ObjId, ObjList};
use class_layouts::has_class;
use class_mapping::Mapping;
use object_arena::{Arena, State};
use std::alloc::{AllocError, Global};

fn is_persistent(state: State) -> bool
    ensures { result ≡ is_persistent state }
{
    match state {
        State::Persistent => true,
        State::Transient | State::Pending | State::Deleted | State::Detached => false,
    }
}

/// Whether an object is a persistent one of a class or of one under it.
pub fn is_owner(arena: &Arena, mapping: &Mapping, class: ClassId, object: ObjId) -> bool
    requires { IsObject arena.now object }
    ensures { result ≡ spec.is_owner mapping.now class arena.now object }
{
    is_persistent(arena.state_of(object))
        && has_class(mapping.line_of(arena.class_of(object)), class.0 as usize)
}

/// An object goes behind others, where it is an owner.
fn push_owner(
    owners: &mut ObjList,
    arena: &Arena,
    mapping: &Mapping,
    class: ClassId,
    object: ObjId,
) -> Result<(), AllocError>
    requires { IsObject arena.now object }
    ensures owners { OnOk result
        (owners.new ≡ owners.old ++ spec.if_owner mapping.now class arena.now object) }
    ensures of { All (spec.IsOwnerOf mapping.now arena.now class) owners.old
        → OnOk result (All (spec.IsOwnerOf mapping.now arena.now class) owners.new) }
{
    if !is_owner(arena, mapping, class, object) {
        return Ok(());
    }
    owners.push(object)
}

/// The persistent objects of a class or of one under it.
#[tactic(auto, using(class_layouts::proofs::Steps::steps), unfolding(crate::specs::Selectin::owners_among))]
pub(crate) fn owners_among(
    alloc: Global,
    arena: &Arena,
    mapping: &Mapping,
    class: ClassId,
    objects: &[ObjId],
) -> Result<ObjList, AllocError>
    requires { All (IsObject arena.now) objects.now }
    ensures owners { IfOk result
        (λ owners. owners ≡ spec.owners_among mapping.now class arena.now objects.now) }
    ensures of { IfOk result (All (spec.IsOwnerOf mapping.now arena.now class)) }
{
    let mut owners = ListOf::new(alloc);
    for object in objects {
        push_owner(&mut owners, arena, mapping, class, *object)?;
    }
    Ok(owners)
}
