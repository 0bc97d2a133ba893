//! The owners among objects.

ghost use Rattle.std.specs.Prelude.{◌≡◌, IfOk};
ghost use Rattle.std.specs.List.{All};
ghost use Rattle.object_arena.specs.Graph.{IsObject};
ghost use Rattle.relations.specs.Mirror.{is_of};
ghost use Rattle.load_queries.specs.Joined as spec;

use base_core::{ClassId, ListOf, ObjId, ObjList};
use class_layouts::has_class;
use class_mapping::Mapping;
use object_arena::Arena;
use std::alloc::{AllocError, Global};

/// Whether an object is of a class at or under another.
fn is_owner(arena: &Arena, mapping: &Mapping, class: ClassId, object: ObjId) -> bool
    requires { IsObject arena.now object }
    ensures { result ≡ is_of arena.now mapping.now class object }
{
    let own = arena.object(object).class;
    has_class(mapping.line_of(own), class.0 as usize)
}

/// Those objects that are of a class at or under another.
pub(crate) fn owners_among(
    alloc: Global,
    mapping: &Mapping,
    arena: &Arena,
    class: ClassId,
    objects: &[ObjId],
) -> Result<ObjList, AllocError>
    requires { All (IsObject arena.now) objects.now }
    ensures of { IfOk result (All (spec.IsOwner mapping.now arena.now class)) }
    ensures owners { IfOk result
        (λ owners. owners ≡ spec.owners_among mapping.now class arena.now objects.now) }
{
    let mut owners = ListOf::new(alloc);
    for object in objects {
        if is_owner(arena, mapping, class, *object) {
            owners.push(*object)?;
        }
    }
    Ok(owners)
}
