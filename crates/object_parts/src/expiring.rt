//! The expiry of an object.

ghost use Rattle.std.specs.Prelude.{◌≡◌, true};
ghost use Rattle.object_arena.specs.Fit.{Keeps};
ghost use Rattle.object_arena.specs.Graph.{IsObject, is_persistent, object_at, with_object};
ghost use Rattle.object_parts.specs.Expired as spec;

use base_core::ObjId;
use object_arena::Arena;

/// A persistent object is expired, where that is asked for.
#[tactic(auto, using(crate::proofs::Expiries::expiries, object_arena::proofs::KeepLemmas::keeps_same))]
pub fn expire_if(arena: &mut Arena, object: ObjId, is_read: bool)
    requires object { IsObject arena.old object }
    requires persistent { is_read ≡ true → is_persistent (object_at arena.old object).state ≡ true }
    ensures reread { arena.new ≡ with_object arena.old object
        (spec.expired_if is_read (object_at arena.old object)) }
    ensures keeps { Keeps arena.old arena.new }
{
    if is_read {
        arena.expire(object);
    }
}
