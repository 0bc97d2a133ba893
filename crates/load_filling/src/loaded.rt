//! The making of an object for a row that was read.

ghost use Rattle.std.specs.Prelude.{◌≡◌, ◌<◌, length, false, true, None, Err, IfOk, OnOk};
ghost use Rattle.base_core.specs.Answers.{Takes};
ghost use Rattle.base_core.specs.declared.refusal.Refusal.TheVariants.{Memory};
ghost use Rattle.class_mapping.specs.Mapped.{IsClass, root_of};
ghost use Rattle.object_arena.specs.Fit.{IsFit, KeepsWith, key_fits};
ghost use Rattle.object_arena.specs.Graph.{IsObject, object_at, object_limit, root_at};
ghost use Rattle.object_arena.specs.Identity.{find_identity, is_taken, with_identity};
ghost use Rattle.load_filling.specs.Growing.{Grows};
ghost use Rattle.load_filling.specs.Loaded as spec;

use base_core::{ClassId, Key, ObjId, Refusal};
use class_mapping::Mapping;
use object_arena::Arena;

/// An object is persistent under a key that no other has.
fn settle(arena: &mut Arena, object: ObjId, key: Key)
    requires object { IsObject arena.old object }
    requires free { is_taken arena.old object key ≡ false }
    ensures settled { arena.new ≡ with_identity arena.old object key }
    ensures keeps { KeepsWith
        (λ mapped. key_fits mapped (object_at arena.old object).class key ≡ true)
        arena.old arena.new }
{
    match arena.register(object, key) {
        Ok(()) => {}
        Err(_) => unreachable!(),
    }
}

/// Makes a persistent object of a class, by the next number, under a key that no persistent object has. Nothing of it is known yet:
/// its cells are expired and its links unloaded.
///
/// # Errors
/// `LimitReached(Objects)` where there are 1,000,000 objects; `Memory` where there are fewer. A refusal changes nothing.
#[tactic(auto, unfolding(crate::specs::Loaded::load, object_arena::specs::Graph::make))]
pub fn load_object(
    arena: &mut Arena,
    mapping: &Mapping,
    class: ClassId,
    key: Key,
) -> Result<ObjId, Refusal>
    requires declared { IsClass mapping.now class }
    requires key { key_fits mapping.now class key ≡ true }
    requires free { find_identity arena.old (root_of mapping.now class) key ≡ None }
    ensures step { Takes (λ object. object)
        (spec.load mapping.now class key arena.old) arena.old result arena.new }
    ensures made { OnOk result (arena.new ≡ spec.with_loaded mapping.now class key arena.old) }
    ensures cause { result ≡ Err Memory → length arena.old.objects < object_limit }
    ensures exists { IfOk result (λ object. IsObject arena.new object) }
    ensures rooted { IfOk result
        (λ object. (root_at arena.new object).0 ≡ (root_of mapping.now class).0) }
    ensures grows { Grows arena.old arena.new }
    ensures fits { IsFit mapping.now arena.old → IsFit mapping.now arena.new }
{
    let _count = arena.count();
    let object = arena.make(mapping, class)?;
    settle(arena, object, key);
    arena.expire(object);
    Ok(object)
}
