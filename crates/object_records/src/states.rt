//! Objects in other states.

ghost use Rattle.std.specs.Prelude.{◌≡◌, length, true, false, is_some, not, ◌&&◌};
ghost use Rattle.std.specs.Option.{unwrap_or};
ghost use Rattle.object_arena.specs.Graph.{IsObject, has_identity, is_persistent, object_at, with_object};
ghost use Rattle.object_arena.specs.Every.{classes_of, each_placed};
ghost use Rattle.object_arena.specs.Fit.{Keeps};
ghost use Rattle.object_arena.specs.Identity.{IsFree};
ghost use Rattle.object_records.specs.Way as way;

use base_core::{Key, ObjId};
use object_arena::{Arena, Object, State};

/// Whether a state is that of a persistent object.
fn is_persistent(state: State) -> bool
    ensures { result ≡ is_persistent state }
{
    match state {
        State::Persistent => true,
        State::Transient | State::Pending | State::Deleted | State::Detached => false,
    }
}

/// The objects that are to be persistent no more are detached.
pub(crate) fn step_aside(arena: &mut Arena, records: &[Option<Object>])
    requires { length records.now ≡ length arena.old.objects }
    ensures aside { arena.new ≡ each_placed (way.aside records.now) arena.old }
    ensures keeps { Keeps arena.old arena.new }
{
    for number in 0..arena.count() {
        step_for(arena, ObjId(number + 1), &records[number as usize]);
    }
}

#[tactic(auto, using(crate::proofs::StateSteps::stays))]
/// An object that is to be persistent no more, by the record for it if there is one, is detached.
fn step_for(arena: &mut Arena, object: ObjId, given: &Option<Object>)
    requires { IsObject arena.old object }
    ensures aside { arena.new ≡ with_object arena.old object (way.aside_for
        (unwrap_or given.now (object_at arena.old object)) (object_at arena.old object)) }
    ensures keeps { Keeps arena.old arena.new }
{
    match given {
        Some(new) => step_one(arena, object, new),
        None => {}
    }
}

/// An object that is to be persistent no more is detached.
fn step_one(arena: &mut Arena, object: ObjId, new: &Object)
    requires { IsObject arena.old object }
    ensures aside { arena.new
        ≡ with_object arena.old object (way.aside_for new.now (object_at arena.old object)) }
    ensures keeps { Keeps arena.old arena.new }
{
    let is_leaving = is_persistent(arena.state_of(object)) && !is_persistent(new.state);
    detach_if(arena, object, is_leaving);
}

#[tactic(auto, using(crate::proofs::StateSteps::states))]
/// A persistent object is detached, where that is asked for.
fn detach_if(arena: &mut Arena, object: ObjId, is_leaving: bool)
    requires object { IsObject arena.old object }
    requires held { is_leaving ≡ true → is_persistent (object_at arena.old object).state ≡ true }
    ensures aside { arena.new
        ≡ with_object arena.old object (way.aside_if is_leaving (object_at arena.old object)) }
    ensures keeps { Keeps arena.old arena.new }
{
    if is_leaving && arena.object(object).identity.is_some() {
        arena.stand(object, State::Detached);
    }
}

#[tactic(auto, using(crate::proofs::StateSteps::states))]
/// An object goes into a state under an identity. A persistent one that stays so keeps what it has.
pub(crate) fn put_state(arena: &mut Arena, object: ObjId, state: State, identity: Option<Key>)
    requires object { IsObject arena.old object }
    requires identity { has_identity state ≡ is_some identity }
    requires same { is_persistent (object_at arena.old object).state ≡ true
        → is_persistent state ≡ true → identity ≡ (object_at arena.old object).identity }
    requires free { is_persistent state ≡ true → IsFree arena.old object identity }
    ensures { arena.new
        ≡ with_object arena.old object (way.stood state identity (object_at arena.old object)) }
{
    if is_persistent(state) {
        put_persistent(arena, object, identity);
    } else {
        arena.put_back(object, state, identity);
    }
}

#[tactic(auto, using(crate::proofs::StateSteps::states))]
/// An object is persistent under an identity. One that was so before keeps what it has.
fn put_persistent(arena: &mut Arena, object: ObjId, identity: Option<Key>)
    requires object { IsObject arena.old object }
    requires identity { is_some identity ≡ true }
    requires same { is_persistent (object_at arena.old object).state ≡ true
        → identity ≡ (object_at arena.old object).identity }
    requires free { IsFree arena.old object identity }
    ensures { arena.new ≡ with_object arena.old object
        (record (object_at arena.old object) { state = State.Persistent; identity = identity }) }
{
    if is_persistent(arena.state_of(object)) {
        return;
    }
    if let Some(key) = identity {
        register(arena, object, key);
    }
}

/// An object is persistent under a key that no other one has.
fn register(arena: &mut Arena, object: ObjId, key: Key)
    requires object { IsObject arena.old object }
    requires free { IsFree arena.old object (Some key) }
    ensures { arena.new ≡ with_object arena.old object
        (record (object_at arena.old object) { state = State.Persistent; identity = Some key }) }
{
    match arena.register(object, key) {
        Ok(()) => {}
        Err(_taken) => {}
    }
}
