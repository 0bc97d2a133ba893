//! Going back to where objects stood.

ghost use Rattle.std.specs.Prelude.{◌≡◌, ◌<◌, ◌≢◌, ◌-◌, ℕ, true, false, length, is_some, ◌==◌, nat_le, ◌||◌};
ghost use Rattle.std.specs.List.{All};
ghost use Rattle.object_arena.specs.Graph.{IsObject, has_identity, object_at, with_object};
ghost use Rattle.object_arena.specs.Fit.{Keeps, KeepsWith, identity_fits};
ghost use Rattle.object_arena.specs.Every.{each_object, each_placed};
ghost use Rattle.savepoints.specs.Scopes as spec;
ghost use Rattle.savepoints.specs.Restoring as way;

use crate::Scope;
use crate::scope::{Standing, made_since, take_standing};
use crate::traces::{Trace, trace_of};
use base_core::{Key, ObjId};
use object_arena::{Arena, State};

/// Each object stands where it stood at the scope's start.
pub(crate) fn put_back_all(arena: &mut Arena, scope: Scope, traces: &[Trace])
    requires { All spec.IsStanding scope.standings }
    ensures back { arena.new ≡ spec.put_back_all scope traces.now arena.old }
    ensures keeps { KeepsWith (λ mapped. spec.HasKeys mapped arena.old scope) arena.old arena.new }
{
    set_all_free(arena);
    put_each_back(arena, scope, traces);
}

#[tactic(auto, using(object_arena::proofs::TurnLemmas::turns))]
/// No object is persistent, and each keeps its identity.
fn set_all_free(arena: &mut Arena)
    ensures free { arena.new ≡ each_object way.set_free arena.old }
    ensures keeps { Keeps arena.old arena.new }
{
    for number in 0..arena.count() {
        set_free(arena, ObjId(number + 1));
    }
}

/// An object is not persistent, and keeps its identity.
fn set_free(arena: &mut Arena, object: ObjId)
    requires { IsObject arena.old object }
    ensures free { arena.new ≡ with_object arena.old object
        (way.set_free (object_at arena.old object)) }
    ensures keeps { Keeps arena.old arena.new }
{
    if arena.object(object).identity.is_some() {
        arena.stand(object, State::Detached);
    } else {
        arena.stand(object, State::Pending);
    }
}

/// Each object, none of which is persistent, goes back to where it stood.
fn put_each_back(arena: &mut Arena, scope: Scope, traces: &[Trace])
    requires sound { All spec.IsStanding scope.standings }
    requires free { All way.IsFree arena.old.objects }
    ensures back { arena.new ≡ spec.put_back_all scope traces.now arena.old }
    ensures keeps { KeepsWith (λ mapped. spec.HasKeys mapped arena.old scope) arena.old arena.new }
{
    let mut scope = scope;
    for number in 0..arena.count() {
        put_one_back(arena, &mut scope, traces, ObjId(number + 1));
    }
}

/// An object goes back to where it stood, and to detached where another one is persistent under its identity.
fn put_one_back(arena: &mut Arena, scope: &mut Scope, traces: &[Trace], object: ObjId)
    requires object { IsObject arena.old object }
    requires sound { All spec.IsStanding scope.old.standings }
    ensures back { arena.new ≡ way.with_back arena.old object
        (spec.wanted_standing scope.old traces.now (object.0 - 1) (object_at arena.old object)) }
    ensures sound { All spec.IsStanding scope.new.standings }
    ensures others { (other : ℕ) → other ≢ object.0 - 1
        → spec.standing_at scope.new other ≡ spec.standing_at scope.old other }
    ensures long { length scope.new.standings ≡ length scope.old.standings }
    ensures keeps { KeepsWith
        (λ mapped. identity_fits mapped (object_at arena.old object).class
        (spec.standing_at scope.old (object.0 - 1)).identity ≡ true)
        arena.old arena.new }
{
    let place = object.0 as usize - 1;
    if place < scope.standings.len() {
        put_back(arena, object, take_standing(scope, place));
    } else if trace_of(traces, place).loaded {
        stand_again(arena, object);
    } else {
        put_back(arena, object, made_since());
    }
}

/// An object goes back to where it stood, and to detached where another one is persistent under its identity.
fn put_back(arena: &mut Arena, object: ObjId, standing: Standing)
    requires object { IsObject arena.old object }
    requires sound { spec.IsStanding standing }
    ensures back { arena.new ≡ way.with_back arena.old object standing }
    ensures keeps { KeepsWith (λ mapped. identity_fits mapped
        (object_at arena.old object).class standing.identity ≡ true)
        arena.old arena.new }
{
    let taken = is_taken(arena, object, &standing.identity);
    arena.put_back(object, contested(taken, standing.state), standing.identity);
}

/// An object that a load made is persistent under its identity, or detached where another one is.
fn stand_again(arena: &mut Arena, object: ObjId)
    requires { IsObject arena.old object }
    ensures back { arena.new ≡ way.with_back arena.old object
        (spec.loaded_standing (object_at arena.old object).identity) }
    ensures keeps { Keeps arena.old arena.new }
{
    if arena.object(object).identity.is_none() {
        arena.stand(object, State::Transient);
        return;
    }
    let taken = is_taken(arena, object, &arena.object(object).identity);
    arena.stand(object, contested(taken, State::Persistent));
}

/// Whether another object is persistent under an identity.
fn is_taken(arena: &Arena, object: ObjId, identity: &Option<Key>) -> bool
    requires { IsObject arena.now object }
    ensures { result ≡ way.is_held arena.now object identity.now }
{
    match identity {
        Some(key) => arena.is_taken(object, key),
        None => false,
    }
}

/// The state of an object, where another one may be persistent under its identity.
fn contested(taken: bool, state: State) -> State
    ensures { result ≡ spec.contested_state taken state }
{
    match state {
        State::Persistent if taken => State::Detached,
        State::Transient | State::Pending | State::Persistent | State::Deleted | State::Detached =>
            state,
    }
}

/// The persistent objects that were touched inside the scope at a depth are to be read again, and at depth 1 all of them.
pub(crate) fn expire_touched(arena: &mut Arena, depth: u32, traces: &[Trace])
    ensures expired { arena.new ≡ each_placed (spec.read_again depth traces.now) arena.old }
    ensures keeps { Keeps arena.old arena.new }
{
    for number in 0..arena.count() {
        let touched = is_read_again(traces, depth, number as usize);
        expire_where(arena, ObjId(number + 1), touched);
    }
}

/// Whether the object at a place is read again after a rollback to the start of the scope at a depth.
fn is_read_again(traces: &[Trace], depth: u32, place: usize) -> bool
    ensures { result ≡ (depth == 1 || nat_le depth (spec.trace_in traces.now place).depth) }
{
    if depth == 1 {
        return true;
    }
    depth <= trace_of(traces, place).depth
}

/// An object is to be read again, where it was touched and is persistent.
fn expire_where(arena: &mut Arena, object: ObjId, touched: bool)
    requires { IsObject arena.old object }
    ensures expired { arena.new
        ≡ with_object arena.old object (spec.expired_where touched (object_at arena.old object)) }
    ensures keeps { Keeps arena.old arena.new }
{
    if !touched {
        return;
    }
    match arena.state_of(object) {
        State::Persistent => arena.expire(object),
        State::Transient | State::Pending | State::Deleted | State::Detached => {}
    }
}
