//! What is kept of a scope.

ghost use Rattle.std.specs.Prelude.{◌≡◌, ◌≢◌, ◌<◌, ℕ, IfOk, length, slice_set};
ghost use Rattle.std.specs.List.{All};
ghost use Rattle.class_mapping.specs.Mapped.{Mapped};
ghost use Rattle.object_arena.specs.Fit.{IsFit};
ghost use Rattle.savepoints.specs.Scopes as spec;

use base_core::{Key, ListOf, ObjId};
use object_arena::{Arena, Object, State};
use std::alloc::{AllocError, Global};

/// Where an object stands.
#[derive(Drop)]
pub struct Standing {
    pub state: State,
    pub identity: Option<Key>,
}

/// A scope: where each object that had been made stood at its start.
#[derive(Drop)]
pub struct Scope {
    pub standings: ListOf<Standing>,
}

/// Where an object stands that was not made yet.
pub(crate) fn made_since() -> Standing
    ensures { result ≡ spec.made_since }
{
    Standing {
        state: State::Transient,
        identity: None,
    }
}

/// Where an object stands now.
fn standing_of(object: &Object) -> Result<Standing, AllocError>
    ensures { IfOk result (λ standing. standing ≡ spec.standing_of object.now) }
{
    Ok(Standing {
        state: object.state,
        identity: object.identity.clone()?,
    })
}

/// A scope that begins with the objects as they stand now. The only refusal is out of memory.
pub(crate) fn begun_at(alloc: Global, arena: &Arena) -> Result<Scope, AllocError>
    ensures scope { IfOk result (λ scope. scope ≡ spec.begun_at arena.now) }
    ensures sound { IfOk result (λ scope. All spec.IsStanding scope.standings) }
    ensures keys { IfOk result
        (λ scope. (mapped : Mapped) → IsFit mapped arena.now
        → spec.HasKeys mapped arena.now scope) }
{
    let mut standings = ListOf::new(alloc);
    for number in 0..arena.count() {
        standings.push(standing_of(arena.object(ObjId(number + 1)))?)?;
    }
    Ok(Scope { standings })
}

/// Where the object at a place stood; it is taken out.
pub(crate) fn take_standing(scope: &mut Scope, place: usize) -> Standing
    requires { place < length scope.old.standings }
    ensures standing { result ≡ spec.standing_at scope.old place }
    ensures taken { scope.new.standings ≡ slice_set scope.old.standings place spec.made_since }
    ensures long { length scope.new.standings ≡ length scope.old.standings }
    ensures others { (other : ℕ) → other ≢ place
        → spec.standing_at scope.new other ≡ spec.standing_at scope.old other }
{
    scope.standings.replace(place, made_since())
}
