//! The end of a transaction that was committed, and of a session that is closed.

ghost use Rattle.std.specs.Prelude.{◌≡◌, false};
ghost use Rattle.object_arena.specs.Graph.{IsObject, object_at, with_object};
ghost use Rattle.object_arena.specs.Fit.{Keeps};
ghost use Rattle.object_arena.specs.Every.{each_object};
ghost use Rattle.session_parts.specs.Ends as spec;

use base_core::ObjId;
use object_arena::{Arena, State};

/// A delete mark is taken away.
pub fn unmark(arena: &mut Arena, object: ObjId)
    requires { IsObject arena.old object }
    ensures unmarked { arena.new
        ≡ with_object arena.old object (spec.object_unmarked (object_at arena.old object)) }
    ensures keeps { Keeps arena.old arena.new }
{
    let (added, orphan) = {
        let record = arena.object(object);
        (record.added, record.orphan)
    };
    arena.put_marks(object, added, false, orphan);
}

#[tactic(auto, using(object_arena::proofs::TurnLemmas::turns))]
/// Every object is as it is after a commit.
pub fn commit_all(arena: &mut Arena)
    ensures committed { arena.new ≡ each_object spec.object_committed arena.old }
    ensures keeps { Keeps arena.old arena.new }
{
    for number in 0..arena.count() {
        commit_one(arena, ObjId(number + 1));
    }
}

/// A persistent object is expired, and a deleted one detached.
fn commit_one(arena: &mut Arena, object: ObjId)
    requires { IsObject arena.old object }
    ensures committed { arena.new
        ≡ with_object arena.old object (spec.object_committed (object_at arena.old object)) }
    ensures keeps { Keeps arena.old arena.new }
{
    match arena.object(object).state {
        State::Persistent => arena.expire(object),
        State::Deleted => arena.put_state(object, State::Detached),
        State::Transient | State::Pending | State::Detached => {}
    }
}

#[tactic(auto, using(object_arena::proofs::TurnLemmas::turns))]
/// Every object leaves the session.
pub fn let_go_all(arena: &mut Arena)
    ensures left { arena.new ≡ each_object spec.object_left arena.old }
    ensures keeps { Keeps arena.old arena.new }
{
    for number in 0..arena.count() {
        let_go(arena, ObjId(number + 1));
    }
}

/// A pending object is transient, a persistent or deleted one detached, and no delete mark stays.
pub fn let_go(arena: &mut Arena, object: ObjId)
    requires { IsObject arena.old object }
    ensures left { arena.new
        ≡ with_object arena.old object (spec.object_left (object_at arena.old object)) }
    ensures keeps { Keeps arena.old arena.new }
{
    unmark(arena, object);
    arena.put_state(object, left_state(arena.object(object).state));
}

/// Where an object stands once it has left the session.
fn left_state(state: State) -> State
    ensures { result ≡ spec.left_state state }
{
    match state {
        State::Transient | State::Pending => State::Transient,
        State::Persistent | State::Deleted | State::Detached => State::Detached,
    }
}
