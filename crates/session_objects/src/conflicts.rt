//! Why objects do not come into the session.

ghost use Rattle.std.specs.Prelude.{◌≡◌, None, Some, IfSome};
ghost use Rattle.std.specs.List.{list_any};
ghost use Rattle.object_arena.specs.Graph.{IsObject, object_at};
ghost use Rattle.object_arena.specs.Identity.{IsGraph, has_key};
ghost use Rattle.keeper_core.specs.Alone.{IsOwn};
ghost use Rattle.session_objects.specs.Conflicts as spec;
ghost use Rattle.session_objects.specs.Taking.{AreMade, AreOnce, MayComeIn, MayJoin};

use base_core::{Key, ObjId, Refusal, RequestKind};
use object_arena::{Arena, State};
use session_scopes::Session;

/// Why an object, with those that come in with it, does not come in: it is deleted, or one of them is detached and its identity is
/// another one's.
pub(crate) fn add_fault(session: &Session, object: ObjId, objects: &[ObjId]) -> Option<Refusal>
    requires object { IsObject session.now.graph object }
    requires once { AreOnce session.now.graph objects.now }
    ensures fault { result ≡ spec.add_fault_among object objects.now session.now }
    ensures own { IfSome result IsOwn }
    ensures free { result ≡ None → MayJoin session.now objects.now }
    ensures graph { IsGraph session.now.graph.objects session.now.graph.roots }
{
    // Each state has an identity or has none.
    let _count = session.arena().count();
    if is_deleted(session.object(object).state) {
        return Some(Refusal::InvalidRequestError(RequestKind::Deleted));
    }
    conflict_fault(session, objects)
}

fn is_deleted(state: State) -> bool
    ensures { result ≡ spec.is_deleted state }
{
    match state {
        State::Deleted => true,
        State::Transient | State::Pending | State::Persistent | State::Detached => false,
    }
}

/// Why objects do not come in: one of them is detached, and a persistent object or another of them has its identity. Where nothing
/// is against them they may come in one after another.
pub fn conflict_fault(session: &Session, objects: &[ObjId]) -> Option<Refusal>
    requires once { AreOnce session.now.graph objects.now }
    ensures fault { result ≡ spec.conflict_fault session.now.graph objects.now }
    ensures own { IfSome result IsOwn }
    ensures free { result ≡ None → MayComeIn session.now.graph objects.now }
    ensures graph { IsGraph session.now.graph.objects session.now.graph.roots }
{
    let arena = session.arena();
    // No two persistent objects have one root and one key.
    let _count = arena.count();
    if has_conflict(arena, objects) {
        return Some(Refusal::InvalidRequestError(RequestKind::IdentityConflict));
    }
    None
}

/// Whether one of these objects is detached, and its identity is another one's.
fn has_conflict(arena: &Arena, objects: &[ObjId]) -> bool
    requires { AreMade arena.now objects.now }
    ensures { result ≡ spec.has_conflict arena.now objects.now }
{
    for object in objects {
        if conflicts(arena, objects, *object) {
            return true;
        }
    }
    false
}

/// Whether an object is detached, and its identity is another one's.
fn conflicts(arena: &Arena, objects: &[ObjId], object: ObjId) -> bool
    requires object { IsObject arena.now object }
    requires made { AreMade arena.now objects.now }
    ensures { result ≡ spec.conflicts_in (object_at arena.now object).state arena.now objects.now object }
{
    match arena.object(object).state {
        State::Detached => is_taken(arena, objects, object),
        State::Transient | State::Pending | State::Persistent | State::Deleted => false,
    }
}

/// Whether a persistent object, or another one of these, has the identity of an object.
fn is_taken(arena: &Arena, objects: &[ObjId], object: ObjId) -> bool
    requires object { IsObject arena.now object }
    requires made { AreMade arena.now objects.now }
    ensures { result ≡ spec.conflicts_under
        arena.now objects.now object (object_at arena.now object).identity }
{
    match &arena.object(object).identity {
        Some(key) => is_mapped(arena, object, key) || is_shared(arena, objects, object, key),
        None => false,
    }
}

/// Whether a persistent object of an object's root has a key.
fn is_mapped(arena: &Arena, object: ObjId, key: &Key) -> bool
    requires { IsObject arena.now object }
    ensures { result ≡ spec.is_mapped arena.now object (Some key.now) }
{
    arena.find_identity(arena.root_at(object), key).is_some()
}

/// Whether another one of these objects has an object's root and a key.
fn is_shared(arena: &Arena, objects: &[ObjId], object: ObjId, key: &Key) -> bool
    requires object { IsObject arena.now object }
    requires made { AreMade arena.now objects.now }
    ensures { result ≡ list_any (spec.has_same_identity arena.now object key.now) objects.now }
{
    for other in objects {
        if has_same_identity(arena, object, key, *other) {
            return true;
        }
    }
    false
}

/// Whether an object is another one, and has its root and a key.
fn has_same_identity(arena: &Arena, object: ObjId, key: &Key, other: ObjId) -> bool
    requires object { IsObject arena.now object }
    requires other { IsObject arena.now other }
    ensures { result ≡ spec.has_same_identity arena.now object key.now other }
{
    other.0 != object.0
        && (arena.root_at(object).0 == arena.root_at(other).0
            && has_key(key, &arena.object(other).identity))
}

/// Whether an identity has a key.
fn has_key(key: &Key, identity: &Option<Key>) -> bool
    ensures { result ≡ has_key key.now identity.now }
{
    match identity {
        Some(own) => own.cmp(key).is_eq(),
        None => false,
    }
}
