//! What is asked of a session before rows are read.

ghost use Rattle.std.specs.Prelude.{◌≡◌, ◌<◌, None, true, length, IfSome};
ghost use Rattle.class_mapping.specs.Mapped.{IsAttribute, relations_of};
ghost use Rattle.object_arena.specs.declared.object.State.TheVariants.{Persistent};
ghost use Rattle.object_arena.specs.Fit.{relation_of};
ghost use Rattle.object_arena.specs.Graph.{IsObject, is_persistent, object_at};
ghost use Rattle.keeper_core.specs.Alone.{IsOwn};
ghost use Rattle.relations.specs.Calls.{end_of, is_of_collection};
ghost use Rattle.relations.specs.Keys.{IsEnd};
ghost use Rattle.session_objects.specs.Steps.{IsDoneInside};
ghost use Rattle.session_loads.specs.Asking as spec;

use base_core::{AttrNo, ObjId, Refusal, RelNo, RequestKind};
use object_arena::State;
use relations::{LinkCall, is_unloaded};
use session_links::{change_of, coming_along};
use session_objects::conflict_fault;
use session_scopes::Session;

/// Whether a cell is expired.
pub(crate) fn is_expired(session: &Session, object: ObjId, attr: AttrNo) -> bool
    requires object { IsObject session.now.graph object }
    requires attr { IsAttribute session.now.mapping (object_at session.now.graph object).class attr }
    ensures { result ≡ spec.is_expired_in object attr session.now }
{
    let record = session.object(object);
    record.cells.at(attr.0 as usize).value.is_none()
}

/// Whether a cell of an object's key is expired.
pub(crate) fn is_key_expired(session: &Session, object: ObjId) -> bool
    requires { IsObject session.now.graph object }
    ensures { result ≡ spec.is_key_expired_in object session.now }
{
    let class = session.object(object).class;
    for attr in session.mapping().key_attributes(class) {
        if is_expired(session, object, *attr) {
            return true;
        }
    }
    false
}

/// Whether a link is not loaded.
pub(crate) fn is_unloaded_in(session: &Session, object: ObjId, place: RelNo) -> bool
    requires { IsObject session.now.graph object }
    ensures { result ≡ spec.is_unloaded_in object place session.now }
{
    is_unloaded(session.arena(), object, place)
}

fn is_persistent(state: State) -> bool
    ensures { result ≡ is_persistent state }
{
    matches!(state, State::Persistent)
}

/// Why something that is to be read of an object is not: it is not persistent.
fn detached_fault(session: &Session, object: ObjId, asked: bool) -> Option<Refusal>
    requires { IsObject session.now.graph object }
    ensures fault { result ≡ spec.detached_if asked object session.now }
    ensures own { IfSome result IsOwn }
    ensures held { result ≡ None → asked ≡ true
        → (object_at session.now.graph object).state ≡ Persistent }
{
    if asked && !is_persistent(session.object(object).state) {
        return Some(Refusal::DetachedInstanceError(object));
    }
    None
}

/// Why an expired cell is not read: its object is not persistent.
pub(crate) fn cell_fault(session: &Session, object: ObjId, attr: AttrNo) -> Option<Refusal>
    requires object { IsObject session.now.graph object }
    requires attr { IsAttribute session.now.mapping (object_at session.now.graph object).class attr }
    ensures fault { result ≡ spec.cell_fault object attr session.now }
    ensures own { IfSome result IsOwn }
    ensures held { result ≡ None → spec.is_expired_in object attr session.now ≡ true
        → (object_at session.now.graph object).state ≡ Persistent }
{
    let asked = is_expired(session, object, attr);
    detached_fault(session, object, asked)
}

/// Why a link that is not loaded is not read: its object is not persistent.
pub(crate) fn link_fault(session: &Session, object: ObjId, place: RelNo) -> Option<Refusal>
    requires object { IsObject session.now.graph object }
    ensures fault { result ≡ spec.link_fault object place session.now }
    ensures own { IfSome result IsOwn }
    ensures held { result ≡ None → spec.is_unloaded_in object place session.now ≡ true
        → (object_at session.now.graph object).state ≡ Persistent }
{
    let asked = is_unloaded_in(session, object, place);
    detached_fault(session, object, asked)
}

/// Why an object is not read anew: it is not persistent.
pub(crate) fn persistence_fault(session: &Session, object: ObjId) -> Option<Refusal>
    requires { IsObject session.now.graph object }
    ensures fault { result ≡ spec.persistence_fault object session.now }
    ensures own { IfSome result IsOwn }
    ensures held { result ≡ None → (object_at session.now.graph object).state ≡ Persistent }
{
    if is_persistent(session.object(object).state) {
        return None;
    }
    Some(Refusal::InvalidRequestError(RequestKind::NotPersistent))
}

/// Asks what is against a change of a link, as far as that is known without its members.
///
/// # Errors
/// As `relations::link_change`, and `InvalidRequestError(IdentityConflict)` where an object that would come in is detached, and a
/// persistent object or another one has its identity.
pub(crate) fn ask_change(
    session: &Session,
    owner: ObjId,
    place: RelNo,
    call: LinkCall,
) -> Result<(), Refusal>
    requires owner { IsObject session.now.graph owner }
    requires place { place.0
        < length (relations_of session.now.mapping (object_at session.now.graph owner).class) }
    requires form { (relation_of session.now.mapping (object_at session.now.graph owner).class place).many
        ≡ is_of_collection call }
    requires end { IsEnd session.now.graph (end_of call) }
    ensures { IsDoneInside (spec.asked_fault owner place call session.now)
        session.now session.now result session.now }
{
    let change = change_of(session, owner, place, call)?;
    let objects = coming_along(session, owner, place, call, change.joined.is_some())?;
    match conflict_fault(session, objects.as_slice()) {
        Some(fault) => Err(fault),
        None => Ok(()),
    }
}
