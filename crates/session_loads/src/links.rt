//! To what links lead.

ghost use Rattle.std.specs.Prelude.{◌≡◌, ◌<◌, false, true, length, IfErr, IfOk, OnOk};
ghost use Rattle.class_mapping.specs.Mapped.{relations_of};
ghost use Rattle.object_arena.specs.declared.object.State.TheVariants.{Persistent};
ghost use Rattle.object_arena.specs.Graph.{IsObject, object_at};
ghost use Rattle.session_scopes.specs.SessionState.{IsInStep};
ghost use Rattle.session_calls.specs.Calling.{IsSessionCall};
ghost use Rattle.session_calls.specs.Steps.{pending_fault};
ghost use Rattle.session_links.specs.Reading.{AreToldMade, is_many, none_related};
ghost use Rattle.session_loads.specs.Asking as asking;
ghost use Rattle.session_loads.specs.Reads as steps;
ghost use Rattle.session_loads.specs.Refusals.{IsLoadedFrom, IsRefusedHere, IsRefusedLink, IsRefusedLoading, IsRefusedWriting};

use crate::asking::{is_unloaded_in, link_fault};
use crate::loads::{LoadLink, load};
use base_core::{Copied, ListOf, ObjId, Refusal, RelNo};
use keeper_core::Keeper;
use load_rows::relation_at;
use object_arena::Link;
use session_acts::flush;
use session_calls::enter;
use session_links::Related;
use session_scopes::Session;
use std::alloc::{AllocError, Global};

/// The object to which a many-to-one link leads, or the members of a collection. A link that is loaded, and one that was never set,
/// is told as it stands. Where it is not loaded all that is to be written is written, and then the link is loaded, by a select where
/// one is needed.
///
/// # Errors
/// `PendingRollbackError` while a failed flush waits for its rollback; then, in the transaction and of a link that is not loaded,
/// `DetachedInstanceError` where its object is not persistent; what a flush is refused for; `DetachedInstanceError` where its object
/// left the session by that; then what the keeper refuses of a select, `ObjectDeletedError` where the object's expired cells were
/// read and it had no row, `InvalidRequestError(NoSuchIdentity)` for a row that names no class, and `LimitReached(Objects)`. What was
/// loaded by then stays, and the link stays unloaded.
pub fn read_related<K: Keeper>(
    session: &mut Session,
    keeper: &mut K,
    object: ObjId,
    place: RelNo,
) -> Result<Related, Refusal>
    requires in_step { IsInStep session.old (K.moment keeper.old) }
    requires object { IsObject session.old.graph object }
    requires place { place.0
        < length (relations_of session.old.mapping (object_at session.old.graph object).class) }
    ensures call { IsSessionCall K.moment (λ related. related) (steps.read_related object place)
        (session.old, keeper.old) result (session.new, keeper.new) }
    ensures refused { IfErr result (λ e. IsRefusedLoading (pending_fault session.old)
        (asking.link_fault object place session.old) (asking.link_fault object place)
        (IsRefusedLink object)
        session.old (K.moment keeper.old) e session.new (K.moment keeper.new)) }
    ensures made { IfOk result (AreToldMade session.new.graph) }
{
    enter(session, keeper)?;
    tell_related(session, keeper, object, place)
}

/// To what a link leads, in the transaction.
fn tell_related<K: Keeper>(
    session: &mut Session,
    keeper: &mut K,
    object: ObjId,
    place: RelNo,
) -> Result<Related, Refusal>
    requires in_step { IsInStep session.old (K.moment keeper.old) }
    requires inside { 0 < length session.old.frames.scopes }
    requires well { session.old.failed ≡ false }
    requires object { IsObject session.old.graph object }
    requires place { place.0
        < length (relations_of session.old.mapping (object_at session.old.graph object).class) }
    ensures call { IsSessionCall K.moment (λ related. related) (steps.tell_related object place)
        (session.old, keeper.old) result (session.new, keeper.new) }
    ensures refused { IfErr result (λ e. IsRefusedHere (asking.link_fault object place session.old)
        (IsRefusedWriting (asking.link_fault object place) (IsRefusedLink object))
        session.old (K.moment keeper.old) e session.new (K.moment keeper.new)) }
    ensures made { IfOk result (AreToldMade session.new.graph) }
{
    if let Some(fault) = link_fault(session, object, place) {
        return Err(fault);
    }
    fetch_link(session, keeper, object, place)?;
    Ok(related_in(session, object, place)?)
}

/// Writes what is to be written and loads a link, where it is not loaded.
#[tactic(auto, unfolding(crate::specs::Reads::fetch_link))]
fn fetch_link<K: Keeper>(
    session: &mut Session,
    keeper: &mut K,
    object: ObjId,
    place: RelNo,
) -> Result<(), Refusal>
    requires in_step { IsInStep session.old (K.moment keeper.old) }
    requires inside { 0 < length session.old.frames.scopes }
    requires well { session.old.failed ≡ false }
    requires object { IsObject session.old.graph object }
    requires place { place.0
        < length (relations_of session.old.mapping (object_at session.old.graph object).class) }
    ensures call { IsSessionCall K.moment (λ u. u) (steps.fetch_link object place)
        (session.old, keeper.old) result (session.new, keeper.new) }
    ensures refused { IfErr result (λ e. IsRefusedWriting (asking.link_fault object place)
        (IsRefusedLink object)
        session.old (K.moment keeper.old) e session.new (K.moment keeper.new)) }
{
    if !is_unloaded_in(session, object, place) {
        return Ok(());
    }
    write_and_fill(session, keeper, object, place)
}

/// Writes what is to be written, and then loads a link that is not loaded.
fn write_and_fill<K: Keeper>(
    session: &mut Session,
    keeper: &mut K,
    object: ObjId,
    place: RelNo,
) -> Result<(), Refusal>
    requires in_step { IsInStep session.old (K.moment keeper.old) }
    requires inside { 0 < length session.old.frames.scopes }
    requires well { session.old.failed ≡ false }
    requires object { IsObject session.old.graph object }
    requires place { place.0
        < length (relations_of session.old.mapping (object_at session.old.graph object).class) }
    ensures call { IsSessionCall K.moment (λ u. u) (steps.write_and_fill object place)
        (session.old, keeper.old) result (session.new, keeper.new) }
    ensures refused { IfErr result (λ e. IsRefusedWriting (asking.link_fault object place)
        (IsRefusedLink object)
        session.old (K.moment keeper.old) e session.new (K.moment keeper.new)) }
{
    flush(session, keeper)?;
    fill_attached(session, keeper, object, place)
}

/// Loads a link that is not loaded, of an object that may have left the session.
pub(crate) fn fill_attached<K: Keeper>(
    session: &mut Session,
    keeper: &mut K,
    object: ObjId,
    place: RelNo,
) -> Result<(), Refusal>
    requires in_step { IsInStep session.old (K.moment keeper.old) }
    requires inside { 0 < length session.old.frames.scopes }
    requires object { IsObject session.old.graph object }
    requires place { place.0
        < length (relations_of session.old.mapping (object_at session.old.graph object).class) }
    ensures call { IsSessionCall K.moment (λ u. u) (steps.fill_attached object place)
        (session.old, keeper.old) result (session.new, keeper.new) }
    ensures left { OnOk result (IsLoadedFrom session.old session.new) }
    ensures refused { IfErr result (λ e. IsRefusedHere (asking.link_fault object place session.old)
        (IsRefusedLink object)
        session.old (K.moment keeper.old) e session.new (K.moment keeper.new)) }
{
    match link_fault(session, object, place) {
        Some(fault) => Err(fault),
        None => fill_link(session, keeper, object, place),
    }
}

/// Loads a link that is not loaded.
#[tactic(auto, unfolding(crate::specs::Reads::fill_link))]
fn fill_link<K: Keeper>(
    session: &mut Session,
    keeper: &mut K,
    object: ObjId,
    place: RelNo,
) -> Result<(), Refusal>
    requires in_step { IsInStep session.old (K.moment keeper.old) }
    requires inside { 0 < length session.old.frames.scopes }
    requires object { IsObject session.old.graph object }
    requires place { place.0
        < length (relations_of session.old.mapping (object_at session.old.graph object).class) }
    requires held { asking.is_unloaded_in object place session.old ≡ true
        → (object_at session.old.graph object).state ≡ Persistent }
    ensures call { IsSessionCall K.moment (λ u. u) (steps.fill_link object place)
        (session.old, keeper.old) result (session.new, keeper.new) }
    ensures left { IsLoadedFrom session.old session.new }
    ensures refused { IfErr result (λ e. IsRefusedLink object
        session.old (K.moment keeper.old) e session.new (K.moment keeper.new)) }
{
    if !is_unloaded_in(session, object, place) {
        return Ok(());
    }
    load(session, keeper, LoadLink { object, place })
}

/// To what a link leads, as it stands: none, or no members, where it is not loaded.
fn related_in(session: &Session, object: ObjId, place: RelNo) -> Result<Related, AllocError>
    requires object { IsObject session.now.graph object }
    requires place { place.0
        < length (relations_of session.now.mapping (object_at session.now.graph object).class) }
    ensures told { IfOk result (λ related. related ≡ steps.related_in object place session.now) }
    ensures made { IfOk result (AreToldMade session.now.graph) }
{
    let record = session.arena().object(object);
    match record.links.get(place.0 as usize) {
        None | Some(Link::Unset | Link::Unloaded { .. }) => Ok(none_related(
            session.alloc(),
            is_many(session, object, place),
        )),
        Some(Link::One { end, .. }) => Ok(Related::One(*end)),
        Some(Link::Many { members, .. }) => Ok(Related::Many(members.copied()?)),
    }
}

/// Whether a relationship of an object is a collection.
fn is_many(session: &Session, object: ObjId, place: RelNo) -> bool
    requires object { IsObject session.now.graph object }
    requires place { place.0
        < length (relations_of session.now.mapping (object_at session.now.graph object).class) }
    ensures { result ≡ is_many session.now object place }
{
    relation_at(session.mapping(), session.object(object).class, place).many
}

/// None, or no members.
fn none_related(alloc: Global, many: bool) -> Related
    ensures { result ≡ none_related many }
{
    if many {
        return Related::Many(ListOf::new(alloc));
    }
    Related::One(None)
}
