//! Collections that change.

ghost use Rattle.std.specs.Prelude.{◌≡◌, ◌<◌, false, length, IfErr, OnOk};
ghost use Rattle.class_mapping.specs.Mapped.{relations_of};
ghost use Rattle.object_arena.specs.Fit.{relation_of};
ghost use Rattle.object_arena.specs.Graph.{IsObject, object_at};
ghost use Rattle.relations.specs.Calls.{end_of, is_of_collection};
ghost use Rattle.relations.specs.Keys.{IsEnd};
ghost use Rattle.session_scopes.specs.SessionState.{IsInStep};
ghost use Rattle.session_calls.specs.Calling.{IsSessionCall};
ghost use Rattle.session_loads.specs.Asking as asking;
ghost use Rattle.session_loads.specs.Reads as steps;
ghost use Rattle.session_loads.specs.Refusals.{HasMembers, IsLoadedFrom, IsRefusedChanging, IsRefusedHere, IsRefusedLink, IsRefusedMembers, IsRefusedWriting};

use crate::asking::{ask_change, is_unloaded_in};
use crate::links::fill_attached;
use base_core::{ObjId, Refusal, RelNo};
use keeper_core::Keeper;
use relations::LinkCall;
use session_acts::flush;
use session_calls::enter;
use session_links::change_inside;
use session_scopes::Session;

/// Appends a member to a collection, or takes one out, as `change_link` of `session_links` does. Where the collection is not loaded,
/// all that is to be written is written first, and then its members are read.
///
/// # Errors
/// `PendingRollbackError` while a failed flush waits for its rollback; then, in the transaction, what `change_link` is refused for, but
/// that of a collection that is not loaded a member is not yet missed. Of such a collection, then, what a flush is refused for; the
/// same as before it once more; `DetachedInstanceError` where its owner left the session by that; what the load of a link is refused
/// for, which leaves what was loaded by then, and the collection unloaded; and at last what `change_link` is refused for.
pub fn change_collection<K: Keeper>(
    session: &mut Session,
    keeper: &mut K,
    owner: ObjId,
    place: RelNo,
    call: LinkCall,
) -> Result<(), Refusal>
    requires in_step { IsInStep session.old (K.moment keeper.old) }
    requires owner { IsObject session.old.graph owner }
    requires place { place.0
        < length (relations_of session.old.mapping (object_at session.old.graph owner).class) }
    requires form { (relation_of session.old.mapping (object_at session.old.graph owner).class place).many
        ≡ is_of_collection call }
    requires end { IsEnd session.old.graph (end_of call) }
    ensures call { IsSessionCall K.moment (λ u. u) (steps.change_collection owner place call)
        (session.old, keeper.old) result (session.new, keeper.new) }
    ensures refused { IfErr result (λ e. IsRefusedChanging owner place call
        session.old (K.moment keeper.old) e session.new (K.moment keeper.new)) }
{
    enter(session, keeper)?;
    change_loaded(session, keeper, owner, place, call)
}

/// What is done in the transaction.
fn change_loaded<K: Keeper>(
    session: &mut Session,
    keeper: &mut K,
    owner: ObjId,
    place: RelNo,
    call: LinkCall,
) -> Result<(), Refusal>
    requires in_step { IsInStep session.old (K.moment keeper.old) }
    requires inside { 0 < length session.old.frames.scopes }
    requires well { session.old.failed ≡ false }
    requires owner { IsObject session.old.graph owner }
    requires place { place.0
        < length (relations_of session.old.mapping (object_at session.old.graph owner).class) }
    requires form { (relation_of session.old.mapping (object_at session.old.graph owner).class place).many
        ≡ is_of_collection call }
    requires end { IsEnd session.old.graph (end_of call) }
    ensures call { IsSessionCall K.moment (λ u. u) (steps.change_loaded owner place call)
        (session.old, keeper.old) result (session.new, keeper.new) }
    ensures refused { IfErr result (λ e. IsRefusedMembers owner place call
        session.old (K.moment keeper.old) e session.new (K.moment keeper.new)) }
{
    fetch_members(session, keeper, owner, place, call)?;
    change_inside(session, owner, place, call)
}

/// Reads the members of a collection that is not loaded.
#[tactic(auto, unfolding(crate::specs::Reads::fetch_members))]
fn fetch_members<K: Keeper>(
    session: &mut Session,
    keeper: &mut K,
    owner: ObjId,
    place: RelNo,
    call: LinkCall,
) -> Result<(), Refusal>
    requires in_step { IsInStep session.old (K.moment keeper.old) }
    requires inside { 0 < length session.old.frames.scopes }
    requires well { session.old.failed ≡ false }
    requires owner { IsObject session.old.graph owner }
    requires place { place.0
        < length (relations_of session.old.mapping (object_at session.old.graph owner).class) }
    requires form { (relation_of session.old.mapping (object_at session.old.graph owner).class place).many
        ≡ is_of_collection call }
    requires end { IsEnd session.old.graph (end_of call) }
    ensures call { IsSessionCall K.moment (λ u. u) (steps.fetch_members owner place call)
        (session.old, keeper.old) result (session.new, keeper.new) }
    ensures known { OnOk result (HasMembers owner place session.old session.new) }
    ensures refused { IfErr result (λ e. IsRefusedHere (asking.asked_fault owner place call session.old)
        (IsRefusedWriting (asking.members_fault owner place call) (IsRefusedLink owner))
        session.old (K.moment keeper.old) e session.new (K.moment keeper.new)) }
{
    if !is_unloaded_in(session, owner, place) {
        return Ok(());
    }
    read_members(session, keeper, owner, place, call)
}

/// Reads the members of a collection once all is written; what is against its change is asked before and behind that.
fn read_members<K: Keeper>(
    session: &mut Session,
    keeper: &mut K,
    owner: ObjId,
    place: RelNo,
    call: LinkCall,
) -> Result<(), Refusal>
    requires in_step { IsInStep session.old (K.moment keeper.old) }
    requires inside { 0 < length session.old.frames.scopes }
    requires well { session.old.failed ≡ false }
    requires owner { IsObject session.old.graph owner }
    requires place { place.0
        < length (relations_of session.old.mapping (object_at session.old.graph owner).class) }
    requires form { (relation_of session.old.mapping (object_at session.old.graph owner).class place).many
        ≡ is_of_collection call }
    requires end { IsEnd session.old.graph (end_of call) }
    ensures call { IsSessionCall K.moment (λ u. u) (steps.read_members owner place call)
        (session.old, keeper.old) result (session.new, keeper.new) }
    ensures known { OnOk result (HasMembers owner place session.old session.new) }
    ensures refused { IfErr result (λ e. IsRefusedHere (asking.asked_fault owner place call session.old)
        (IsRefusedWriting (asking.members_fault owner place call) (IsRefusedLink owner))
        session.old (K.moment keeper.old) e session.new (K.moment keeper.new)) }
{
    ask_change(session, owner, place, call)?;
    flush(session, keeper)?;
    read_attached(session, keeper, owner, place, call)
}

/// Reads the members of a collection that is not loaded, unless something is against its change or its owner has left the session.
fn read_attached<K: Keeper>(
    session: &mut Session,
    keeper: &mut K,
    owner: ObjId,
    place: RelNo,
    call: LinkCall,
) -> Result<(), Refusal>
    requires in_step { IsInStep session.old (K.moment keeper.old) }
    requires inside { 0 < length session.old.frames.scopes }
    requires owner { IsObject session.old.graph owner }
    requires place { place.0
        < length (relations_of session.old.mapping (object_at session.old.graph owner).class) }
    requires form { (relation_of session.old.mapping (object_at session.old.graph owner).class place).many
        ≡ is_of_collection call }
    requires end { IsEnd session.old.graph (end_of call) }
    ensures call { IsSessionCall K.moment (λ u. u) (steps.read_attached owner place call)
        (session.old, keeper.old) result (session.new, keeper.new) }
    ensures left { OnOk result (IsLoadedFrom session.old session.new) }
    ensures refused { IfErr result (λ e. IsRefusedHere (asking.members_fault owner place call session.old)
        (IsRefusedLink owner)
        session.old (K.moment keeper.old) e session.new (K.moment keeper.new)) }
{
    ask_change(session, owner, place, call)?;
    fill_attached(session, keeper, owner, place)
}
