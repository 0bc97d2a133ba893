//! One link of an object is changed.

ghost use Rattle.std.specs.Prelude.{◌≡◌, ◌<◌, None, Ok, OnOk, IfErr, IfOk, length};
ghost use Rattle.base_core.specs.Answers.{Gives};
ghost use Rattle.base_core.specs.declared.refusal.Refusal.TheVariants.{Memory};
ghost use Rattle.class_mapping.specs.Mapped.{relations_of};
ghost use Rattle.object_arena.specs.Fit.{relation_of};
ghost use Rattle.object_arena.specs.Graph.{IsObject, object_at};
ghost use Rattle.relations.specs.Calls.{end_of, is_of_collection, link_change};
ghost use Rattle.relations.specs.Fits.{ChangeFits};
ghost use Rattle.relations.specs.Keys.{IsEnd};
ghost use Rattle.relations.specs.Places.{IsPlaced};
ghost use Rattle.session_scopes.specs.SessionState.{IsInStep, SameObjects};
ghost use Rattle.session_calls.specs.Calling.{IsSessionCall};
ghost use Rattle.session_calls.specs.Refusals.{IsRefused};
ghost use Rattle.session_calls.specs.Steps.{pending_fault};
ghost use Rattle.session_objects.specs.Steps.{IsDoneInside};
ghost use Rattle.session_objects.specs.Taking.{AreOnce, MayComeIn, outsiders, session_joined};
ghost use Rattle.session_links.specs.Linking as spec;
ghost use Rattle.session_links.specs.Relinked.{IsRelinked};
ghost use Rattle.session_links.specs.Steps as steps;

use crate::places::relation_at;
use crate::putting::put_change;
use base_core::{ListOf, ObjId, ObjList, Refusal, RelNo};
use keeper_core::Keeper;
use relations::{Change, LinkCall, link_change};
use session_calls::enter;
use session_objects::{coming_objects, conflict_fault, is_inside, take_all};
use session_scopes::Session;
use std::alloc::AllocError;

/// Sets a many-to-one link of an object to another object or to none, appends a member to a collection, or takes one out. Both sides
/// change at once. Where the owner is in the session and the relationship has save-update, an object that joins comes into the
/// session with those that hang on it, it first and the others by number; the other side's cascades bring in nothing. An object is
/// touched in the innermost scope where its record comes to differ.
///
/// Nothing at all happens where the link leads there already and is loaded, or the member is there already. Where a collection is not
/// loaded its members are not asked for: the change is kept for its load. Who wants it loaded first loads it.
///
/// # Errors
/// `PendingRollbackError` while a failed flush waits for its rollback; then, in the transaction, `InvalidRequestError` with the first
/// that holds: `BadOwner` (the owner is deleted or detached), `BadMember` (the named object is, or is of no class at or under the
/// link's target), `KeyChange` (a link over key columns of a persistent object would lead to an object that is no known old parent
/// and does not keep the key), `NotAMember` (a collection whose members are known lacks the object that is to be taken out),
/// `IdentityConflict` (an object that would come in is detached, and a persistent object or another one has its identity).
pub fn change_link<K: Keeper>(
    session: &mut Session,
    keeper: &mut K,
    owner: ObjId,
    relation: RelNo,
    call: LinkCall,
) -> Result<(), Refusal>
    requires in_step { IsInStep session.old (K.moment keeper.old) }
    requires owner { IsObject session.old.graph owner }
    requires relation { relation.0
        < length (relations_of session.old.mapping (object_at session.old.graph owner).class) }
    requires form { (relation_of session.old.mapping (object_at session.old.graph owner).class relation).many
        ≡ is_of_collection call }
    requires end { IsEnd session.old.graph (end_of call) }
    ensures call { IsSessionCall K.moment (λ u. u) (steps.change_link owner relation call)
        (session.old, keeper.old) result (session.new, keeper.new) }
    ensures refused { IfErr result (λ e. IsRefused (pending_fault session.old)
        (spec.change_fault owner relation call session.old) session.old e session.new) }
{
    enter(session, keeper)?;
    change_inside(session, owner, relation, call)
}

/// Changes one link of an object, in the transaction, as `change_link` does.
///
/// # Errors
/// As `change_link`, without `PendingRollbackError`.
pub fn change_inside(
    session: &mut Session,
    owner: ObjId,
    relation: RelNo,
    call: LinkCall,
) -> Result<(), Refusal>
    requires owner { IsObject session.old.graph owner }
    requires relation { relation.0
        < length (relations_of session.old.mapping (object_at session.old.graph owner).class) }
    requires form { (relation_of session.old.mapping (object_at session.old.graph owner).class relation).many
        ≡ is_of_collection call }
    requires end { IsEnd session.old.graph (end_of call) }
    ensures done { IsDoneInside (spec.change_fault owner relation call session.old)
        (spec.session_changed owner relation call session.old) session.old result session.new }
    ensures same { SameObjects session.old session.new }
    ensures scopes { length session.new.frames.scopes ≡ length session.old.frames.scopes }
{
    let change = change_of(session, owner, relation, call)?;
    change_links(session, owner, relation, call, change)
}

/// Which links of the session's objects change with one.
///
/// # Errors
/// As `relations::link_change`.
pub fn change_of(
    session: &Session,
    owner: ObjId,
    relation: RelNo,
    call: LinkCall,
) -> Result<Change, Refusal>
    requires owner { IsObject session.now.graph owner }
    requires relation { relation.0
        < length (relations_of session.now.mapping (object_at session.now.graph owner).class) }
    requires form { (relation_of session.now.mapping (object_at session.now.graph owner).class relation).many
        ≡ is_of_collection call }
    requires end { IsEnd session.now.graph (end_of call) }
    ensures change { Gives (λ change. change) result
        (link_change session.now.graph session.now.mapping owner relation call) }
    ensures placed { IfOk result (IsPlaced session.now.graph) }
    ensures fits { IfOk result (ChangeFits session.now.mapping session.now.graph) }
{
    link_change(
        session.alloc(),
        session.arena(),
        session.mapping(),
        owner,
        relation,
        call,
    )
}

/// Changes links that can change, unless something is against what comes in with them.
fn change_links(
    session: &mut Session,
    owner: ObjId,
    relation: RelNo,
    call: LinkCall,
    change: Change,
) -> Result<(), Refusal>
    requires owner { IsObject session.old.graph owner }
    requires relation { relation.0
        < length (relations_of session.old.mapping (object_at session.old.graph owner).class) }
    requires end { IsEnd session.old.graph (end_of call) }
    requires change { link_change session.old.graph session.old.mapping owner relation call ≡ Ok change }
    requires placed { IsPlaced session.old.graph change }
    requires fits { ChangeFits session.old.mapping session.old.graph change }
    ensures done { IsDoneInside (spec.change_fault owner relation call session.old)
        (spec.session_changed owner relation call session.old) session.old result session.new }
    ensures same { SameObjects session.old session.new }
    ensures scopes { length session.new.frames.scopes ≡ length session.old.frames.scopes }
{
    let objects = coming_along(session, owner, relation, call, change.joined.is_some())?;
    let coming = objects.as_slice();
    match conflict_fault(session, coming) {
        Some(fault) => Err(fault),
        None => Ok(put_all(session, call.child(owner), change, coming)?),
    }
}

/// The links change, and then the objects come in.
fn put_all(
    session: &mut Session,
    child: ObjId,
    change: Change,
    objects: &[ObjId],
) -> Result<(), AllocError>
    requires child { IsObject session.old.graph child }
    requires placed { IsPlaced session.old.graph change }
    requires fits { ChangeFits session.old.mapping session.old.graph change }
    requires free { MayComeIn session.old.graph objects.now }
    requires rooted { length session.old.graph.roots ≡ length session.old.graph.objects }
    ensures ok { OnOk result (session.new
        ≡ session_joined objects.now (spec.session_linked child change session.old)) }
    ensures relinked { OnOk result (IsRelinked session.old.graph
        (spec.session_linked child change session.old).graph) }
    ensures same { SameObjects session.old session.new }
    ensures scopes { session.new.frames.scopes ≡ session.old.frames.scopes }
{
    put_change(session, child, change)?;
    take_all(session, objects)
}

/// The objects that come in along the side that is acted on, where a collection is joined or is not; but for those that are in
/// the session already, since nothing becomes of them. The only refusal is out of memory.
pub fn coming_along(
    session: &Session,
    owner: ObjId,
    relation: RelNo,
    call: LinkCall,
    joins: bool,
) -> Result<ObjList, AllocError>
    requires owner { IsObject session.now.graph owner }
    requires relation { relation.0
        < length (relations_of session.now.mapping (object_at session.now.graph owner).class) }
    requires end { IsEnd session.now.graph (end_of call) }
    ensures objects { IfOk result (λ objects. objects ≡ outsiders session.now.graph
        (spec.coming_if joins session.now owner relation call)) }
    ensures once { IfOk result (AreOnce session.now.graph) }
{
    if !(joins && brings_in(session, owner, relation)) {
        return Ok(ListOf::new(session.alloc()));
    }
    match call.end() {
        Some(end) => coming_objects(session, end),
        None => Ok(ListOf::new(session.alloc())),
    }
}

/// Whether an owner is in the session, and what is linked to it comes in with it.
fn brings_in(session: &Session, owner: ObjId, relation: RelNo) -> bool
    requires owner { IsObject session.now.graph owner }
    requires relation { relation.0
        < length (relations_of session.now.mapping (object_at session.now.graph owner).class) }
    ensures { result ≡ spec.brings_in session.now owner relation }
{
    is_inside(session.object(owner).state)
        && relation_at(session, owner, relation).cascade.save_update
}
