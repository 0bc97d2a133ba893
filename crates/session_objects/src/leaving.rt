//! An object leaves the session.

ghost use Rattle.std.specs.Prelude.{◌≡◌, not, IfErr, IfSome, OnOk};
ghost use Rattle.std.specs.List.{All};
ghost use Rattle.class_mapping.specs.Mapped.{Mapped};
ghost use Rattle.object_arena.specs.Every.{classes_of};
ghost use Rattle.object_arena.specs.Fit.{IsFit, Keeps};
ghost use Rattle.object_arena.specs.Graph.{IsObject, object_at};
ghost use Rattle.object_records.specs.Same.{same_object};
ghost use Rattle.object_records.specs.Touched.{frames_touched_between};
ghost use Rattle.keeper_core.specs.Alone.{IsOwn};
ghost use Rattle.session_scopes.specs.SessionState.{IsInStep, SameObjects};
ghost use Rattle.session_calls.specs.Calling.{IsSessionCall};
ghost use Rattle.session_calls.specs.Refusals.{IsRefused};
ghost use Rattle.session_calls.specs.Steps.{pending_fault};
ghost use Rattle.session_objects.specs.Leaving as spec;
ghost use Rattle.session_objects.specs.Steps as steps;

use crate::coming::is_inside;
use base_core::{ObjId, Refusal, RequestKind};
use cascades::expunge_closure;
use class_mapping::Mapping;
use keeper_core::Keeper;
use object_arena::{Arena, Object};
use object_records::touch_if;
use savepoints::Frames;
use session_calls::enter;
use session_parts::let_go;
use session_scopes::{ObjectStep, Session};
use std::alloc::AllocError;

/// An object leaves, if it is in the session.
#[derive(Drop)]
struct Leaving {
    object: ObjId,
}

impl ObjectStep for Leaving {
    ghost use Rattle.object_arena.specs.Graph.{IsObject};
    ghost use Rattle.session_objects.specs.Leaving.{expunged_at};

    ghost is_ready = { λ step mapped graph. IsObject graph step.object };

    ghost after = { λ step mapped graph. expunged_at graph step.object };

    fn take(
        self,
        mapping: &Mapping,
        arena: &mut Arena,
        frames: &mut Frames,
    ) -> Result<(), AllocError> {
        expunge_one(arena, frames, self.object)
    }
}

/// An object leaves, if it is in the session, and is touched in the innermost scope then.
fn expunge_one(arena: &mut Arena, frames: &mut Frames, object: ObjId) -> Result<(), AllocError>
    requires { IsObject arena.old object }
    ensures ok { OnOk result (arena.new ≡ spec.expunged_at arena.old object) }
    ensures touched { OnOk result (frames.new
        ≡ frames_touched_between arena.old arena.new frames.old) }
    ensures keeps { (mapped : Mapped) → IsFit mapped arena.old → IsFit mapped arena.new }
    ensures classes { classes_of arena.new ≡ classes_of arena.old }
    ensures scopes { frames.new.scopes ≡ frames.old.scopes }
{
    let differs = comes_to_differ(arena.object(object));
    touch_if(frames, arena, object, differs)?;
    let_go_inside(arena, object);
    Ok(())
}

/// Whether an object comes to differ by leaving.
fn comes_to_differ(object: &Object) -> bool
    ensures { result ≡ not (same_object object.now (spec.expunged_object object.now)) }
{
    is_inside(object.state)
}

/// An object leaves, if it is in the session.
#[tactic(auto, using(crate::proofs::LeavingLemmas::leavings, object_arena::proofs::KeepLemmas::keeps_same))]
fn let_go_inside(arena: &mut Arena, object: ObjId)
    requires { IsObject arena.old object }
    ensures left { arena.new ≡ spec.expunged_at arena.old object }
    ensures keeps { Keeps arena.old arena.new }
{
    if is_inside(arena.state_of(object)) {
        let_go(arena, object);
    }
}

/// Objects leave, one after another.
fn expunge_all(session: &mut Session, objects: &[ObjId]) -> Result<(), AllocError>
    requires { All (IsObject session.old.graph) objects.now }
    ensures ok { OnOk result (session.new ≡ spec.all_expunged objects.now session.old) }
    ensures same { SameObjects session.old session.new }
    ensures scopes { session.new.frames.scopes ≡ session.old.frames.scopes }
{
    for object in objects {
        session.step(Leaving { object: *object })?;
    }
    Ok(())
}

/// An object leaves, and along expunge those that hang on it, each if it is in the session. The only refusal is out of memory.
#[tactic(auto, unfolding(crate::specs::Leaving::session_expunged))]
fn expunge_along(session: &mut Session, object: ObjId) -> Result<(), AllocError>
    requires { IsObject session.old.graph object }
    ensures ok { OnOk result (session.new ≡ spec.session_expunged object session.old) }
    ensures same { SameObjects session.old session.new }
    ensures scopes { session.new.frames.scopes ≡ session.old.frames.scopes }
{
    let closure = expunge_closure(session.alloc(), session.arena(), session.mapping(), object)?;
    expunge_all(session, closure.as_slice())
}

/// Why an object does not leave: it is not in the session.
fn expunge_fault(session: &Session, object: ObjId) -> Option<Refusal>
    requires { IsObject session.now.graph object }
    ensures fault { result ≡ spec.expunge_fault object session.now }
    ensures own { IfSome result IsOwn }
{
    if is_inside(session.object(object).state) {
        return None;
    }
    Some(Refusal::InvalidRequestError(RequestKind::NotInSession))
}

/// An object leaves the session, with all to which expunge goes on from it by loaded links and kept adds. Pending ones are transient
/// then, persistent ones detached, without their delete marks. They keep their cells and links. Each is touched in the innermost scope.
///
/// # Errors
/// `PendingRollbackError` while a failed flush waits for its rollback; then, in the transaction, `InvalidRequestError(NotInSession)`.
pub fn expunge<K: Keeper>(
    session: &mut Session,
    keeper: &mut K,
    object: ObjId,
) -> Result<(), Refusal>
    requires in_step { IsInStep session.old (K.moment keeper.old) }
    requires object { IsObject session.old.graph object }
    ensures call { IsSessionCall K.moment (λ u. u) (steps.expunge object)
        (session.old, keeper.old) result (session.new, keeper.new) }
    ensures refused { IfErr result (λ e. IsRefused (pending_fault session.old)
        (spec.expunge_fault object session.old) session.old e session.new) }
{
    enter(session, keeper)?;
    expunge_inside(session, object)
}

/// What is done in the transaction.
fn expunge_inside(session: &mut Session, object: ObjId) -> Result<(), Refusal>
    requires { IsObject session.old.graph object }
    ensures done { steps.IsDoneInside (spec.expunge_fault object session.old)
        (spec.session_expunged object session.old) session.old result session.new }
    ensures same { SameObjects session.old session.new }
    ensures scopes { session.new.frames.scopes ≡ session.old.frames.scopes }
{
    match expunge_fault(session, object) {
        Some(fault) => Err(fault),
        None => Ok(expunge_along(session, object)?),
    }
}
