//! Objects are expired, with those that hang on them.

ghost use Rattle.std.specs.Prelude.{◌≡◌, IfErr, OnOk};
ghost use Rattle.std.specs.List.{All};
ghost use Rattle.class_mapping.specs.Mapped.{Mapped};
ghost use Rattle.object_arena.specs.Every.{classes_of};
ghost use Rattle.object_arena.specs.Fit.{IsFit};
ghost use Rattle.object_arena.specs.Graph.{IsObject, is_persistent};
ghost use Rattle.object_records.specs.Touched.{frames_touched_between};
ghost use Rattle.session_scopes.specs.SessionState.{IsInStep, SameObjects};
ghost use Rattle.session_calls.specs.Calling.{IsSessionCall};
ghost use Rattle.session_calls.specs.Refusals.{IsRefused};
ghost use Rattle.session_calls.specs.Steps.{pending_fault};
ghost use Rattle.session_objects.specs.Steps.{IsDoneInside};
ghost use Rattle.session_loads.specs.Asking as asking;
ghost use Rattle.session_loads.specs.Expiring as spec;
ghost use Rattle.session_loads.specs.Reads as steps;

use crate::asking::persistence_fault;
use base_core::{ObjId, Refusal};
use cascades::expire_closure;
use class_mapping::Mapping;
use keeper_core::Keeper;
use object_arena::{Arena, State};
use object_parts::expire_if;
use object_records::touch_if;
use savepoints::Frames;
use session_calls::enter;
use session_scopes::{ObjectStep, Session};
use session_statements::differs_from_expired;
use std::alloc::AllocError;

/// An object is expired, if it is persistent.
#[derive(Drop)]
struct Expiry {
    object: ObjId,
}

impl ObjectStep for Expiry {
    ghost use Rattle.object_arena.specs.Graph.{IsObject};
    ghost use Rattle.session_loads.specs.Expiring.{expired_at};

    ghost is_ready = { λ step mapped graph. IsObject graph step.object };

    ghost after = { λ step mapped graph. expired_at graph step.object };

    fn take(
        self,
        mapping: &Mapping,
        arena: &mut Arena,
        frames: &mut Frames,
    ) -> Result<(), AllocError> {
        expire_one(arena, frames, self.object)
    }
}

fn is_persistent(state: State) -> bool
    ensures { result ≡ is_persistent state }
{
    matches!(state, State::Persistent)
}

/// An object is expired, if it is persistent, and touched in the innermost scope where its record comes to differ.
fn expire_one(arena: &mut Arena, frames: &mut Frames, object: ObjId) -> Result<(), AllocError>
    requires { IsObject arena.old object }
    ensures ok { OnOk result (arena.new ≡ spec.expired_at arena.old object) }
    ensures touched { OnOk result (frames.new
        ≡ frames_touched_between arena.old arena.new frames.old) }
    ensures keeps { (mapped : Mapped) → IsFit mapped arena.old → IsFit mapped arena.new }
    ensures classes { classes_of arena.new ≡ classes_of arena.old }
    ensures scopes { frames.new.scopes ≡ frames.old.scopes }
{
    let record = arena.object(object);
    let is_read = is_persistent(record.state);
    let differs = differs_from_expired(record, is_read);
    touch_if(frames, arena, object, differs)?;
    expire_if(arena, object, is_read);
    Ok(())
}

/// Objects are expired, one after another.
fn expire_all(session: &mut Session, objects: &[ObjId]) -> Result<(), AllocError>
    requires { All (IsObject session.old.graph) objects.now }
    ensures ok { OnOk result (session.new ≡ spec.all_expired objects.now session.old) }
    ensures same { SameObjects session.old session.new }
    ensures scopes { session.new.frames.scopes ≡ session.old.frames.scopes }
{
    for object in objects {
        session.step(Expiry { object: *object })?;
    }
    Ok(())
}

/// An object is expired, and along refresh-expire those that hang on it, each if it is persistent. The only refusal is out of memory.
#[tactic(auto, unfolding(crate::specs::Expiring::session_expired))]
pub(crate) fn expire_along(session: &mut Session, object: ObjId) -> Result<(), AllocError>
    requires { IsObject session.old.graph object }
    ensures ok { OnOk result (session.new ≡ spec.session_expired object session.old) }
    ensures same { SameObjects session.old session.new }
    ensures scopes { session.new.frames.scopes ≡ session.old.frames.scopes }
{
    let closure = expire_closure(session.alloc(), session.arena(), session.mapping(), object)?;
    expire_all(session, closure.as_slice())
}

/// A persistent object is to be read again, and along refresh-expire those that hang on it, each if it is persistent. What was changed
/// in their cells and links is lost; delete marks stay. Each is touched in the innermost scope where its record comes to differ.
///
/// # Errors
/// `PendingRollbackError` while a failed flush waits for its rollback; then, in the transaction, `InvalidRequestError(NotPersistent)`.
pub fn expire<K: Keeper>(
    session: &mut Session,
    keeper: &mut K,
    object: ObjId,
) -> Result<(), Refusal>
    requires in_step { IsInStep session.old (K.moment keeper.old) }
    requires object { IsObject session.old.graph object }
    ensures call { IsSessionCall K.moment (λ u. u) (steps.expire object)
        (session.old, keeper.old) result (session.new, keeper.new) }
    ensures refused { IfErr result (λ e. IsRefused (pending_fault session.old)
        (asking.persistence_fault object session.old) session.old e session.new) }
{
    enter(session, keeper)?;
    expire_inside(session, object)
}

/// What is done in the transaction.
fn expire_inside(session: &mut Session, object: ObjId) -> Result<(), Refusal>
    requires { IsObject session.old.graph object }
    ensures done { IsDoneInside (asking.persistence_fault object session.old)
        (spec.session_expired object session.old) session.old result session.new }
    ensures same { SameObjects session.old session.new }
    ensures scopes { session.new.frames.scopes ≡ session.old.frames.scopes }
{
    match persistence_fault(session, object) {
        Some(fault) => Err(fault),
        None => Ok(expire_along(session, object)?),
    }
}
