//! An object comes into the session.

ghost use Rattle.std.specs.Prelude.{◌≡◌, None, OnOk, IfErr, length};
ghost use Rattle.object_arena.specs.Graph.{IsObject};
ghost use Rattle.session_scopes.specs.SessionState.{IsInStep, SameObjects};
ghost use Rattle.session_calls.specs.Calling.{IsSessionCall};
ghost use Rattle.session_calls.specs.Refusals.{IsRefused};
ghost use Rattle.session_calls.specs.Steps.{pending_fault};
ghost use Rattle.session_objects.specs.Conflicts.{add_fault};
ghost use Rattle.session_objects.specs.Steps as steps;
ghost use Rattle.session_objects.specs.Taking as spec;

use crate::coming::coming_objects;
use crate::conflicts::add_fault;
use crate::joining::take_all;
use crate::taking::Unmark;
use base_core::{ObjId, Refusal};
use keeper_core::Keeper;
use session_calls::enter;
use session_scopes::Session;
use std::alloc::AllocError;

/// An object comes in with all that hang on it by loaded links and kept adds along relationships with save-update. Transient ones
/// become pending: the next flush writes them, the object itself before the others, which go by number. Detached ones become
/// persistent again: what was changed in them is written by the next flush, and the rest is read when it is asked for. A delete mark
/// of the object is taken away. Each is touched in the innermost scope where its record comes to differ.
///
/// # Errors
/// `PendingRollbackError` while a failed flush waits for its rollback; then, in the transaction, `InvalidRequestError(Deleted)` for
/// a deleted object, and `InvalidRequestError(IdentityConflict)` where one of those that come in is detached and a persistent object,
/// or another of them, has its identity.
pub fn add<K: Keeper>(session: &mut Session, keeper: &mut K, object: ObjId) -> Result<(), Refusal>
    requires in_step { IsInStep session.old (K.moment keeper.old) }
    requires object { IsObject session.old.graph object }
    ensures call { IsSessionCall K.moment (λ u. u) (steps.add object)
        (session.old, keeper.old) result (session.new, keeper.new) }
    ensures refused { IfErr result (λ e. IsRefused (pending_fault session.old)
        (add_fault object session.old) session.old e session.new) }
{
    enter(session, keeper)?;
    add_inside(session, object)
}

/// What is done in the transaction.
fn add_inside(session: &mut Session, object: ObjId) -> Result<(), Refusal>
    requires { IsObject session.old.graph object }
    ensures done { steps.IsDoneInside (add_fault object session.old)
        (spec.session_added object session.old) session.old result session.new }
    ensures same { SameObjects session.old session.new }
    ensures scopes { length session.new.frames.scopes ≡ length session.old.frames.scopes }
{
    let objects = coming_objects(session, object)?;
    let coming = objects.as_slice();
    match add_fault(session, object, coming) {
        Some(fault) => Err(fault),
        None => Ok(take_in(session, object, coming)?),
    }
}

/// The objects come in, where nothing is against it, and the one object has no delete mark then.
fn take_in(session: &mut Session, object: ObjId, objects: &[ObjId]) -> Result<(), AllocError>
    requires object { IsObject session.old.graph object }
    requires free { spec.MayJoin session.old objects.now }
    ensures ok { OnOk result (session.new
        ≡ spec.session_unmarked object (spec.session_joined objects.now session.old)) }
    ensures same { SameObjects session.old session.new }
    ensures scopes { length session.new.frames.scopes ≡ length session.old.frames.scopes }
{
    take_all(session, objects)?;
    session.step(Unmark { object })
}
