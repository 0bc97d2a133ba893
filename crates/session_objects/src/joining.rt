//! Objects come into the session, one after another.

ghost use Rattle.std.specs.Prelude.{◌≡◌, OnOk};
ghost use Rattle.base_core.specs.Counts.{one_more};
ghost use Rattle.object_arena.specs.Graph.{IsObject, object_at};
ghost use Rattle.session_scopes.specs.SessionState.{SameObjects};
ghost use Rattle.session_objects.specs.Taking as spec;

use crate::taking::TakeIn;
use base_core::ObjId;
use object_arena::State;
use session_scopes::Session;
use std::alloc::AllocError;

/// Objects come in, one after another: transient ones become pending under the next add numbers, detached ones persistent.
pub fn take_all(session: &mut Session, objects: &[ObjId]) -> Result<(), AllocError>
    requires { spec.MayJoin session.old objects.now }
    ensures ok { OnOk result (session.new ≡ spec.session_joined objects.now session.old) }
    ensures same { SameObjects session.old session.new }
    ensures scopes { session.new.frames.scopes ≡ session.old.frames.scopes }
{
    for object in objects {
        take_one(session, *object)?;
    }
    Ok(())
}

/// An object comes in.
fn take_one(session: &mut Session, object: ObjId) -> Result<(), AllocError>
    requires object { IsObject session.old.graph object }
    requires free { spec.MayReturn session.old.graph object }
    ensures ok { OnOk result (session.new ≡ spec.session_taken object session.old) }
    ensures same { SameObjects session.old session.new }
    ensures scopes { session.new.frames.scopes ≡ session.old.frames.scopes }
{
    let number = draw_number(session, object);
    let alloc = session.alloc();
    session.step(TakeIn {
        alloc,
        object,
        number,
    })
}

/// The add number under which an object comes in: the next one for a transient object; any other needs none.
fn draw_number(session: &mut Session, object: ObjId) -> u64
    requires { IsObject session.old.graph object }
    ensures drawn { session.new ≡ record session.old {
      added = spec.added_then (object_at session.old.graph object).state session.old.added;
    } }
    ensures number { spec.taken_under result (object_at session.old.graph object)
        ≡ spec.taken_under (one_more session.old.added) (object_at session.old.graph object) }
{
    match session.object(object).state {
        State::Transient => session.next_added(),
        State::Pending | State::Persistent | State::Deleted | State::Detached => 0,
    }
}
