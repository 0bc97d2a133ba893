//! The objects that come in with an object.

ghost use Rattle.std.specs.Prelude.{◌≡◌, ◌++◌, [], ◌∷◌, cond, not, ◌==◌, IfOk, OnOk};
ghost use Rattle.std.specs.List.{All};
ghost use Rattle.object_arena.specs.Graph.{IsObject};
ghost use Rattle.object_parts.specs.Sides.{without};
ghost use Rattle.session_objects.specs.Taking as spec;

use base_core::{ListOf, ObjId, ObjList};
use cascades::save_closure;
use object_arena::{Arena, State};
use session_scopes::Session;
use std::alloc::{AllocError, Global};

/// The objects that come in with an object: it first, and then by number the others of the least set that has it and that is
/// closed under loaded links and kept adds along relationships with save-update; but for those that are in the session already,
/// since nothing becomes of them.
pub fn coming_objects(session: &Session, object: ObjId) -> Result<ObjList, AllocError>
    requires { IsObject session.now.graph object }
    ensures objects { IfOk result (λ objects. objects ≡ spec.outsiders session.now.graph
        (spec.coming_objects session.now.mapping session.now.graph object)) }
    ensures once { IfOk result (spec.AreOnce session.now.graph) }
{
    let alloc = session.alloc();
    let arena = session.arena();
    let closure = save_closure(alloc, arena, session.mapping(), object)?;
    with_others(alloc, arena, object, closure.as_slice())
}

/// An object, and then the others of some objects, but for those that are in the session.
fn with_others(
    alloc: Global,
    arena: &Arena,
    object: ObjId,
    objects: &[ObjId],
) -> Result<ObjList, AllocError>
    requires object { IsObject arena.now object }
    requires made { All (IsObject arena.now) objects.now }
    ensures { IfOk result (λ list. list
        ≡ spec.outsiders arena.now (object ∷ without objects.now object)) }
{
    let mut list = ListOf::new(alloc);
    push_outsider(&mut list, arena, object)?;
    for other in objects {
        push_other(&mut list, arena, object, *other)?;
    }
    Ok(list)
}

/// Puts an object behind others, unless it is the one object or is in the session.
fn push_other(
    list: &mut ObjList,
    arena: &Arena,
    object: ObjId,
    other: ObjId,
) -> Result<(), AllocError>
    requires { IsObject arena.now other }
    ensures { OnOk result (list.new ≡ list.old
        ++ spec.outsiders arena.now (cond (not (other.0 == object.0)) (other ∷ []) [])) }
{
    if other.0 != object.0 {
        return push_outsider(list, arena, other);
    }
    Ok(())
}

/// Puts an object behind others, unless it is in the session.
fn push_outsider(list: &mut ObjList, arena: &Arena, object: ObjId) -> Result<(), AllocError>
    requires { IsObject arena.now object }
    ensures { OnOk result (list.new ≡ list.old ++ spec.outsiders arena.now (object ∷ [])) }
{
    if !is_inside(arena.state_of(object)) {
        list.push(object)?;
    }
    Ok(())
}

/// Whether an object of a state is in the session: pending or persistent.
pub fn is_inside(state: State) -> bool
    ensures { result ≡ spec.is_inside state }
{
    match state {
        State::Pending | State::Persistent => true,
        State::Transient | State::Deleted | State::Detached => false,
    }
}
