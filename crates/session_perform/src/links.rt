//! What links hold, and the objects that rows are read for.

ghost use Rattle.std.specs.Prelude.{◌≡◌, ◌<◌, length, map, IfErr, IfOk};
ghost use Rattle.std.specs.List.{All};
ghost use Rattle.class_types.specs.Rules.{Rules};
ghost use Rattle.class_mapping.specs.Mapped.{IsClass, relations_of};
ghost use Rattle.object_arena.specs.Graph.{IsObject, object_at};
ghost use Rattle.relations.specs.Keys.{IsEnd};
ghost use Rattle.command_names.specs.Standing.{IsOfDeclared, IsThere};
ghost use Rattle.command_resolve.specs.declared.resolved.Resolved.TheVariants as resolved;
ghost use Rattle.session_links.specs.Reading.{AreToldMade};
ghost use Rattle.session_links.specs.declared.reading.Related.TheVariants.{Many, One};
ghost use Rattle.session_scopes.specs.SessionState.{IsInStep, IsMadeOf};
ghost use Rattle.session_perform.specs.Performing as spec;
ghost use Rattle.session_perform.specs.Refused.{IsRefusedLine};

use base_core::{ClassId, ListOf, Name, ObjId, Refusal, RelNo};
use command_resolve::Answer;
use keeper_core::Keeper;
use session_links::Related;
use session_loads::read_related;
use session_scopes::Session;
use shell_parts::Bound;
use std::alloc::AllocError;

/// What a link holds: an object or none, or the members of a collection.
///
/// # Errors
/// As those of `session_loads::read_related`.
pub(crate) fn read_link<K: Keeper>(
    session: &mut Session,
    keeper: &mut K,
    object: ObjId,
    relation: RelNo,
) -> Result<Answer, Refusal>
    requires in_step { IsInStep session.old (K.moment keeper.old) }
    requires object { IsObject session.old.graph object }
    requires relation { relation.0
        < length (relations_of session.old.mapping (object_at session.old.graph object).class) }
    ensures performed { spec.IsPerformed K.moment (spec.read_link object relation)
        (session.old, keeper.old) result (session.new, keeper.new) }
    ensures refused { (rules : Rules) → IfErr result (λ e. IsRefusedLine rules (resolved.ShowLink object relation)
        session.old (K.moment keeper.old) e session.new (K.moment keeper.new)) }
{
    let related = read_related(session, keeper, object, relation)?;
    let thing = link_shown(session, related)?;
    Ok(Answer::Thing(thing))
}

/// What a link holds is bound to a name.
///
/// # Errors
/// As those of `session_loads::read_related`.
pub(crate) fn bind_related<K: Keeper>(
    session: &mut Session,
    keeper: &mut K,
    name: Name,
    object: ObjId,
    relation: RelNo,
) -> Result<Answer, Refusal>
    requires in_step { IsInStep session.old (K.moment keeper.old) }
    requires object { IsObject session.old.graph object }
    requires relation { relation.0
        < length (relations_of session.old.mapping (object_at session.old.graph object).class) }
    ensures performed { spec.IsPerformed K.moment (spec.bind_related name object relation)
        (session.old, keeper.old) result (session.new, keeper.new) }
    ensures refused { (rules : Rules) → IfErr result (λ e. IsRefusedLine
        rules (resolved.Related name object relation)
        session.old (K.moment keeper.old) e session.new (K.moment keeper.new)) }
{
    let related = read_related(session, keeper, object, relation)?;
    let thing = link_shown(session, related)?;
    Ok(Answer::Bind(name, thing))
}

/// What a link holds is told, with the classes of its objects.
pub(crate) fn link_shown(session: &Session, related: Related) -> Result<Bound, AllocError>
    requires { AreToldMade session.now.graph related }
    ensures shown { IfOk result (λ thing. thing ≡ spec.link_shown session.now.graph related) }
    ensures there { IfOk result (IsThere session.now.graph session.now.drawn.drawn) }
    ensures declared { IfOk result (IsOfDeclared session.now.mapping) }
{
    match related {
        Related::One(end) => Ok(end_shown(session, end)),
        Related::Many(members) => {
            let all = with_classes(session, members.as_slice())?;
            Ok(Bound::Objects(all))
        }
    }
}

/// An object, or none, is told with its class.
pub(crate) fn end_shown(session: &Session, end: Option<ObjId>) -> Bound
    requires { IsEnd session.now.graph end }
    ensures shown { result ≡ spec.link_shown session.now.graph (One end) }
    ensures there { IsThere session.now.graph session.now.drawn.drawn result }
    ensures declared { IsOfDeclared session.now.mapping result }
{
    match end {
        None => Bound::Nothing,
        Some(object) => Bound::Object(object, session.object(object).class),
    }
}

/// Objects with their classes.
fn with_classes(
    session: &Session,
    members: &[ObjId],
) -> Result<ListOf<(ObjId, ClassId)>, AllocError>
    requires { All (IsObject session.now.graph) members.now }
    ensures all { IfOk result (λ all. all ≡ map (spec.with_class session.now.graph) members.now) }
    ensures made { IfOk result (All (λ one. IsMadeOf session.now.graph one.0 one.1)) }
    ensures declared { IfOk result (All (λ one. IsClass session.now.mapping one.1)) }
{
    let mut all = ListOf::new(session.alloc());
    for member in members {
        all.push((*member, session.object(*member).class))?;
    }
    Ok(all)
}
