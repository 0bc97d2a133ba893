//! The cases of single objects.

ghost use Rattle.std.specs.Prelude.{◌≡◌, IfErr};
ghost use Rattle.std.specs.List.{All};
ghost use Rattle.class_types.specs.Rules.{Rules};
ghost use Rattle.class_types.specs.Shown.{rules_of};
ghost use Rattle.class_mapping.specs.Mapped.{IsAttribute, IsClass};
ghost use Rattle.object_arena.specs.Graph.{IsObject, object_at};
ghost use Rattle.command_resolve.specs.declared.answer.Answer.TheVariants as answer;
ghost use Rattle.session_scopes.specs.SessionState.{IsInStep};
ghost use Rattle.session_loads.specs.Reads as reads;
ghost use Rattle.command_resolve.specs.declared.resolved.Resolved.TheVariants as resolved;
ghost use Rattle.session_perform.specs.Performing as spec;
ghost use Rattle.session_perform.specs.Refused.{IsRefusedLine};

use base_core::{AttrNo, ClassId, Name, ObjId, Refusal, Value};
use class_types::Hooks;
use command_resolve::Answer;
use keeper_core::Keeper;
use session_objects::make_valid;
use session_scopes::Session;
use shell_parts::Bound;

/// Makes a transient object of a class with these values, for which the name is to stand.
///
/// # Errors
/// As those of `session_objects::make_valid`.
pub(crate) fn make<K: Keeper>(
    session: &mut Session,
    keeper: &K,
    hooks: &Hooks,
    name: Name,
    class: ClassId,
    cells: &[(AttrNo, Value)],
) -> Result<Answer, Refusal>
    requires in_step { IsInStep session.old (K.moment keeper.now) }
    requires class { IsClass session.old.mapping class }
    requires attributes { All (λ one. IsAttribute session.old.mapping class one.0) cells.now }
    ensures performed { spec.IsPerformed K.moment (spec.make (rules_of hooks.now) name class cells.now)
        (session.old, keeper.now) result (session.new, keeper.now) }
    ensures refused { IfErr result (λ e. IsRefusedLine
        (rules_of hooks.now) (resolved.New name class cells.now)
        session.old (K.moment keeper.now) e session.new (K.moment keeper.now)) }
{
    let object = make_valid(session, hooks, class, cells)?;
    Ok(Answer::Bind(name, Bound::Object(object, class)))
}

/// The value of a cell.
///
/// # Errors
/// As those of `session_loads::read_cell`.
pub(crate) fn read_cell<K: Keeper>(
    session: &mut Session,
    keeper: &mut K,
    object: ObjId,
    attr: AttrNo,
) -> Result<Answer, Refusal>
    requires in_step { IsInStep session.old (K.moment keeper.old) }
    requires object { IsObject session.old.graph object }
    requires attr { IsAttribute session.old.mapping
        (object_at session.old.graph object).class attr }
    ensures performed { spec.IsPerformed K.moment (spec.telling answer.Value (reads.read_cell object attr))
        (session.old, keeper.old) result (session.new, keeper.new) }
    ensures refused { (rules : Rules) → IfErr result (λ e. IsRefusedLine rules (resolved.ShowCell object attr)
        session.old (K.moment keeper.old) e session.new (K.moment keeper.new)) }
{
    let value = session_loads::read_cell(session, keeper, object, attr)?;
    Ok(Answer::Value(value))
}

/// The state of an object.
pub(crate) fn state(session: &Session, object: ObjId) -> Answer
    requires { IsObject session.now.graph object }
    ensures { result ≡ spec.state_of object session.now }
{
    Answer::State(session.object(object).state)
}

/// Whether two objects are one.
pub(crate) fn same(object: ObjId, other: ObjId) -> Answer
    ensures { result ≡ spec.same object other }
{
    Answer::Same(object.0 == other.0)
}
