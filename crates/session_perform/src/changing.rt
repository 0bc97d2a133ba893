//! Links that change.

ghost use Rattle.std.specs.Prelude.{◌≡◌, ◌<◌, length, IfErr};
ghost use Rattle.class_types.specs.Rules.{Rules};
ghost use Rattle.class_mapping.specs.Mapped.{relations_of};
ghost use Rattle.command_resolve.specs.declared.resolved.Resolved.TheVariants as resolved;
ghost use Rattle.object_arena.specs.Fit.{relation_of};
ghost use Rattle.object_arena.specs.Graph.{IsObject, object_at};
ghost use Rattle.relations.specs.Calls.{end_of, is_of_collection};
ghost use Rattle.relations.specs.Keys.{IsEnd};
ghost use Rattle.session_calls.specs.Calling.{IsSessionCall};
ghost use Rattle.session_scopes.specs.SessionState.{IsInStep};
ghost use Rattle.session_perform.specs.Performing as spec;
ghost use Rattle.session_perform.specs.Refused.{IsRefusedLine};

use base_core::{ObjId, Refusal, RelNo};
use keeper_core::Keeper;
use relations::LinkCall;
use session_loads::change_collection;
use session_scopes::Session;

/// A link to one object is set, or a member is appended to a collection or removed from it.
///
/// # Errors
/// As those of `session_links::change_link` and `session_loads::change_collection`.
pub(crate) fn change_link<K: Keeper>(
    session: &mut Session,
    keeper: &mut K,
    owner: ObjId,
    relation: RelNo,
    call: LinkCall,
) -> Result<(), Refusal>
    requires in_step { IsInStep session.old (K.moment keeper.old) }
    requires owner { IsObject session.old.graph owner }
    requires relation { relation.0
        < length (relations_of session.old.mapping (object_at session.old.graph owner).class) }
    requires form { (relation_of session.old.mapping (object_at session.old.graph owner).class relation).many
        ≡ is_of_collection call }
    requires end { IsEnd session.old.graph (end_of call) }
    ensures call { IsSessionCall K.moment (λ u. u) (spec.change_link owner relation call)
        (session.old, keeper.old) result (session.new, keeper.new) }
    ensures refused { (rules : Rules) → IfErr result (λ e. IsRefusedLine rules (resolved.ChangeLink owner relation call)
        session.old (K.moment keeper.old) e session.new (K.moment keeper.new)) }
{
    match call {
        LinkCall::Set(_) => session_links::change_link(session, keeper, owner, relation, call),
        LinkCall::Append(_) => change_collection(session, keeper, owner, relation, call),
        LinkCall::Remove(_) => change_collection(session, keeper, owner, relation, call),
    }
}
