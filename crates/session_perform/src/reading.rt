//! The cases of objects that are found by a key or by a query.

ghost use Rattle.std.specs.Prelude.{◌≡◌, true, IfErr};
ghost use Rattle.class_types.specs.Rules.{Rules};
ghost use Rattle.class_mapping.specs.Mapped.{IsClass};
ghost use Rattle.object_arena.specs.Fit.{key_fits};
ghost use Rattle.load_queries.specs.Selectin.{IsSelectable};
ghost use Rattle.command_resolve.specs.declared.resolved.Resolved.TheVariants as resolved;
ghost use Rattle.session_scopes.specs.SessionState.{IsInStep};
ghost use Rattle.session_perform.specs.Performing as spec;
ghost use Rattle.session_perform.specs.Refused.{IsRefusedLine};

use crate::links::{end_shown, link_shown};
use base_core::{ClassId, Key, Name, Refusal};
use command_resolve::Answer;
use expr_types::ObjectQuery;
use keeper_core::Keeper;
use session_links::Related;
use session_scopes::Session;

/// The object of a class under a key, or none, is bound to a name.
///
/// # Errors
/// As those of `session_loads::get`.
pub(crate) fn get<K: Keeper>(
    session: &mut Session,
    keeper: &mut K,
    name: Name,
    class: ClassId,
    key: &Key,
) -> Result<Answer, Refusal>
    requires in_step { IsInStep session.old (K.moment keeper.old) }
    requires class { IsClass session.old.mapping class }
    requires key { key_fits session.old.mapping class key.now ≡ true }
    ensures performed { spec.IsPerformed K.moment (spec.get name class key.now)
        (session.old, keeper.old) result (session.new, keeper.new) }
    ensures refused { (rules : Rules) → IfErr result (λ e. IsRefusedLine
        rules (resolved.Get name class key.now)
        session.old (K.moment keeper.old) e session.new (K.moment keeper.new)) }
{
    let found = session_loads::get(session, keeper, class, key)?;
    let thing = end_shown(session, found);
    Ok(Answer::Bind(name, thing))
}

/// The objects of a query are bound to a name.
///
/// # Errors
/// As those of `session_loads::select_objects`.
pub(crate) fn select_objects<K: Keeper>(
    session: &mut Session,
    keeper: &mut K,
    name: Name,
    query: &ObjectQuery,
) -> Result<Answer, Refusal>
    requires in_step { IsInStep session.old (K.moment keeper.old) }
    requires query { IsSelectable session.old.mapping query.now }
    ensures performed { spec.IsPerformed K.moment (spec.select_objects name query.now)
        (session.old, keeper.old) result (session.new, keeper.new) }
    ensures refused { (rules : Rules) → IfErr result (λ e. IsRefusedLine
        rules (resolved.Objects name query.now)
        session.old (K.moment keeper.old) e session.new (K.moment keeper.new)) }
{
    let objects = session_loads::select_objects(session, keeper, query)?;
    let thing = link_shown(session, Related::Many(objects))?;
    Ok(Answer::Bind(name, thing))
}
