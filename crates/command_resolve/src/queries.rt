//! Queries for objects, and what relationships lead to.

ghost use Rattle.std.specs.Prelude.{ℕ, IfErr, IfOk};
ghost use Rattle.base_core.specs.Answers.{Gives};
ghost use Rattle.object_arena.specs.Graph.{Graph};
ghost use Rattle.command_names.specs.Standing.{AreOfDeclared, AreThere};
ghost use Rattle.query_names.specs.Queries.{IsOfQueries};
ghost use Rattle.script_resolve.specs.Refusals.{CanRefuse};
ghost use Rattle.command_resolve.specs.Resolving as spec;
ghost use Rattle.command_resolve.specs.Standing.{IsResolved};

use crate::resolved::Resolved;
use base_core::{Copied, Name, Refusal};
use class_mapping::Mapping;
use command_names::object_of;
use query_names::{relation_named, resolve_query};
use script_types::{SynQuery, Term};
use shell_parts::Names;
use std::alloc::Global;

/// The objects of a query.
pub(crate) fn resolved_objects(
    alloc: Global,
    mapping: &Mapping,
    name: &Name,
    written: &SynQuery,
) -> Result<Resolved, Refusal>
    ensures line { Gives (λ line. line) result
        (spec.resolved_objects mapping.now name.now written.now) }
    ensures cause { IfErr result IsOfQueries }
    ensures stands { (graph : Graph) → (drawn : ℕ)
        → IfOk result (IsResolved mapping.now graph drawn) }
{
    let query = resolve_query(alloc, mapping, written)?;
    Ok(Resolved::Objects {
        name: name.copied()?,
        query,
    })
}

/// What a relationship of an object leads to.
pub(crate) fn resolved_related(
    mapping: &Mapping,
    names: &Names,
    name: &Name,
    term: &Term,
    member: &Name,
) -> Result<Resolved, Refusal>
    requires declared { AreOfDeclared mapping.now names.now }
    ensures line { Gives (λ line. line) result
        (spec.resolved_related mapping.now names.now name.now term.now member.now) }
    ensures cause { IfErr result CanRefuse }
    ensures stands { (graph : Graph) → (drawn : ℕ) → AreThere graph drawn names.now
        → IfOk result (IsResolved mapping.now graph drawn) }
{
    let (object, class) = object_of(names, term)?;
    let relation = relation_named(mapping, class, member)?;
    Ok(Resolved::Related {
        name: name.copied()?,
        object,
        relation,
    })
}
