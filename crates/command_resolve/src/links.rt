//! Lines that change links.

ghost use Rattle.std.specs.Prelude.{ℕ, true, IfErr, IfOk};
ghost use Rattle.base_core.specs.Answers.{Gives};
ghost use Rattle.object_arena.specs.Graph.{Graph, IsObject};
ghost use Rattle.script_resolve.specs.Refusals.{CanRefuse};
ghost use Rattle.command_names.specs.Standing.{AreOfDeclared, AreThere};
ghost use Rattle.command_resolve.specs.Resolving as spec;
ghost use Rattle.command_resolve.specs.Standing.{HasLink, IsResolved};

use crate::resolved::Resolved;
use crate::resolving::id_of_term;
use base_core::{Name, ObjId, Refusal, RelNo};
use class_mapping::Mapping;
use command_names::{link_named, object_of};
use relations::LinkCall;
use script_types::Term;
use shell_parts::Names;

/// The ends of a collection, or of a link to one object: the object that has it, its number, and the object that is to come into it
/// or to leave it.
fn ends_of(
    mapping: &Mapping,
    names: &Names,
    many: bool,
    term: &Term,
    member: &Name,
    other: &Term,
) -> Result<(ObjId, RelNo, ObjId), Refusal>
    requires declared { AreOfDeclared mapping.now names.now }
    ensures ends { Gives (λ ends. ends) result
        (spec.ends_of mapping.now names.now many term.now member.now other.now) }
    ensures cause { IfErr result CanRefuse }
    ensures there { (graph : Graph) → (drawn : ℕ) → AreThere graph drawn names.now
        → IfOk result (λ ends. HasLink mapping.now graph ends.0 ends.1 many × IsObject graph ends.2) }
{
    let (object, class) = object_of(names, term)?;
    let relation = link_named(mapping, many, class, member)?;
    let end = id_of_term(names, other)?;
    Ok((object, relation, end))
}

/// The link of an object is to lead to another.
pub(crate) fn resolved_set_one(
    mapping: &Mapping,
    names: &Names,
    term: &Term,
    member: &Name,
    other: &Term,
) -> Result<Resolved, Refusal>
    requires declared { AreOfDeclared mapping.now names.now }
    ensures line { Gives (λ line. line) result
        (spec.resolved_set_one mapping.now names.now term.now member.now other.now) }
    ensures cause { IfErr result CanRefuse }
    ensures stands { (graph : Graph) → (drawn : ℕ) → AreThere graph drawn names.now
        → IfOk result (IsResolved mapping.now graph drawn) }
{
    let (owner, relation, parent) = ends_of(mapping, names, false, term, member, other)?;
    Ok(Resolved::ChangeLink(owner, relation, LinkCall::Set(Some(parent))))
}

/// An object is to come into a collection.
pub(crate) fn resolved_append(
    mapping: &Mapping,
    names: &Names,
    term: &Term,
    member: &Name,
    other: &Term,
) -> Result<Resolved, Refusal>
    requires declared { AreOfDeclared mapping.now names.now }
    ensures line { Gives (λ line. line) result
        (spec.resolved_append mapping.now names.now term.now member.now other.now) }
    ensures cause { IfErr result CanRefuse }
    ensures stands { (graph : Graph) → (drawn : ℕ) → AreThere graph drawn names.now
        → IfOk result (IsResolved mapping.now graph drawn) }
{
    let (owner, relation, member) = ends_of(mapping, names, true, term, member, other)?;
    Ok(Resolved::ChangeLink(owner, relation, LinkCall::Append(member)))
}

/// An object is to leave a collection.
pub(crate) fn resolved_remove(
    mapping: &Mapping,
    names: &Names,
    term: &Term,
    member: &Name,
    other: &Term,
) -> Result<Resolved, Refusal>
    requires declared { AreOfDeclared mapping.now names.now }
    ensures line { Gives (λ line. line) result
        (spec.resolved_remove mapping.now names.now term.now member.now other.now) }
    ensures cause { IfErr result CanRefuse }
    ensures stands { (graph : Graph) → (drawn : ℕ) → AreThere graph drawn names.now
        → IfOk result (IsResolved mapping.now graph drawn) }
{
    let (owner, relation, member) = ends_of(mapping, names, true, term, member, other)?;
    Ok(Resolved::ChangeLink(owner, relation, LinkCall::Remove(member)))
}
