//! What a line asks for.

ghost use Rattle.std.specs.Prelude.{◌≡◌, ℕ, false, IfErr, IfOk};
ghost use Rattle.base_core.specs.Answers.{Gives};
ghost use Rattle.base_core.specs.declared.ids.ClassId.{ClassId};
ghost use Rattle.class_mapping.specs.Mapped.{IsAttribute, IsClass, Mapped};
ghost use Rattle.object_arena.specs.Graph.{Graph, IsObject};
ghost use Rattle.session_scopes.specs.SessionState.{IsMadeOf};
ghost use Rattle.sayable_lines.specs.Sayable.{IsSayable};
ghost use Rattle.script_resolve.specs.Refusals.{CanRefuse};
ghost use Rattle.command_names.specs.declared.members.Member.TheVariants as member;
ghost use Rattle.command_names.specs.Attributes.{IsMember, IsRelation};
ghost use Rattle.command_names.specs.Standing.{AreOfDeclared, AreThere};
ghost use Rattle.command_resolve.specs.Resolving as spec;
ghost use Rattle.command_resolve.specs.Standing.{IsOfResolving, IsResolved};

use crate::keys::resolved_get;
use crate::links::{resolved_append, resolved_remove, resolved_set_one};
use crate::queries::{resolved_objects, resolved_related};
use crate::resolved::Resolved;
use crate::statements::{resolved_rows, resolved_statement};
use base_core::{AttrNo, ClassId, Copied, Name, ObjId, Refusal, RelNo, Value};
use class_mapping::Mapping;
use command_names::{
    Member, cells_of, class_named, handle_if_named, member_named, object_of, shown_of, value_fault,
    wrong_kind,
};
use relations::LinkCall;
use schema_core::kind_of_value;
use script_types::{Command, Term};
use shell_parts::Names;
use std::alloc::Global;

/// A new object.
fn resolved_new(
    alloc: Global,
    mapping: &Mapping,
    name: &Name,
    class: &Name,
    given: &[(Name, Value)],
) -> Result<Resolved, Refusal>
    ensures line { Gives (λ line. line) result
        (spec.resolved_new mapping.now name.now class.now given.now) }
    ensures cause { IfErr result CanRefuse }
    ensures stands { (graph : Graph) → (drawn : ℕ)
        → IfOk result (IsResolved mapping.now graph drawn) }
{
    let class = class_named(mapping, class)?;
    let cells = cells_of(alloc, mapping, class, given)?;
    Ok(Resolved::New {
        name: name.copied()?,
        class,
        cells,
    })
}

/// A value, or none, for an attribute or a link of an object.
fn resolved_set(
    mapping: &Mapping,
    names: &Names,
    term: &Term,
    member: &Name,
    value: &Value,
) -> Result<Resolved, Refusal>
    requires declared { AreOfDeclared mapping.now names.now }
    ensures line { Gives (λ line. line) result
        (spec.resolved_set mapping.now names.now term.now member.now value.now) }
    ensures cause { IfErr result CanRefuse }
    ensures stands { (graph : Graph) → (drawn : ℕ) → AreThere graph drawn names.now
        → IfOk result (IsResolved mapping.now graph drawn) }
{
    let (object, class) = object_of(names, term)?;
    match member_named(mapping, class, member)? {
        Member::Attribute(attr) => set_cell(mapping, object, class, attr, value),
        Member::One(relation) => set_none(object, relation, value),
        Member::Many(_) => Err(wrong_kind()),
    }
}

/// A value for an attribute of an object.
fn set_cell(
    mapping: &Mapping,
    object: ObjId,
    class: ClassId,
    attr: AttrNo,
    value: &Value,
) -> Result<Resolved, Refusal>
    requires class { IsClass mapping.now class }
    requires attr { IsAttribute mapping.now class attr }
    ensures line { Gives (λ line. line) result
        (spec.set_by mapping.now (object, class) value.now (member.Attribute attr)) }
    ensures cause { IfErr result CanRefuse }
    ensures stands { (graph : Graph) → (drawn : ℕ) → IsMadeOf graph object class
        → IfOk result (IsResolved mapping.now graph drawn) }
{
    match value_fault(mapping, class, attr, value) {
        Some(fault) => Err(fault),
        None => Ok(Resolved::SetCell(object, attr, value.copied()?)),
    }
}

/// A link to one object that is to lead to none.
fn set_none(object: ObjId, relation: RelNo, value: &Value) -> Result<Resolved, Refusal>
    ensures line { Gives (λ line. line) result (spec.set_none object relation value.now) }
    ensures cause { IfErr result CanRefuse }
    ensures stands { (mapped : Mapped) (graph : Graph) (drawn : ℕ) (class : ClassId)
        → IsMadeOf graph object class → IsRelation mapped class relation false
        → IfOk result (IsResolved mapped graph drawn) }
{
    if kind_of_value(value).is_some() {
        return Err(wrong_kind());
    }
    Ok(Resolved::ChangeLink(object, relation, LinkCall::Set(None)))
}

/// What a line asks for that changes an attribute or a link of an object.
#[tactic(auto, using(crate::proofs::Causes::causes))]
fn resolved_change(mapping: &Mapping, names: &Names, command: &Command) -> Result<Resolved, Refusal>
    requires declared { AreOfDeclared mapping.now names.now }
    ensures line { Gives (λ line. line) result
        (spec.resolved_change mapping.now names.now command.now) }
    ensures cause { IfErr result IsOfResolving }
    ensures stands { (graph : Graph) → (drawn : ℕ) → AreThere graph drawn names.now
        → IfOk result (IsResolved mapping.now graph drawn) }
{
    match command {
        Command::SetValue {
            term,
            member,
            value,
        } => resolved_set(mapping, names, term, member, value),
        Command::SetTerm {
            term,
            member,
            other,
        } => resolved_set_one(mapping, names, term, member, other),
        Command::Append {
            term,
            member,
            other,
        } => resolved_append(mapping, names, term, member, other),
        Command::Remove {
            term,
            member,
            other,
        } => resolved_remove(mapping, names, term, member, other),
        _ => Err(Refusal::NotBuilt),
    }
}

/// An attribute or a link of an object that is shown.
fn resolved_show(
    mapping: &Mapping,
    names: &Names,
    term: &Term,
    member: &Name,
) -> Result<Resolved, Refusal>
    requires declared { AreOfDeclared mapping.now names.now }
    ensures line { Gives (λ line. line) result
        (spec.resolved_show mapping.now names.now term.now member.now) }
    ensures cause { IfErr result CanRefuse }
    ensures stands { (graph : Graph) → (drawn : ℕ) → AreThere graph drawn names.now
        → IfOk result (IsResolved mapping.now graph drawn) }
{
    let (object, class) = object_of(names, term)?;
    let member = member_named(mapping, class, member)?;
    Ok(show_by(object, member))
}

/// A member of an object that is shown.
fn show_by(object: ObjId, member: Member) -> Resolved
    ensures line { result ≡ spec.show_by object member }
    ensures stands { (mapped : Mapped) (graph : Graph) (drawn : ℕ) (class : ClassId)
        → IsMadeOf graph object class → IsMember mapped class member
        → IsResolved mapped graph drawn result }
{
    match member {
        Member::Attribute(attr) => Resolved::ShowCell(object, attr),
        Member::One(relation) => Resolved::ShowLink(object, relation),
        Member::Many(relation) => Resolved::ShowLink(object, relation),
    }
}

/// An object that has been made.
pub(crate) fn id_of_term(names: &Names, term: &Term) -> Result<ObjId, Refusal>
    ensures object { Gives (λ object. object) result (spec.id_of_term names.now term.now) }
    ensures cause { IfErr result CanRefuse }
    ensures made { (graph : Graph) → (drawn : ℕ) → AreThere graph drawn names.now
        → IfOk result (IsObject graph) }
{
    let (object, _class) = object_of(names, term)?;
    Ok(object)
}

/// What is shown of a thing that is bound.
fn resolved_thing(alloc: Global, names: &Names, term: &Term) -> Result<Resolved, Refusal>
    ensures line { Gives (λ line. line) result (spec.resolved_thing names.now term.now) }
    ensures cause { IfErr result CanRefuse }
    ensures stands { (mapped : Mapped) (graph : Graph) → (drawn : ℕ)
        → AreOfDeclared mapped names.now → AreThere graph drawn names.now
        → IfOk result (IsResolved mapped graph drawn) }
{
    Ok(Resolved::Show(shown_of(alloc, names, term)?))
}

/// Two objects that may be one.
fn resolved_same(names: &Names, term: &Term, other: &Term) -> Result<Resolved, Refusal>
    ensures line { Gives (λ line. line) result
        (spec.resolved_same names.now term.now other.now) }
    ensures cause { IfErr result CanRefuse }
    ensures stands { (mapped : Mapped) (graph : Graph) → (drawn : ℕ)
        → AreThere graph drawn names.now → IfOk result (IsResolved mapped graph drawn) }
{
    let first = id_of_term(names, term)?;
    let second = id_of_term(names, other)?;
    Ok(Resolved::Same(first, second))
}

/// What a line asks for. Its names are read in the order of the line, and kinds of values behind all of them.
///
/// # Errors
/// `Unknown` of the first name that is not bound, or that no class, attribute or relationship has; `WrongKind` of the first that
/// stands for something else than its place wants, or that is given twice; then `TypeMismatch` of the first value of another kind than its
/// attribute or than its column of a key; `WrongKind` of a key that has not a value for each column. Of a select, a bulk statement or a
/// query for objects the first fault that `resolve_select`, `resolve_bulk` or `resolve_query` answers. `NotBuilt` of a form that is
/// not built. `Memory`.
#[tactic(auto, using(crate::proofs::Causes::causes))]
pub fn resolve(
    alloc: Global,
    mapping: &Mapping,
    names: &Names,
    command: &Command,
) -> Result<Resolved, Refusal>
    requires declared { AreOfDeclared mapping.now names.now }
    requires sayable { IsSayable command.now }
    ensures line { Gives (λ line. line) result
        (spec.resolve mapping.now names.now command.now) }
    ensures cause { IfErr result IsOfResolving }
    ensures stands { (graph : Graph) → (drawn : ℕ) → AreThere graph drawn names.now
        → IfOk result (IsResolved mapping.now graph drawn) }
{
    match command {
        Command::CreateAll => Ok(Resolved::CreateAll),
        Command::DropAll => Ok(Resolved::DropAll),
        Command::Dump => Ok(Resolved::Dump),
        Command::New { name, class, cells } => {
            resolved_new(alloc, mapping, name, class, cells.as_slice())
        }
        Command::Get { name, class, key } => resolved_get(mapping, name, class, key),
        Command::Objects { name, query } => resolved_objects(alloc, mapping, name, query),
        Command::Related {
            name,
            term,
            relation,
        } => resolved_related(mapping, names, name, term, relation),
        Command::BeginNested(name) => Ok(Resolved::BeginNested(name.copied()?)),
        Command::Add(term) => Ok(Resolved::Add(id_of_term(names, term)?)),
        Command::Delete(term) => Ok(Resolved::Delete(id_of_term(names, term)?)),
        Command::Expunge(term) => Ok(Resolved::Expunge(id_of_term(names, term)?)),
        Command::Expire(term) => Ok(Resolved::Expire(id_of_term(names, term)?)),
        Command::Refresh(term) => Ok(Resolved::Refresh(id_of_term(names, term)?)),
        Command::Show(term) => resolved_thing(alloc, names, term),
        Command::ShowMember(term, member) => resolved_show(mapping, names, term, member),
        Command::State(term) => Ok(Resolved::State(id_of_term(names, term)?)),
        Command::Same(term, other) => resolved_same(names, term, other),
        Command::Flush => Ok(Resolved::Flush),
        Command::Commit(name) => Ok(Resolved::Commit(handle_if_named(names, name)?)),
        Command::Rollback(name) => Ok(Resolved::Rollback(handle_if_named(names, name)?)),
        Command::Close => Ok(Resolved::Close),
        Command::Rows(written) => resolved_rows(alloc, mapping, written),
        Command::Bulk(written) => resolved_statement(alloc, mapping, written),
        Command::SetValue { .. }
        | Command::SetTerm { .. }
        | Command::Append { .. }
        | Command::Remove { .. } => resolved_change(mapping, names, command),
        _ => Err(Refusal::NotBuilt),
    }
}
