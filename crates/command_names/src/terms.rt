//! What the terms of a line stand for.

ghost use Rattle.std.specs.Prelude.{◌≡◌, ℕ, Some, IfOk, IfErr};
ghost use Rattle.base_core.specs.Answers.{Gives};
ghost use Rattle.base_core.specs.declared.refusal.Refusal.TheVariants.{InvalidRequestError};
ghost use Rattle.base_core.specs.declared.refusal.RequestKind.TheVariants.{Unknown};
ghost use Rattle.class_mapping.specs.Mapped.{IsClass, Mapped};
ghost use Rattle.object_arena.specs.Graph.{Graph};
ghost use Rattle.session_scopes.specs.SessionState.{IsMadeOf};
ghost use Rattle.script_resolve.specs.Refusals.{CanRefuse};
ghost use Rattle.command_names.specs.Standing.{AreOfDeclared, AreThere, IsDrawn, IsDrawnIfNamed, IsOfDeclared, IsThere};
ghost use Rattle.command_names.specs.Terms as spec;

use base_core::{ClassId, Copied, ListOf, Name, ObjId, Refusal, RequestKind};
use script_types::Term;
use shell_parts::{Bound, Names};
use std::alloc::{AllocError, Global};

/// No such name is there.
pub(crate) fn unknown(name: &Name) -> Result<Refusal, AllocError>
    ensures { IfOk result (λ e. e ≡ InvalidRequestError (Unknown name.now)) }
{
    Ok(Refusal::InvalidRequestError(RequestKind::Unknown(name.copied()?)))
}

/// What is there is no thing of the kind that its place wants.
pub fn wrong_kind() -> Refusal
    ensures { result ≡ Refusal.InvalidRequestError RequestKind.WrongKind }
{
    Refusal::InvalidRequestError(RequestKind::WrongKind)
}

/// A member of a list, counted from 0.
fn member_of(thing: &Bound, place: u64) -> Result<(ObjId, ClassId), Refusal>
    ensures member { result ≡ spec.member_at place thing.now }
    ensures cause { IfErr result CanRefuse }
    ensures there { (graph : Graph) → (drawn : ℕ) → IsThere graph drawn thing.now
        → IfOk result (λ named. IsMadeOf graph named.0 named.1) }
    ensures declared { (mapped : Mapped) → IsOfDeclared mapped thing.now
        → IfOk result (λ named. IsClass mapped named.1) }
{
    let Bound::Objects(members) = thing else {
        return Err(wrong_kind());
    };
    match members.get(place as usize) {
        Some(member) => Ok(*member),
        None => Err(wrong_kind()),
    }
}

/// The object that is bound.
fn object_in(thing: &Bound) -> Result<(ObjId, ClassId), Refusal>
    ensures object { result ≡ spec.as_object thing.now }
    ensures cause { IfErr result CanRefuse }
    ensures there { (graph : Graph) → (drawn : ℕ) → IsThere graph drawn thing.now
        → IfOk result (λ named. IsMadeOf graph named.0 named.1) }
    ensures declared { (mapped : Mapped) → IsOfDeclared mapped thing.now
        → IfOk result (λ named. IsClass mapped named.1) }
{
    match thing {
        Bound::Object(object, class) => Ok((*object, *class)),
        Bound::Nothing | Bound::Objects(_) | Bound::Saved(_) => Err(wrong_kind()),
    }
}

/// The object that is bound, or a member of the list that is.
fn object_at(thing: &Bound, index: Option<u64>) -> Result<(ObjId, ClassId), Refusal>
    ensures object { result ≡ spec.object_at index thing.now }
    ensures cause { IfErr result CanRefuse }
    ensures there { (graph : Graph) → (drawn : ℕ) → IsThere graph drawn thing.now
        → IfOk result (λ named. IsMadeOf graph named.0 named.1) }
    ensures declared { (mapped : Mapped) → IsOfDeclared mapped thing.now
        → IfOk result (λ named. IsClass mapped named.1) }
{
    match index {
        Some(place) => member_of(thing, place),
        None => object_in(thing),
    }
}

/// The object that a term stands for, and its class.
///
/// # Errors
/// `Unknown` where the name is not bound, `WrongKind` where it is bound to something else, or the list to which it is bound has
/// no such member. `Memory`.
pub fn object_of(names: &Names, term: &Term) -> Result<(ObjId, ClassId), Refusal>
    ensures object { Gives (λ named. named) result (spec.object_of names.now term.now) }
    ensures cause { IfErr result CanRefuse }
    ensures there { (graph : Graph) → (drawn : ℕ) → AreThere graph drawn names.now
        → IfOk result (λ named. IsMadeOf graph named.0 named.1) }
    ensures declared { (mapped : Mapped) → AreOfDeclared mapped names.now
        → IfOk result (λ named. IsClass mapped named.1) }
{
    match names.get(&term.name) {
        Some(thing) => object_at(thing, term.index),
        None => Err(unknown(&term.name)?),
    }
}

/// A copy of a list of objects.
fn members_copied(
    alloc: Global,
    members: &[(ObjId, ClassId)],
) -> Result<ListOf<(ObjId, ClassId)>, AllocError>
    ensures { IfOk result (λ copy. copy ≡ members.now) }
{
    let mut copy = ListOf::new(alloc);
    for member in members {
        copy.push(*member)?;
    }
    Ok(copy)
}

/// What is shown of a thing that is bound, but for a member.
fn whole_shown(alloc: Global, thing: &Bound) -> Result<Bound, Refusal>
    ensures thing { Gives (λ thing. thing) result (spec.as_shown thing.now) }
    ensures cause { IfErr result CanRefuse }
    ensures there { (graph : Graph) → (drawn : ℕ) → IsThere graph drawn thing.now
        → IfOk result (IsThere graph drawn) }
    ensures declared { (mapped : Mapped) → IsOfDeclared mapped thing.now
        → IfOk result (IsOfDeclared mapped) }
{
    match thing {
        Bound::Nothing => Ok(Bound::Nothing),
        Bound::Object(object, class) => Ok(Bound::Object(*object, *class)),
        Bound::Objects(members) => Ok(Bound::Objects(members_copied(alloc, members.as_slice())?)),
        Bound::Saved(_) => Err(wrong_kind()),
    }
}

/// What is shown of a thing that is bound.
fn shown_at(alloc: Global, thing: &Bound, index: Option<u64>) -> Result<Bound, Refusal>
    ensures thing { Gives (λ thing. thing) result (spec.shown_at index thing.now) }
    ensures cause { IfErr result CanRefuse }
    ensures there { (graph : Graph) → (drawn : ℕ) → IsThere graph drawn thing.now
        → IfOk result (IsThere graph drawn) }
    ensures declared { (mapped : Mapped) → IsOfDeclared mapped thing.now
        → IfOk result (IsOfDeclared mapped) }
{
    let Some(place) = index else {
        return whole_shown(alloc, thing);
    };
    let (object, class) = member_of(thing, place)?;
    Ok(Bound::Object(object, class))
}

/// What a term stands for that is shown.
///
/// # Errors
/// `Unknown` where the name is not bound, `WrongKind` where it is bound to a savepoint, or where a member is asked for and the
/// name is bound to no list that has it. `Memory`.
pub fn shown_of(alloc: Global, names: &Names, term: &Term) -> Result<Bound, Refusal>
    ensures thing { Gives (λ thing. thing) result (spec.shown_of names.now term.now) }
    ensures cause { IfErr result CanRefuse }
    ensures there { (graph : Graph) → (drawn : ℕ) → AreThere graph drawn names.now
        → IfOk result (IsThere graph drawn) }
    ensures declared { (mapped : Mapped) → AreOfDeclared mapped names.now
        → IfOk result (IsOfDeclared mapped) }
{
    match names.get(&term.name) {
        Some(thing) => shown_at(alloc, thing, term.index),
        None => Err(unknown(&term.name)?),
    }
}

/// The number of the savepoint that is bound.
fn handle_in(thing: &Bound) -> Result<u32, Refusal>
    ensures handle { result ≡ spec.as_handle thing.now }
    ensures cause { IfErr result CanRefuse }
    ensures there { (graph : Graph) → (drawn : ℕ) → IsThere graph drawn thing.now
        → IfOk result (IsDrawn drawn) }
{
    match thing {
        Bound::Saved(number) => Ok(*number),
        Bound::Nothing | Bound::Object(_, _) | Bound::Objects(_) => Err(wrong_kind()),
    }
}

/// The number of the savepoint that a name stands for.
fn handle_of(names: &Names, name: &Name) -> Result<u32, Refusal>
    ensures handle { Gives (λ number. number) result (spec.handle_of names.now name.now) }
    ensures cause { IfErr result CanRefuse }
    ensures there { (graph : Graph) → (drawn : ℕ) → AreThere graph drawn names.now
        → IfOk result (IsDrawn drawn) }
{
    match names.get(name) {
        Some(thing) => handle_in(thing),
        None => Err(unknown(name)?),
    }
}

/// The number of the savepoint that a name stands for, where one is given.
///
/// # Errors
/// `Unknown` where the name is not bound, `WrongKind` where it is bound to something else. `Memory`.
pub fn handle_if_named(names: &Names, name: &Option<Name>) -> Result<Option<u32>, Refusal>
    ensures handle { Gives (λ number. number) result (spec.handle_if_named names.now name.now) }
    ensures cause { IfErr result CanRefuse }
    ensures there { (graph : Graph) → (drawn : ℕ) → AreThere graph drawn names.now
        → IfOk result (IsDrawnIfNamed drawn) }
{
    match name {
        Some(name) => Ok(Some(handle_of(names, name)?)),
        None => Ok(None),
    }
}
