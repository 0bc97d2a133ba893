//! Objects are made and cells set with values that validators take.

ghost use Rattle.std.specs.Prelude.{◌≡◌, IfErr, IfOk, IfSome, OnErr, OnOk, None};
ghost use Rattle.std.specs.List.{All};
ghost use Rattle.class_types.specs.Shown.{rules_of};
ghost use Rattle.class_mapping.specs.Mapped.{IsAttribute, IsClass};
ghost use Rattle.object_arena.specs.Graph.{IsObject, either_fault, object_at, value_fault};
ghost use Rattle.base_core.specs.declared.refusal.Refusal.TheVariants.{Memory};
ghost use Rattle.keeper_core.specs.Alone.{IsOwn, IsQuiet};
ghost use Rattle.session_scopes.specs.SessionState.{AreThereStill, IsInStep, IsMadeOf};
ghost use Rattle.session_calls.specs.Calling.{IsSessionCall};
ghost use Rattle.session_calls.specs.Refusals.{IsRefused, kept_fault, set_fault};
ghost use Rattle.session_calls.specs.Steps.{pending_fault};
ghost use Rattle.session_objects.specs.ValueSteps as steps;

use crate::judging::{discriminator_if, given_fault, invalid_fault, is_discriminator};
use base_core::{AttrNo, ClassId, ObjId, Refusal, Value};
use class_types::Hooks;
use keeper_core::Keeper;
use session_calls::{enter, set_cell, value_fault};
use session_scopes::Session;
use std::alloc::AllocError;

/// Makes a transient object of a class with these values; its other cells are NULL. Where it is made, each value is of its
/// attribute's kind, or NULL, and each validator of each of these attributes takes the value.
///
/// # Errors
/// `TypeMismatch` for the first value, as they are given, that is not NULL and of another kind than its attribute;
/// `ValidationError` of the first one that a validator of its attribute does not take, with the first such validator from the root
/// of the class on; then `InvalidRequestError(Discriminator)` where one of the attributes is the discriminator; then
/// `LimitReached(Objects)` where there are 1,000,000 objects, and `Memory`. A refusal changes nothing.
pub fn make_valid(
    session: &mut Session,
    hooks: &Hooks,
    class: ClassId,
    given: &[(AttrNo, Value)],
) -> Result<ObjId, Refusal>
    requires class { IsClass session.old.mapping class }
    requires attributes { All (λ one. IsAttribute session.old.mapping class one.0) given.now }
    ensures step { IsQuiet (λ object. object)
        (steps.valid_made (rules_of hooks.now) class given.now session.old) result session.new }
    ensures err { OnErr result (session.new ≡ session.old) }
    ensures rest { session.new ≡ record session.old { graph = session.new.graph } }
    ensures made { IfOk result (λ object. IsMadeOf session.new.graph object class) }
    ensures stay { AreThereStill session.old.graph session.new.graph }
    ensures valid { OnOk result (steps.given_fault
        (rules_of hooks.now) session.old.mapping class given.now ≡ None) }
{
    match given_fault(session.mapping(), hooks, class, given) {
        Ok(None) => session.make(class, given),
        Ok(Some(fault)) => Err(fault),
        Err(_full) => Err(Refusal::Memory),
    }
}

/// Gives a cell of an object a value. Where it does, the value is of the attribute's kind, or NULL, and each validator of the
/// attribute takes it. The object is touched in the innermost scope where its record comes to differ.
///
/// # Errors
/// `TypeMismatch` where the value is not NULL and of another kind than the attribute; `ValidationError` of the first validator, from
/// the root of the object's class on, that does not take the value; `PendingRollbackError` while a failed flush waits for its
/// rollback; then, in the transaction, `InvalidRequestError(Discriminator)` for the discriminator, and
/// `InvalidRequestError(KeyChange)` for a cell of the key of an object with an identity.
pub fn set_valid<K: Keeper>(
    session: &mut Session,
    keeper: &mut K,
    hooks: &Hooks,
    object: ObjId,
    attr: AttrNo,
    value: Value,
) -> Result<(), Refusal>
    requires object { IsObject session.old.graph object }
    requires attr { IsAttribute session.old.mapping
        (object_at session.old.graph object).class attr }
    requires in_step { IsInStep session.old (K.moment keeper.old) }
    ensures call { IsSessionCall K.moment (λ u. u)
        (steps.set_valid (rules_of hooks.now) object attr value)
        (session.old, keeper.old) result (session.new, keeper.new) }
    ensures refused { IfErr result (λ e. IsRefused
        (either_fault (steps.value_invalid (rules_of hooks.now) object attr value session.old)
        (pending_fault session.old))
        (steps.judged_fault object attr session.old) session.old e session.new) }
    ensures valid { OnOk result (steps.value_invalid
        (rules_of hooks.now) object attr value session.old ≡ None) }
{
    match value_invalid(session, hooks, object, attr, &value) {
        Ok(None) => set_judged(session, keeper, object, attr, value),
        Ok(Some(fault)) => Err(fault),
        Err(_full) => Err(Refusal::Memory),
    }
}

/// Why a value is not given to a cell of an object: it is of another kind, or the first validator that does not take it.
fn value_invalid(
    session: &Session,
    hooks: &Hooks,
    object: ObjId,
    attr: AttrNo,
    value: &Value,
) -> Result<Option<Refusal>, AllocError>
    requires object { IsObject session.now.graph object }
    requires attr { IsAttribute session.now.mapping
        (object_at session.now.graph object).class attr }
    ensures fault { IfOk result (λ fault. fault
        ≡ steps.value_invalid (rules_of hooks.now) object attr value.now session.now) }
    ensures own { IfOk result (λ fault. IfSome fault IsOwn) }
{
    match value_fault(session, object, attr, value) {
        Some(fault) => Ok(Some(fault)),
        None => value_untaken(session, hooks, object, attr, value),
    }
}

/// The first validator that does not take a value for a cell of an object.
fn value_untaken(
    session: &Session,
    hooks: &Hooks,
    object: ObjId,
    attr: AttrNo,
    value: &Value,
) -> Result<Option<Refusal>, AllocError>
    requires object { IsObject session.now.graph object }
    requires attr { IsAttribute session.now.mapping
        (object_at session.now.graph object).class attr }
    ensures fault { IfOk result (λ fault. fault
        ≡ steps.value_untaken (rules_of hooks.now) object attr value.now session.now) }
    ensures own { IfOk result (λ fault. IfSome fault IsOwn) }
{
    let class = session.object(object).class;
    invalid_fault(session.mapping(), hooks, class, attr, value)
}

/// Gives a cell a value that is judged.
fn set_judged<K: Keeper>(
    session: &mut Session,
    keeper: &mut K,
    object: ObjId,
    attr: AttrNo,
    value: Value,
) -> Result<(), Refusal>
    requires object { IsObject session.old.graph object }
    requires attr { IsAttribute session.old.mapping
        (object_at session.old.graph object).class attr }
    requires in_step { IsInStep session.old (K.moment keeper.old) }
    requires fits { value_fault session.old.mapping
        (object_at session.old.graph object) attr value ≡ None }
    ensures call { IsSessionCall K.moment (λ u. u) (steps.set_judged object attr value)
        (session.old, keeper.old) result (session.new, keeper.new) }
    ensures refused { IfErr result (λ e. IsRefused (pending_fault session.old)
        (steps.judged_fault object attr session.old) session.old e session.new) }
{
    enter(session, keeper)?;
    set_inside(session, keeper, object, attr, value)
}

/// What is done in the transaction.
fn set_inside<K: Keeper>(
    session: &mut Session,
    keeper: &mut K,
    object: ObjId,
    attr: AttrNo,
    value: Value,
) -> Result<(), Refusal>
    requires object { IsObject session.old.graph object }
    requires attr { IsAttribute session.old.mapping
        (object_at session.old.graph object).class attr }
    requires in_step { IsInStep session.old (K.moment keeper.old) }
    ensures call { IsSessionCall K.moment (λ u. u) (steps.set_inside object attr value)
        (session.old, keeper.old) result (session.new, keeper.new) }
    ensures refused { IfErr result (λ e. IsRefused
        (either_fault (steps.cell_kept object attr session.old)
        (set_fault object attr value session.old))
        (kept_fault object attr session.old) session.old e session.new) }
{
    match cell_kept(session, object, attr) {
        None => set_cell(session, keeper, object, attr, value),
        Some(fault) => Err(fault),
    }
}

/// Whether a cell stays as it is: it is the discriminator's.
fn cell_kept(session: &Session, object: ObjId, attr: AttrNo) -> Option<Refusal>
    requires { IsObject session.now.graph object }
    ensures fault { result ≡ steps.cell_kept object attr session.now }
    ensures own { IfSome result IsOwn }
{
    let class = session.object(object).class;
    discriminator_if(is_discriminator(session.mapping(), class, attr))
}
