//! The values with which an object is made.

ghost use Rattle.std.specs.Prelude.{◌≡◌, None, IfOk, IfSome};
ghost use Rattle.std.specs.List.{All};
ghost use Rattle.class_mapping.specs.Mapped.{IsAttribute, IsClass};
ghost use Rattle.object_arena.specs.Every.{classes_of};
ghost use Rattle.object_arena.specs.Fit.{IsFit};
ghost use Rattle.object_arena.specs.Graph.{IsObject, object_at, with_cell};
ghost use Rattle.keeper_core.specs.Alone.{IsOwn};
ghost use Rattle.session_scopes.specs.Making as spec;

use base_core::{AttrNo, ClassId, Copied, ObjId, Refusal, Value};
use class_mapping::Mapping;
use object_arena::{Arena, Cell};
use schema_core::{kind_of_value, same_kind};
use std::alloc::{AllocError, Global};

/// Values for attributes.
pub type Given = Vec<(AttrNo, Value)>;

/// Why values are not taken for attributes of a class: the first that is not NULL and of another kind.
#[tactic(auto, using(crate::proofs::MakingLemmas::faults))]
pub fn first_fault(mapping: &Mapping, class: ClassId, given: &[(AttrNo, Value)]) -> Option<Refusal>
    requires declared { IsClass mapping.now class }
    requires attributes { All (λ one. IsAttribute mapping.now class one.0) given.now }
    ensures fault { result ≡ spec.first_given_fault mapping.now class given.now }
    ensures own { IfSome result IsOwn }
{
    for (attr, value) in given {
        if let Some(fault) = fault_of(mapping, class, *attr, value) {
            return Some(fault);
        }
    }
    None
}

/// Why a value is not taken for an attribute of a class.
fn fault_of(mapping: &Mapping, class: ClassId, attr: AttrNo, value: &Value) -> Option<Refusal>
    requires declared { IsClass mapping.now class }
    requires attribute { IsAttribute mapping.now class attr }
    ensures fault { result ≡ spec.given_fault mapping.now class (attr, value.now) }
    ensures own { IfSome result IsOwn }
{
    let wanted = mapping.attributes(class)[attr.0 as usize].kind;
    let found = kind_of_value(value)?;
    if same_kind(wanted, found) {
        return None;
    }
    Some(Refusal::TypeMismatch(wanted, found))
}

/// A copy of values for attributes.
pub(crate) fn copy_of(alloc: Global, given: &[(AttrNo, Value)]) -> Result<Given, AllocError>
    ensures { IfOk result (λ copy. copy.items ≡ given.now) }
{
    let mut copy = Vec::new(alloc);
    for (attr, value) in given {
        copy.push((*attr, value.copied()?))?;
    }
    Ok(copy)
}

/// Values of their attributes' kinds go into cells of an object, one after another.
pub fn put_given(arena: &mut Arena, mapping: &Mapping, object: ObjId, given: Given)
    requires fit { IsFit mapping.now arena.old }
    requires object { IsObject arena.old object }
    requires attributes { All
        (λ one. IsAttribute mapping.now (object_at arena.old object).class one.0) given.items }
    requires kinds { spec.first_given_fault
        mapping.now (object_at arena.old object).class given.items ≡ None }
    ensures put { arena.new ≡ spec.with_given arena.old object given.items }
    ensures fits { IsFit mapping.now arena.new }
    ensures classes { classes_of arena.new ≡ classes_of arena.old }
{
    for (attr, value) in given {
        put_one(arena, mapping, object, attr, value);
    }
}

/// A value of its attribute's kind goes into a cell of an object, to be written.
fn put_one(arena: &mut Arena, mapping: &Mapping, object: ObjId, attr: AttrNo, value: Value)
    requires fit { IsFit mapping.now arena.old }
    requires object { IsObject arena.old object }
    requires attribute { IsAttribute mapping.now (object_at arena.old object).class attr }
    requires kind { spec.given_fault
        mapping.now (object_at arena.old object).class (attr, value) ≡ None }
    ensures put { arena.new ≡ with_cell arena.old object attr (spec.unwritten_cell value) }
    ensures fits { IsFit mapping.now arena.new }
    ensures classes { classes_of arena.new ≡ classes_of arena.old }
{
    let cell = Cell {
        value: Some(value),
        base: None,
    };
    arena.put_cell(object, attr, cell);
}
