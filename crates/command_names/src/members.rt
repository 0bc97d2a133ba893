//! Classes, and their attributes and relationships by their names.

ghost use Rattle.std.specs.Prelude.{◌≡◌, ◌<◌, length, IfErr, IfOk, IfSome};
ghost use Rattle.std.specs.List.{position};
ghost use Rattle.base_core.specs.Answers.{Gives};
ghost use Rattle.schema_core.specs.Catalog.{same_name};
ghost use Rattle.base_core.specs.declared.ids.ClassId.{ClassId};
ghost use Rattle.class_mapping.specs.Mapped.{IsAttribute, IsClass, Mapped};
ghost use Rattle.script_resolve.specs.Refusals.{CanRefuse};
ghost use Rattle.command_names.specs.Attributes as spec;

use crate::terms::{unknown, wrong_kind};
use base_core::{AttrNo, ClassId, Name, Refusal, RelNo};
use class_layouts::number_of;
use class_mapping::Mapping;
use class_types::{Attribute, Relation};

/// What a class has under a name.
#[derive(Clone, Copy)]
pub enum Member {
    Attribute(AttrNo),
    /// A relationship that leads to one object or to none.
    One(RelNo),
    /// A collection.
    Many(RelNo),
}

/// The class of a name.
///
/// # Errors
/// `Unknown`, and `Memory`.
pub fn class_named(mapping: &Mapping, name: &Name) -> Result<ClassId, Refusal>
    ensures class { Gives (λ class. class) result (spec.class_named mapping.now name.now) }
    ensures cause { IfErr result CanRefuse }
    ensures declared { IfOk result (IsClass mapping.now) }
{
    match mapping.find_class(name) {
        Some(class) => Ok(class),
        None => Err(unknown(name)?),
    }
}

/// The place of the attribute of a name.
fn place_of(attributes: &[Attribute], name: &Name) -> Option<usize>
    ensures place { result ≡ position
        (λ attribute. same_name attribute.name name.now) attributes.now }
    ensures inside { IfSome result (λ place. place < length attributes.now) }
{
    attributes
        .iter()
        .position(|attribute| attribute.name == *name)
}

/// The place of the relationship of a name.
fn place_among(relations: &[Relation], name: &Name) -> Option<usize>
    ensures place { result ≡ position
        (λ relation. same_name relation.name name.now) relations.now }
    ensures inside { IfSome result (λ place. place < length relations.now) }
{
    relations.iter().position(|relation| relation.name == *name)
}

/// The relationship of a name.
fn link_or_unknown(relations: &[Relation], name: &Name) -> Result<Member, Refusal>
    ensures member { Gives (λ member. member) result (spec.link_or_unknown
        relations.now name.now (spec.find_relation relations.now name.now)) }
    ensures cause { IfErr result CanRefuse }
    ensures exists { IfOk result (spec.IsAmong relations.now) }
{
    let Some(place) = place_among(relations, name) else {
        return Err(unknown(name)?);
    };
    let relation = RelNo(number_of(place)?);
    if relations[place].many {
        return Ok(Member::Many(relation));
    }
    Ok(Member::One(relation))
}

#[tactic(auto, using(crate::proofs::Named::member_of))]
/// The attribute or the relationship of a class that a name stands for.
///
/// # Errors
/// `Unknown`, and `Memory`.
pub fn member_named(mapping: &Mapping, class: ClassId, name: &Name) -> Result<Member, Refusal>
    requires class { IsClass mapping.now class }
    ensures member { Gives (λ member. member) result
        (spec.member_named mapping.now class name.now) }
    ensures cause { IfErr result CanRefuse }
    ensures exists { IfOk result (spec.IsMember mapping.now class) }
{
    match place_of(mapping.attributes(class), name) {
        Some(place) => Ok(Member::Attribute(AttrNo(number_of(place)?))),
        None => link_or_unknown(mapping.relations(class), name),
    }
}

/// The attribute of a class that a name stands for.
///
/// # Errors
/// `WrongKind` for the name of a relationship, and `Unknown` for every other. `Memory`.
pub(crate) fn attribute_named(
    mapping: &Mapping,
    class: ClassId,
    name: &Name,
) -> Result<AttrNo, Refusal>
    requires class { IsClass mapping.now class }
    ensures attribute { Gives (λ attr. attr) result
        (spec.attribute_named mapping.now class name.now) }
    ensures cause { IfErr result CanRefuse }
    ensures exists { IfOk result (IsAttribute mapping.now class) }
{
    match member_named(mapping, class, name)? {
        Member::Attribute(attr) => Ok(attr),
        Member::One(_) => Err(wrong_kind()),
        Member::Many(_) => Err(wrong_kind()),
    }
}

/// A collection, or a link to one object, where such a one is wanted.
fn as_link(many: bool, member: Member) -> Result<RelNo, Refusal>
    ensures relation { result ≡ spec.as_link many member }
    ensures cause { IfErr result CanRefuse }
    ensures exists { (mapped : Mapped) (class : ClassId) → spec.IsMember mapped class member
        → IfOk result (λ relation. spec.IsRelation mapped class relation many) }
{
    match member {
        Member::Attribute(_) => Err(wrong_kind()),
        Member::One(relation) => unless(many, relation),
        Member::Many(relation) => unless(!many, relation),
    }
}

/// A relationship, unless it is of the wrong form.
fn unless(is_wrong: bool, relation: RelNo) -> Result<RelNo, Refusal>
    ensures relation { result ≡ spec.link_unless is_wrong relation }
    ensures cause { IfErr result CanRefuse }
{
    if is_wrong {
        return Err(wrong_kind());
    }
    Ok(relation)
}

/// The collection of a class that a name stands for, or the link to one object.
///
/// # Errors
/// `WrongKind` for the name of an attribute or of a relationship of the other form, and `Unknown` for every other. `Memory`.
pub fn link_named(
    mapping: &Mapping,
    many: bool,
    class: ClassId,
    name: &Name,
) -> Result<RelNo, Refusal>
    requires class { IsClass mapping.now class }
    ensures relation { Gives (λ relation. relation) result
        (spec.link_named mapping.now many class name.now) }
    ensures cause { IfErr result CanRefuse }
    ensures exists { IfOk result (λ relation. spec.IsRelation mapping.now class relation many) }
{
    let member = member_named(mapping, class, name)?;
    as_link(many, member)
}
