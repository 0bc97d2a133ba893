//! The classes of a query, and the tables among which they stand.

ghost use Rattle.std.specs.Prelude.{◌≡◌, ◌<◌, length, IfErr, IfOk, OnOk};
ghost use Rattle.base_core.specs.Answers.{Gives};
ghost use Rattle.class_mapping.specs.Mapped.{IsClass, relations_of};
ghost use Rattle.object_arena.specs.Fit.{relation_of};
ghost use Rattle.script_resolve.specs.Refusals.{CanRefuse};
ghost use Rattle.query_names.specs.Scopes.{AreDeclared};
ghost use Rattle.query_names.specs.Sources as spec;

use crate::scope::{PlacedClass, QueryScope, class_meant};
use base_core::{ClassId, Copied, ListOf, Name, Refusal, RelNo};
use class_layouts::number_of;
use class_mapping::{Mapping, Relation};
use command_names::{Member, member_named, wrong_kind};
use load_columns::from_root;
use load_selects::{Further, other_tables, related_sources, target_placement};
use main_selects::relation_at;
use script_names::unknown;
use sqlite_items::Items;
use std::alloc::{AllocError, Global};

/// The classes of a query, in order, and its sources behind the first, which is the root's table of the query's own class.
#[derive(Drop)]
pub struct QuerySources {
    pub classes: ListOf<PlacedClass>,
    pub further: Items<Further>,
}

/// The relationship of a class that a name stands for.
///
/// # Errors
/// `WrongKind` for the name of an attribute, and `Unknown` for every other. `Memory`.
pub fn relation_named(mapping: &Mapping, class: ClassId, name: &Name) -> Result<RelNo, Refusal>
    requires class { IsClass mapping.now class }
    ensures relation { Gives (λ place. place) result
        (spec.relation_named mapping.now class name.now) }
    ensures cause { IfErr result CanRefuse }
    ensures exists { IfOk result (λ place. place.0 < length (relations_of mapping.now class)) }
{
    match member_named(mapping, class, name)? {
        Member::Attribute(_) => Err(wrong_kind()),
        Member::One(relation) => Ok(relation),
        Member::Many(relation) => Ok(relation),
    }
}

/// A class alone, with its tables from the root's on.
pub(crate) fn class_alone(
    alloc: Global,
    mapping: &Mapping,
    class: ClassId,
) -> Result<QuerySources, AllocError>
    requires class { IsClass mapping.now class }
    ensures sources { IfOk result (λ sources. sources ≡ spec.class_alone mapping.now class) }
    ensures declared { IfOk result (λ sources. AreDeclared mapping.now sources.classes) }
{
    let mut classes = ListOf::new(alloc);
    classes.push(PlacedClass {
        class,
        placement: from_root(0),
    })?;
    let further = other_tables(alloc, mapping, class, from_root(0))?;
    Ok(QuerySources {
        classes,
        further: Items::from_vec(further.into_vec()),
    })
}

/// How many sources there are.
fn source_count(sources: &QuerySources) -> Result<u32, AllocError>
    ensures { IfOk result (λ count. count ≡ spec.source_count sources.now) }
{
    let further = number_of(sources.further.len())?;
    number_of(further as usize + 1)
}

/// A relationship of one of the classes is joined: its target stands behind all others.
fn join_relation(
    sources: &mut QuerySources,
    alloc: Global,
    mapping: &Mapping,
    owner: PlacedClass,
    relation: &Relation,
) -> Result<(), AllocError>
    requires owner { IsClass mapping.now owner.class }
    requires target { IsClass mapping.now relation.now.target }
    ensures { OnOk result
        (sources.new ≡ spec.with_relation mapping.now owner relation.now sources.old) }
{
    let count = source_count(&*sources)?;
    let class = relation.target;
    let placement = target_placement(mapping, relation, count)?;
    let further = related_sources(
        alloc,
        mapping,
        owner.class,
        owner.placement,
        relation,
        count,
    )?;
    sources.classes.push(PlacedClass { class, placement })?;
    sources.further.append(Items::from_vec(further.into_vec()))
}

/// The relationship at a place of one of the classes is joined.
#[tactic(auto, using(crate::proofs::Standing::standing))]
fn join_place(
    sources: &mut QuerySources,
    alloc: Global,
    mapping: &Mapping,
    owner: PlacedClass,
    place: RelNo,
) -> Result<(), AllocError>
    requires owner { IsClass mapping.now owner.class }
    requires place { place.0 < length (relations_of mapping.now owner.class) }
    requires declared { AreDeclared mapping.now sources.old.classes }
    ensures sources { OnOk result (sources.new ≡ spec.with_relation mapping.now owner
        (relation_of mapping.now owner.class place) sources.old) }
    ensures declared { OnOk result (AreDeclared mapping.now sources.new.classes) }
{
    let relation = relation_at(mapping, owner.class, place);
    join_relation(sources, alloc, mapping, owner, relation)
}

/// A join of the query: one of its classes by its name, and a relationship of it.
#[tactic(auto, using(crate::proofs::Firsts::firsts))]
fn join(
    sources: &mut QuerySources,
    alloc: Global,
    mapping: &Mapping,
    written: &(Name, Name),
) -> Result<(), Refusal>
    requires declared { AreDeclared mapping.now sources.old.classes }
    ensures told { Gives (λ done. sources.new) result
        (spec.with_join mapping.now sources.old written.now) }
    ensures cause { IfErr result CanRefuse }
    ensures declared { OnOk result (AreDeclared mapping.now sources.new.classes) }
{
    let Some(owner) = class_meant(mapping, sources.classes.as_slice(), &written.0) else {
        return Err(unknown(&written.0)?);
    };
    let place = relation_named(mapping, owner.class, &written.1)?;
    Ok(join_place(sources, alloc, mapping, owner, place)?)
}

/// The joins of a query, in order.
///
/// # Errors
/// The first in reading order: `Unknown` of a class that is none of the query's up to there and of a name that is no member of
/// its class, `WrongKind` of an attribute. `Memory`.
#[tactic(auto, using(crate::proofs::Firsts::firsts))]
pub(crate) fn join_all(
    sources: &mut QuerySources,
    alloc: Global,
    mapping: &Mapping,
    joins: &[(Name, Name)],
) -> Result<(), Refusal>
    requires declared { AreDeclared mapping.now sources.old.classes }
    ensures told { Gives (λ done. sources.new) result
        (spec.with_joins mapping.now sources.old joins.now) }
    ensures cause { IfErr result CanRefuse }
    ensures declared { OnOk result (AreDeclared mapping.now sources.new.classes) }
{
    for written in joins {
        join(sources, alloc, mapping, written)?;
    }
    Ok(())
}

/// The scope of the query's expressions.
pub(crate) fn scope_of(alloc: Global, sources: &QuerySources) -> Result<QueryScope, AllocError>
    ensures { IfOk result (λ scope. scope ≡ spec.scope_of sources.now) }
{
    Ok(QueryScope {
        classes: sources.classes.copied()?,
        inner: ListOf::new(alloc),
        sources: source_count(sources)?,
    })
}
