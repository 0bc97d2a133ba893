//! Queries for objects.

ghost use Rattle.std.specs.Prelude.{◌≡◌, ◌<◌, length, IfErr, IfOk, IsTrue, OnOk, ◌↔◌};
ghost use Rattle.std.specs.List.{All};
ghost use Rattle.base_core.specs.Answers.{Gives};
ghost use Rattle.class_mapping.specs.Configured.{IsConfigured};
ghost use Rattle.class_mapping.specs.Mapped.{IsClass, relations_of};
ghost use Rattle.known_queries.specs.Known.{ReadsJoined};
ghost use Rattle.load_queries.specs.Selectin.{IsSelectable};
ghost use Rattle.main_selects.specs.MainSelect.{main_select};
ghost use Rattle.script_resolve.specs.Refusals.{CanRefuse};
ghost use Rattle.sql_semantics.specs.Plain.{IsPlainSelect};
ghost use Rattle.query_names.specs.Queries.{AreRelations, HasOptions, IsOfQueries};
ghost use Rattle.query_names.specs.Queries as spec;
ghost use Rattle.query_names.specs.Scopes.{AreDeclared, IsScope};

use crate::expressions::expression_named;
use crate::judging::judge;
use crate::scope::QueryScope;
use crate::select::{joined_select, put, take_order};
use crate::sources::{QuerySources, class_alone, join_all, relation_named, scope_of};
use base_core::{ClassId, ListOf, Name, Refusal, RelNo};
use class_mapping::Mapping;
use command_names::class_named;
use expr_types::{Expr, ObjectQuery, Select};
use main_selects::main_select;
use plain_statements::is_plain_select;
use script_names::{pair, unknown};
use script_types::{Syn, SynQuery};
use sqlite_items::Boxed;
use std::alloc::{AllocError, Global};

/// Relationships that are loaded with the objects; true for `joined`.
type OptionList = ListOf<(bool, RelNo)>;

/// A condition, an order and options.
type Parts = (Option<Expr>, (ListOf<(Expr, bool)>, OptionList));

// ---- the parts

/// A condition that may be left out.
#[tactic(auto, using(crate::proofs::Firsts::firsts))]
fn filter_named(
    alloc: Global,
    mapping: &Mapping,
    scope: &QueryScope,
    filter: &Option<Syn>,
) -> Result<Option<Expr>, Refusal>
    requires scope { IsScope mapping.now scope.now }
    ensures said { Gives (λ it. it) result
        (spec.filter_said mapping.now scope.now filter.now) }
    ensures cause { IfErr result CanRefuse }
{
    match filter {
        Some(e) => Ok(Some(expression_named(alloc, mapping, scope, e)?)),
        None => Ok(None),
    }
}

/// An expression by which rows are ordered; true for `desc`.
#[tactic(auto, using(crate::proofs::Firsts::firsts))]
fn key_named(
    alloc: Global,
    mapping: &Mapping,
    scope: &QueryScope,
    key: &(Syn, bool),
) -> Result<(Expr, bool), Refusal>
    requires scope { IsScope mapping.now scope.now }
    ensures said { Gives (λ it. it) result (spec.key_said mapping.now scope.now key.now) }
    ensures cause { IfErr result CanRefuse }
{
    Ok((expression_named(alloc, mapping, scope, &key.0)?, key.1))
}

/// The expressions by which rows are ordered, from left to right.
#[tactic(auto, using(crate::proofs::Firsts::firsts))]
fn order_named(
    alloc: Global,
    mapping: &Mapping,
    scope: &QueryScope,
    keys: &[(Syn, bool)],
) -> Result<ListOf<(Expr, bool)>, Refusal>
    requires scope { IsScope mapping.now scope.now }
    ensures said { Gives (λ it. it) result (spec.order_said mapping.now scope.now keys.now) }
    ensures cause { IfErr result CanRefuse }
{
    let mut order = ListOf::new(alloc);
    for key in keys {
        order.push(key_named(alloc, mapping, scope, key)?)?;
    }
    Ok(order)
}

/// An option, which names the query's own class and a relationship of it.
#[tactic(auto, using(crate::proofs::Firsts::firsts))]
fn option_named(
    mapping: &Mapping,
    class: ClassId,
    option: &(bool, Name, Name),
) -> Result<(bool, RelNo), Refusal>
    requires class { IsClass mapping.now class }
    ensures said { Gives (λ it. it) result (spec.option_said mapping.now class option.now) }
    ensures cause { IfErr result CanRefuse }
    ensures exists { IfOk result (λ it. it.1.0 < length (relations_of mapping.now class)) }
{
    if mapping.spec_of(class).name != option.1 {
        return Err(unknown(&option.1)?);
    }
    Ok((option.0, relation_named(mapping, class, &option.2)?))
}

/// The options, from left to right.
#[tactic(auto, using(crate::proofs::Firsts::firsts))]
fn options_named(
    alloc: Global,
    mapping: &Mapping,
    class: ClassId,
    options: &[(bool, Name, Name)],
) -> Result<OptionList, Refusal>
    requires class { IsClass mapping.now class }
    ensures said { Gives (λ it. it) result (spec.options_said mapping.now class options.now) }
    ensures cause { IfErr result CanRefuse }
    ensures exist { IfOk result
        (All (λ it. it.1.0 < length (relations_of mapping.now class))) }
{
    let mut named = ListOf::new(alloc);
    for option in options {
        named.push(option_named(mapping, class, option)?)?;
    }
    Ok(named)
}

/// The order and the options of a query.
#[tactic(auto, using(crate::proofs::Firsts::firsts))]
fn rest_named(
    alloc: Global,
    mapping: &Mapping,
    class: ClassId,
    scope: &QueryScope,
    written: &SynQuery,
) -> Result<(ListOf<(Expr, bool)>, OptionList), Refusal>
    requires class { IsClass mapping.now class }
    requires scope { IsScope mapping.now scope.now }
    ensures said { Gives (λ it. it) result (spec.rest_said mapping.now class scope.now written.now) }
    ensures cause { IfErr result CanRefuse }
    ensures exist { IfOk result
        (λ rest. All (λ it. it.1.0 < length (relations_of mapping.now class)) rest.1) }
{
    pair(
        order_named(alloc, mapping, scope, written.order.as_slice()),
        options_named(alloc, mapping, class, written.options.as_slice()),
    )
}

/// The condition, the order and the options of a query, in reading order.
#[tactic(auto, using(crate::proofs::Firsts::firsts))]
fn parts_named(
    alloc: Global,
    mapping: &Mapping,
    class: ClassId,
    scope: &QueryScope,
    written: &SynQuery,
) -> Result<Parts, Refusal>
    requires class { IsClass mapping.now class }
    requires scope { IsScope mapping.now scope.now }
    ensures said { Gives (λ it. it) result
        (spec.parts_said mapping.now class scope.now written.now) }
    ensures cause { IfErr result CanRefuse }
    ensures exist { IfOk result
        (λ parts. All (λ it. it.1.0 < length (relations_of mapping.now class)) parts.1.1) }
{
    pair(
        filter_named(alloc, mapping, scope, &written.filter),
        rest_named(alloc, mapping, class, scope, written),
    )
}

// ---- the query

/// The relationships of joined options.
fn joined_among(alloc: Global, options: &[(bool, RelNo)]) -> Result<ListOf<RelNo>, AllocError>
    ensures { IfOk result (λ places. places ≡ spec.joined_among options.now) }
{
    let mut places = ListOf::new(alloc);
    for option in options {
        if option.0 {
            places.push(option.1)?;
        }
    }
    Ok(places)
}

/// The relationships of the other options.
fn selectin_among(alloc: Global, options: &[(bool, RelNo)]) -> Result<ListOf<RelNo>, AllocError>
    ensures { IfOk result (λ places. places ≡ spec.selectin_among options.now) }
{
    let mut places = ListOf::new(alloc);
    for option in options {
        if !option.0 {
            places.push(option.1)?;
        }
    }
    Ok(places)
}

/// The query of these parts.
fn query_of(
    alloc: Global,
    mapping: &Mapping,
    class: ClassId,
    sources: &QuerySources,
    written: &SynQuery,
    parts: Parts,
) -> Result<ObjectQuery, AllocError>
    requires class { IsClass mapping.now class }
    requires declared { AreDeclared mapping.now sources.now.classes }
    requires exist { All (λ it. it.1.0 < length (relations_of mapping.now class)) parts.1.1 }
    ensures query { IfOk result
        (λ query. query ≡ spec.query_of mapping.now class sources.now written.now parts) }
    ensures options { IfOk result (HasOptions mapping.now) }
{
    let (filter, (order, options)) = parts;
    let joined = joined_among(alloc, options.as_slice())?;
    let selectin = selectin_among(alloc, options.as_slice())?;
    let mut select = joined_select(alloc, mapping, class, sources, filter)?;
    take_order(&mut select, order, written);
    Ok(ObjectQuery {
        class,
        select,
        joined,
        selectin,
    })
}

/// The query over these classes and sources.
#[tactic(auto, using(crate::proofs::Firsts::firsts, crate::proofs::Standing::standing))]
fn named_under(
    alloc: Global,
    mapping: &Mapping,
    written: &SynQuery,
    class: ClassId,
    sources: &QuerySources,
) -> Result<Boxed<ObjectQuery>, Refusal>
    requires class { IsClass mapping.now class }
    requires declared { AreDeclared mapping.now sources.now.classes }
    ensures told { Gives (λ it. it) result
        (spec.named_under mapping.now written.now class sources.now) }
    ensures cause { IfErr result CanRefuse }
    ensures class { IfOk result (λ query. query.class ≡ class) }
    ensures options { IfOk result (HasOptions mapping.now) }
{
    let scope = scope_of(alloc, sources)?;
    let parts = parts_named(alloc, mapping, class, &scope, written)?;
    let query = query_of(alloc, mapping, class, sources, written, parts)?;
    Ok(Boxed::new(alloc, query)?)
}

/// The query with numbers for its names, in the form in which it is written.
#[tactic(auto, using(crate::proofs::Firsts::firsts))]
fn named(
    alloc: Global,
    mapping: &Mapping,
    written: &SynQuery,
) -> Result<Boxed<ObjectQuery>, Refusal>
    ensures told { Gives (λ it. it) result (spec.named_query mapping.now written.now) }
    ensures cause { IfErr result CanRefuse }
    ensures class { IfOk result (λ query. IsClass mapping.now query.class) }
    ensures options { IfOk result (HasOptions mapping.now) }
{
    let class = class_named(mapping, &written.class)?;
    let mut sources = class_alone(alloc, mapping, class)?;
    join_all(&mut sources, alloc, mapping, written.joins.as_slice())?;
    named_under(alloc, mapping, written, class, &sources)
}

// ---- the answer

/// A query with another select.
fn with_select(query: Boxed<ObjectQuery>, select: Boxed<Select>) -> ObjectQuery
    ensures { result ≡ record query { select = select } }
{
    let mut query = query.into_inner();
    put(&mut query.select, select.into_inner());
    query
}

/// The query in numbers, with its select in normal form.
#[tactic(auto, unfolding(crate::specs::Queries::resolved_query), using(crate::proofs::Firsts::firsts, crate::proofs::Judged::judged))]
fn resolved(
    alloc: Global,
    mapping: &Mapping,
    written: &SynQuery,
) -> Result<Boxed<ObjectQuery>, Refusal>
    ensures told { Gives (λ it. it) result (spec.resolved_query mapping.now written.now) }
    ensures cause { IfErr result IsOfQueries }
    ensures class { IfOk result (λ query. IsClass mapping.now query.class) }
    ensures options { IfOk result (HasOptions mapping.now) }
{
    let query = named(alloc, mapping, written)?;
    let form = judge(alloc, mapping, query.get())?;
    Ok(Boxed::new(alloc, with_select(query, form))?)
}

/// Whether the main select of a query is plain, so that it has a text and a keeper may be sent it.
fn has_plain_select(
    alloc: Global,
    mapping: &Mapping,
    query: &ObjectQuery,
) -> Result<bool, AllocError>
    requires class { IsClass mapping.now query.now.class }
    requires options { HasOptions mapping.now query.now }
    ensures plain { IfOk result (λ plain. IsTrue plain
        ↔ IsPlainSelect mapping.now.schema (main_select mapping.now query.now)) }
    ensures configured { OnOk result (IsConfigured mapping.now) }
{
    let select = Boxed::new(alloc, main_select(alloc, mapping, query)?)?;
    is_plain_select(alloc, mapping.schema(), select.get())
}

/// The query for objects that a line says, in numbers and with its select in normal form. Its class, the classes that it joins and
/// the attributes of its expressions are named as the mapping names them; a class name means the first class of the query that has
/// it, and inside an `exists` the source goes before the classes.
///
/// # Errors
/// The first that there is, in this order: in reading order, the class first, then joins, condition, order and options, `Unknown`
/// of a name that stands for nothing there, and `WrongKind` of an attribute where a relationship is wanted or the other way round,
/// and of a function with another number of operands than it takes; in reading order `TypeMismatch`, judged as it is written;
/// `NotGrouped` for an aggregate; `DuplicateFrom` for two sources of one name, also around and in an `exists`; `JoinedLimit` where a
/// collection is joined beside a limit or an offset. `Memory`, also where the main select is not one that a keeper may be sent.
pub fn resolve_query(
    alloc: Global,
    mapping: &Mapping,
    written: &SynQuery,
) -> Result<Boxed<ObjectQuery>, Refusal>
    ensures told { Gives (λ query. query) result (spec.resolved_query mapping.now written.now) }
    ensures cause { IfErr result IsOfQueries }
    ensures selectable { IfOk result (IsSelectable mapping.now) }
    // Its rows are known by the tables.
    ensures readable { IfOk result (ReadsJoined mapping.now) }
{
    let query = resolved(alloc, mapping, written)?;
    if !has_plain_select(alloc, mapping, query.get())? {
        return Err(Refusal::Memory);
    }
    Ok(query)
}
