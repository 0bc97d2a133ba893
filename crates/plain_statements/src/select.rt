//! Which selects are plain.

ghost use Rattle.std.specs.Prelude.{◌≡◌, ◌∷◌, [], ◌↔◌, IsTrue, length, IfOk};
ghost use Rattle.std.specs.List.{list_all, list_any};
ghost use Rattle.expr_types.specs.Level as level;
ghost use Rattle.sql_semantics.specs.Plain as plain;
ghost use Rattle.sql_semantics.specs.Plain.{IsPlainSelect};
ghost use Rattle.expr_scopes.specs.Scopes as scopes;
ghost use Rattle.plain_statements.specs.Tested as spec;

use crate::standing::{Sources, is_filter, stands, stands_as};
use base_core::{Kind, TableId};
use expr_scopes::{Grouping, are_distinct, is_known, settled};
use expr_types::{Expr, Select};
use expr_typing::has_aggregate;
use schema_core::Schema;
use std::alloc::{AllocError, Global};

/// The sources of a select, in order.
fn sources_of(alloc: Global, schema: &Schema, select: &Select) -> Result<Sources, AllocError>
    ensures tables { IfOk result (λ around. around.tables.items
        ≡ spec.tables_of (plain.sources_of select.now)) }
    ensures names { IfOk result (λ around. around.names.items
        ≡ spec.names_of schema.now (plain.sources_of select.now)) }
{
    let mut around = Sources::new(alloc);
    around.enter(alloc, schema, &select.first)?;
    for join in select.joins.as_slice() {
        around.enter(alloc, schema, &join.origin)?;
    }
    Ok(around)
}

/// Whether the condition of each join stands under the sources up to its own.
fn are_joined(alloc: Global, schema: &Schema, select: &Select) -> Result<bool, AllocError>
    ensures { IfOk result (λ joined. joined ≡ spec.are_joined schema.now
        (select.now.first.table ∷ []) (plain.name_of schema.now select.now.first ∷ [])
        select.now.joins) }
{
    let mut around = Sources::new(alloc);
    around.enter(alloc, schema, &select.first)?;
    for join in select.joins.as_slice() {
        around.enter(alloc, schema, &join.origin)?;
        if !is_filter(alloc, schema, &around, &join.on)? {
            return Ok(false);
        }
    }
    Ok(true)
}

/// Whether each expression stands, whatever is beside it.
fn pairs_stand<B>(
    alloc: Global,
    schema: &Schema,
    around: &Sources,
    pairs: &[(Expr, B)],
) -> Result<bool, AllocError>
    ensures { IfOk result (λ placed. placed ≡ list_all (λ pair. spec.stands schema.now
        around.now.tables.items around.now.names.items pair.0) pairs.now) }
{
    for pair in pairs {
        if !stands(alloc, schema, around, &pair.0)? {
            return Ok(false);
        }
    }
    Ok(true)
}

fn are_groups(
    alloc: Global,
    schema: &Schema,
    around: &Sources,
    groups: &[Expr],
) -> Result<bool, AllocError>
    ensures { IfOk result (λ placed. placed ≡ list_all
        (spec.is_group schema.now around.now.tables.items around.now.names.items) groups.now) }
{
    for group in groups {
        if has_aggregate(group) || !stands(alloc, schema, around, group)? {
            return Ok(false);
        }
    }
    Ok(true)
}

/// Whether there is no condition, or one on rows.
pub(crate) fn is_filtered(
    alloc: Global,
    schema: &Schema,
    around: &Sources,
    filter: &Option<Expr>,
) -> Result<bool, AllocError>
    ensures { IfOk result (λ placed. placed ≡ spec.if_set
        (spec.is_filter schema.now around.now.tables.items around.now.names.items) filter.now) }
{
    match filter {
        Some(e) => is_filter(alloc, schema, around, e),
        None => Ok(true),
    }
}

/// Whether there is no condition on groups, or one that stands.
fn is_having(
    alloc: Global,
    schema: &Schema,
    around: &Sources,
    having: &Option<Expr>,
) -> Result<bool, AllocError>
    ensures { IfOk result (λ placed. placed ≡ spec.if_set
        (spec.is_condition schema.now around.now.tables.items around.now.names.items) having.now) }
{
    match having {
        Some(e) => stands_as(alloc, schema, around, Kind::Boolean, e),
        None => Ok(true),
    }
}

fn are_placed(
    alloc: Global,
    schema: &Schema,
    around: &Sources,
    select: &Select,
) -> Result<bool, AllocError>
    ensures { IfOk result (λ placed. placed
        ≡ spec.are_placed schema.now around.now.tables.items around.now.names.items select.now) }
{
    if !is_filtered(alloc, schema, around, &select.filter)?
        || !is_having(alloc, schema, around, &select.having)?
        || !pairs_stand(alloc, schema, around, select.items.as_slice())?
        || !are_groups(alloc, schema, around, select.groups.as_slice())?
    {
        return Ok(false);
    }
    pairs_stand(alloc, schema, around, select.order.as_slice())
}

/// Whether an aggregate stands in one of the expressions, whatever is beside them.
fn some_gathers<B>(pairs: &[(Expr, B)]) -> bool
    ensures { result ≡ list_any (λ pair. level.has_aggregate pair.0) pairs.now }
{
    for pair in pairs {
        if has_aggregate(&pair.0) {
            return true;
        }
    }
    false
}

/// Whether the query has one row for each group.
fn groups_rows(select: &Select) -> bool
    ensures { result ≡ spec.groups_rows select.now }
{
    select.groups.len() > 0
        || select.having.is_some()
        || some_gathers(select.items.as_slice())
        || some_gathers(select.order.as_slice())
}

fn is_settled(query: &Grouping<'_>, e: &Option<Expr>) -> bool
    ensures { result ≡ spec.if_set
        (plain.is_well_grouped query.now.grouped query.now.groups.now query.now.own) e.now }
{
    match e {
        Some(e) => settled(query, e),
        None => true,
    }
}

/// Whether each expression is settled, whatever is beside it.
fn pairs_settled<B>(query: &Grouping<'_>, pairs: &[(Expr, B)]) -> bool
    ensures { result ≡ list_all (λ pair. plain.is_well_grouped query.now.grouped query.now.groups.now
        query.now.own pair.0) pairs.now }
{
    for pair in pairs {
        if !settled(query, &pair.0) {
            return false;
        }
    }
    true
}

/// Whether what is evaluated for each row or group is settled.
fn are_settled(query: &Grouping<'_>, select: &Select) -> bool
    ensures { result
        ≡ spec.are_settled query.now.grouped query.now.groups.now query.now.own select.now }
{
    is_settled(query, &select.having)
        && pairs_settled(query, select.items.as_slice())
        && pairs_settled(query, select.order.as_slice())
}

/// Whether the columns and aggregates of what is evaluated for each row or group stand where groups let them: aggregates in
/// no other one and in no `exists`, and in a grouped query the columns of its sources in aggregates and in occurrences of
/// its group expressions alone.
#[tactic(auto, using(crate::proofs::Selects::select_settled))]
pub fn is_settled_select(select: &Select) -> bool
    ensures { result ≡ list_all
        (plain.is_well_grouped (plain.is_grouped select.now) select.now.groups (length (plain.sources_of select.now)))
        (plain.and_having select.now.having (plain.outputs select.now)) }
{
    let query = Grouping {
        grouped: groups_rows(select),
        groups: select.groups.as_slice(),
        own: select.joins.as_slice().len() + 1,
    };
    are_settled(&query, select)
}

fn all_known(schema: &Schema, tables: &[TableId]) -> bool
    ensures { result ≡ list_all (scopes.is_known schema.now) tables.now }
{
    for table in tables {
        if !is_known(schema, *table) {
            return false;
        }
    }
    true
}

fn is_limit(count: Option<u64>) -> bool
    ensures { result ≡ plain.is_limit count }
{
    match count {
        Some(count) => count < 1 << 63,
        None => true,
    }
}

fn is_plain_under(
    alloc: Global,
    schema: &Schema,
    around: &Sources,
    select: &Select,
) -> Result<bool, AllocError>
    ensures { IfOk result (λ plain. plain
        ≡ spec.plain_under schema.now around.now.tables.items around.now.names.items select.now) }
{
    let query = Grouping {
        grouped: groups_rows(select),
        groups: select.groups.as_slice(),
        own: around.tables.len(),
    };
    if !all_known(schema, around.tables.as_slice())
        || !are_distinct(around.names.as_slice())
        || !are_settled(&query, select)
    {
        return Ok(false);
    }
    are_placed(alloc, schema, around, select)
}

fn plain_select(alloc: Global, schema: &Schema, select: &Select) -> Result<bool, AllocError>
    ensures { IfOk result (λ plain. plain ≡ spec.plain_select schema.now select.now) }
{
    if !is_limit(select.limit) || !is_limit(select.offset) {
        return Ok(false);
    }
    let around = sources_of(alloc, schema, select)?;
    if !is_plain_under(alloc, schema, &around, select)? {
        return Ok(false);
    }
    are_joined(alloc, schema, select)
}

/// Whether a select is plain: well typed and in normal form, with every part where SQL lets it stand. Its tables are
/// declared and its sources have names of their own; each column is there, each join's condition names the sources up to
/// its own, `where`, `on` and `group by` have no aggregate, and a grouped query has the columns of its sources in
/// aggregates and in its group expressions alone. `limit` and `offset` are below 2^63.
#[tactic(auto, using(crate::proofs::Selects::select_decided))]
pub fn is_plain_select(alloc: Global, schema: &Schema, select: &Select) -> Result<bool, AllocError>
    ensures { IfOk result (λ plain. IsTrue plain ↔ IsPlainSelect schema.now select.now) }
{
    Ok(plain_select(alloc, schema, select)?)
}
