//! Names of sources that stand in one scope. The only error is that memory ran out.

ghost use Rattle.std.specs.Prelude.{◌≡◌, ◌++◌, ◌∷◌, [], IfOk, OnOk};
ghost use Rattle.std.specs.List.{filter_map, list_all};
ghost use Rattle.std.specs.Option.{option_to_list};
ghost use Rattle.sql_semantics.specs.Applied.{table_of};
ghost use Rattle.sql_semantics.specs.Plain as plain;
ghost use Rattle.plain_statements.specs.Tested.{names_alone, names_of};
ghost use Rattle.script_resolve.specs.JudgedBulks as bulks;
ghost use Rattle.script_resolve.specs.Judging as spec;

use base_core::{ColumnNo, Name, TableId};
use expr_scopes::{are_distinct, name_of, names_apart, table_name};
use expr_types::{Bulk, Expr, Joined, Origin, Select};
use schema_core::Schema;
use std::alloc::{AllocError, Global};

/// The name of one more source behind these.
fn enter(
    names: &mut Vec<Name>,
    alloc: Global,
    schema: &Schema,
    origin: &Origin,
) -> Result<(), AllocError>
    ensures { OnOk result (names.new.items
        ≡ names.old.items ++ plain.name_of schema.now origin.now ∷ []) }
{
    names.push(name_of(alloc, schema, origin)?)?;
    Ok(())
}

/// The names of the sources.
fn names_of(alloc: Global, schema: &Schema, s: &Select) -> Result<Vec<Name>, AllocError>
    ensures { IfOk result (λ names. names.items ≡ names_of schema.now (plain.sources_of
        s.now)) }
{
    let mut names = Vec::new(alloc);
    enter(&mut names, alloc, schema, &s.first)?;
    for join in s.joins.as_slice() {
        enter(&mut names, alloc, schema, &join.origin)?;
    }
    Ok(names)
}

/// Whether no `exists` in the condition of a join adds a name that stands around it; `first` stands before the joins.
fn joins_apart(
    alloc: Global,
    schema: &Schema,
    first: &Origin,
    joins: &[Joined],
) -> Result<bool, AllocError>
    ensures { IfOk result (λ apart. apart
        ≡ spec.joins_apart schema.now (plain.name_of schema.now first.now ∷ []) joins.now) }
{
    let mut names = Vec::new(alloc);
    enter(&mut names, alloc, schema, first)?;
    for join in joins {
        enter(&mut names, alloc, schema, &join.origin)?;
        if !names_apart(alloc, schema, names.as_slice(), &join.on)? {
            return Ok(false);
        }
    }
    Ok(true)
}

fn apart_if_given(
    alloc: Global,
    schema: &Schema,
    names: &[Name],
    e: &Option<Expr>,
) -> Result<bool, AllocError>
    ensures { IfOk result (λ apart. apart
        ≡ list_all (λ e. plain.names_apart schema.now e names.now) (option_to_list e.now)) }
{
    match e {
        Some(e) => names_apart(alloc, schema, names, e),
        None => Ok(true),
    }
}

fn groups_apart(
    alloc: Global,
    schema: &Schema,
    names: &[Name],
    groups: &[Expr],
) -> Result<bool, AllocError>
    ensures { IfOk result (λ apart. apart
        ≡ list_all (λ e. plain.names_apart schema.now e names.now) groups.now) }
{
    for group in groups {
        if !names_apart(alloc, schema, names, group)? {
            return Ok(false);
        }
    }
    Ok(true)
}

/// The same of expressions that have something beside them.
fn pairs_apart<B>(
    alloc: Global,
    schema: &Schema,
    names: &[Name],
    pairs: &[(Expr, B)],
) -> Result<bool, AllocError>
    ensures { IfOk result (λ apart. apart
        ≡ list_all (λ pair. plain.names_apart schema.now pair.0 names.now) pairs.now) }
{
    for pair in pairs {
        if !names_apart(alloc, schema, names, &pair.0)? {
            return Ok(false);
        }
    }
    Ok(true)
}

/// Whether no `exists` under all sources adds one of these names.
#[tactic(auto, using(crate::proofs::Placing::under_sources_hold))]
fn parts_apart(
    alloc: Global,
    schema: &Schema,
    names: &[Name],
    s: &Select,
) -> Result<bool, AllocError>
    ensures { IfOk result (λ apart. apart
        ≡ list_all (λ e. plain.names_apart schema.now e names.now) (spec.under_sources s.now)) }
{
    if !apart_if_given(alloc, schema, names, &s.filter)?
        || !groups_apart(alloc, schema, names, s.groups.as_slice())?
        || !apart_if_given(alloc, schema, names, &s.having)?
        || !pairs_apart(alloc, schema, names, s.items.as_slice())?
    {
        return Ok(false);
    }
    Ok(pairs_apart(alloc, schema, names, s.order.as_slice())?)
}

/// Whether no two sources in one scope have one name.
pub(crate) fn has_names_apart(
    alloc: Global,
    schema: &Schema,
    s: &Select,
) -> Result<bool, AllocError>
    ensures { IfOk result (λ apart. apart ≡ spec.has_names_apart schema.now s.now) }
{
    let names = names_of(alloc, schema, s)?;
    if !are_distinct(names.as_slice())
        || !joins_apart(alloc, schema, &s.first, s.joins.as_slice())?
    {
        return Ok(false);
    }
    parts_apart(alloc, schema, names.as_slice(), s)
}

fn cells_apart(
    alloc: Global,
    schema: &Schema,
    names: &[Name],
    cells: &[(ColumnNo, Option<Expr>)],
) -> Result<bool, AllocError>
    ensures { IfOk result (λ apart. apart
        ≡ list_all (λ e. plain.names_apart schema.now e names.now)
        (filter_map (λ cell. cell.1) cells.now)) }
{
    for cell in cells {
        if !apart_if_given(alloc, schema, names, &cell.1)? {
            return Ok(false);
        }
    }
    Ok(true)
}

fn table_in(b: &Bulk) -> TableId
    ensures { result ≡ table_of b.now }
{
    match b {
        Bulk::Insert { table, .. } | Bulk::Update { table, .. } | Bulk::Delete { table, .. } => {
            *table
        }
    }
}

#[tactic(auto, using(crate::proofs::Placing::bulk_parts))]
fn expressions_apart(
    alloc: Global,
    schema: &Schema,
    names: &[Name],
    b: &Bulk,
) -> Result<bool, AllocError>
    ensures { IfOk result (λ apart. apart
        ≡ list_all (λ e. plain.names_apart schema.now e names.now)
        (bulks.expressions_in b.now)) }
{
    match b {
        Bulk::Insert { .. } => Ok(true),
        Bulk::Update { cells, filter, .. } => {
            if !cells_apart(alloc, schema, names, cells.as_slice())? {
                return Ok(false);
            }
            Ok(apart_if_given(alloc, schema, names, filter)?)
        }
        Bulk::Delete { filter, .. } => apart_if_given(alloc, schema, names, filter),
    }
}

/// Whether no `exists` in a bulk statement adds a name that stands around it.
pub(crate) fn bulk_names_apart(alloc: Global, schema: &Schema, b: &Bulk) -> Result<bool, AllocError>
    ensures { IfOk result (λ apart. apart
        ≡ list_all (λ e. plain.names_apart schema.now e (names_alone schema.now (table_of b.now)))
        (bulks.expressions_in b.now)) }
{
    let mut names = Vec::new(alloc);
    names.push(table_name(alloc, schema, table_in(b))?)?;
    expressions_apart(alloc, schema, names.as_slice(), b)
}
