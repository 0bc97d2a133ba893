//! Tables that were not created.

ghost use Rattle.std.specs.Prelude.{◌≡◌, ◌∷◌, ◌++◌, map, Ok, OnOk, IfOk};
ghost use Rattle.base_core.specs.Answers.{Gives};
ghost use Rattle.table_rows.specs.Lent.{seen};
ghost use Rattle.sql_semantics.specs.Rows as spec;

use crate::survey::{named, named_all};
use base_core::{ListOf, Name, Refusal, TableId};
use expr_types::{Expr, Joined, Select};
use std::alloc::{AllocError, Global};
use table_rows::LentTables;

/// The first table of the select's text that was not created is refused.
pub fn all_created(alloc: Global, tables: LentTables<'_>, select: &Select) -> Result<(), Refusal>
    ensures { Gives (λ x. x) result (spec.require_created (seen tables.entry)
        (spec.tables_of select.now)) }
{
    let named = tables_of(alloc, select)?;
    created(tables, &named)
}

/// The first table of these numbers that is not among the tables is refused.
///
/// # Errors
/// `OperationalError` with that table.
pub fn created(tables: LentTables<'_>, named: &[u32]) -> Result<(), Refusal>
    ensures { result ≡ spec.require_created (seen tables.entry) named.now }
{
    for table in named {
        if !tables.has(TableId(*table)) {
            return Err(Refusal::OperationalError(TableId(*table)));
        }
    }
    Ok(())
}

#[tactic(auto, using(crate::proofs::Surveys::all_named))]
fn tables_of(alloc: Global, select: &Select) -> Result<Vec<u32>, AllocError>
    ensures { IfOk result (λ v. v.items ≡ spec.tables_of select.now) }
{
    let mut found = Vec::new(alloc);
    of_items(&select.items, &mut found)?;
    found.push(select.first.table.0)?;
    of_joins(&select.joins, &mut found)?;
    of_condition(&select.filter, &mut found)?;
    named_all(&select.groups, &mut found)?;
    of_condition(&select.having, &mut found)?;
    of_order(&select.order, &mut found)?;
    Ok(found)
}

#[tactic(auto, using(crate::proofs::Surveys::all_named))]
fn of_items(items: &ListOf<(Expr, Option<Name>)>, found: &mut Vec<u32>) -> Result<(), AllocError>
    ensures { OnOk result (found.new.items
        ≡ found.old.items ++ spec.flat (map (λ i. spec.exists_tables i.0) items.now)) }
{
    for item in items.as_slice() {
        named(&item.0, found)?;
    }
    Ok(())
}

#[tactic(auto, using(crate::proofs::Surveys::all_named))]
fn of_order(keys: &ListOf<(Expr, bool)>, found: &mut Vec<u32>) -> Result<(), AllocError>
    ensures { OnOk result (found.new.items
        ≡ found.old.items ++ spec.flat (map (λ k. spec.exists_tables k.0) keys.now)) }
{
    for key in keys.as_slice() {
        named(&key.0, found)?;
    }
    Ok(())
}

#[tactic(auto, using(crate::proofs::Surveys::all_named))]
fn of_joins(joins: &ListOf<Joined>, found: &mut Vec<u32>) -> Result<(), AllocError>
    ensures { OnOk result (found.new.items
        ≡ found.old.items ++ spec.flat (map (λ j. j.origin.table.0 ∷ spec.exists_tables j.on) joins.now)) }
{
    for join in joins.as_slice() {
        found.push(join.origin.table.0)?;
        named(&join.on, found)?;
    }
    Ok(())
}

#[tactic(auto, using(crate::proofs::Surveys::all_named))]
fn of_condition(condition: &Option<Expr>, found: &mut Vec<u32>) -> Result<(), AllocError>
    ensures { OnOk result (found.new.items ≡ found.old.items ++ spec.named_where condition.now) }
{
    match condition {
        Some(e) => named(e, found),
        None => Ok(()),
    }
}
