//! Selects as SQLite takes them.

ghost use Rattle.std.specs.Prelude.{◌<◌, length, IsTrue};

use crate::varying::reads_rows;
use base_core::{ColumnNo, ListOf, Refusal, Value};
use expr_types::{CopiedIn, Expr, ExprList, Select, Statement};
use sqlite_database::Ending;
use sqlite_items::{Boxed, Items};
use std::alloc::{AllocError, Global};
use std::mem;

/// Gives a select a number for its item where it has none, since SQLite wants one; and an aggregate behind its items where it has a
/// condition on groups and names no groups, since SQLite makes the one group of all rows of it alone.
fn give_items(select: &mut Select) -> Result<(), Refusal> {
    if select.items.is_empty() {
        select.items.push((Expr::Lit(Value::Int(1)), None))?;
    }
    if select.having.is_some() && select.groups.is_empty() {
        select.items.push((Expr::CountAll, None))?;
    }
    Ok(())
}

/// Whether the first column of the first source is NULL, or is not.
fn first_column_is_null(alloc: Global, negated: bool) -> Result<Expr, AllocError> {
    let column = Boxed::new(alloc, Expr::Column(0, ColumnNo(0)))?;
    Ok(Expr::IsNull(negated, column))
}

/// A condition that is false in every row, though a column stands in it.
fn never(alloc: Global) -> Result<Expr, AllocError> {
    let mut parts = Items::new(alloc);
    parts.push(first_column_is_null(alloc, false)?)?;
    parts.push(first_column_is_null(alloc, true)?)?;
    Ok(Expr::And(parts))
}

/// Whether a group expression stands at a place, and is the same in all rows.
fn is_constant(groups: &ExprList, place: usize) -> bool
    ensures { IsTrue result → place < length groups.now }
{
    match groups.get(place) {
        Some(group) => !reads_rows(group),
        None => false,
    }
}

/// Puts another expression that is the same in all rows, in which a column stands, in the place of each group expression that is the
/// same in all rows: SQLite takes no constant to group by.
fn give_groups(alloc: Global, select: &mut Select) -> Result<(), AllocError> {
    for place in 0..select.groups.len() {
        if is_constant(&select.groups, place) {
            let condition = never(alloc)?;
            select.groups.set(place, condition);
        }
    }
    Ok(())
}

/// Takes out what orders nothing, since it is the same in all rows and groups: SQLite takes no constant to order by.
fn drop_order(alloc: Global, select: &mut Select) {
    let mut order = mem::replace(&mut select.order, ListOf::new(alloc)).into_vec();
    order.retain(|key| reads_rows(&key.0));
    select.order = ListOf::from_vec(order);
}

/// Changes a select into one of the same rows that SQLite takes.
fn fit(alloc: Global, statement: &mut Statement) -> Result<(), Refusal> {
    if let Statement::Select(select) = statement {
        give_items(select)?;
        give_groups(alloc, select)?;
        drop_order(alloc, select);
    }
    Ok(())
}

/// The select as SQLite takes it: its items come first among those that are sent.
pub fn statement_of(alloc: Global, select: &Select) -> Result<Box<Statement>, Ending> {
    let copy = Statement::Select(select.copied_in(alloc)?);
    let mut statement = Box::new(alloc, copy)?;
    fit(alloc, &mut statement)?;
    Ok(statement)
}
