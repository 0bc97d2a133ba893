//! Conditions over columns of sources. Each is a list of expressions of which all hold; the only refusal is `Memory`.

ghost use Rattle.std.specs.Prelude.{◌≡◌, IfOk, map};
ghost use Rattle.std.specs.List.{flat_map};
ghost use Rattle.load_columns.specs.Conditions as spec;

use crate::placing::SourceColumn;
use base_core::{Copied, Key, ListOf, RowValues, Value};
use expr_types::{CompareOp, Expr, ExprList};
use sqlite_items::{Boxed, Items};
use std::alloc::{AllocError, Global};

fn column_of(column: SourceColumn) -> Expr
    ensures { result ≡ spec.column_of column }
{
    Expr::Column(column.source, column.column)
}

/// Two columns are equal.
fn equal_column(alloc: Global, one: SourceColumn, other: SourceColumn) -> Result<Expr, AllocError>
    ensures { IfOk result (λ e. e ≡ spec.equal_column one other) }
{
    let left = Boxed::new(alloc, column_of(one))?;
    let right = Boxed::new(alloc, column_of(other))?;
    Ok(Expr::Compare(CompareOp::Equal, left, right))
}

/// A column holds a value.
fn has_value(alloc: Global, column: SourceColumn, value: &Value) -> Result<Expr, AllocError>
    ensures { IfOk result (λ e. e ≡ spec.has_value column value.now) }
{
    let left = Boxed::new(alloc, column_of(column))?;
    let right = Boxed::new(alloc, Expr::Lit(value.copied()?))?;
    Ok(Expr::Compare(CompareOp::Equal, left, right))
}

/// No condition, the one, or all of them.
pub fn all_of(mut conditions: ExprList) -> Option<Expr>
    ensures { result ≡ spec.all_of conditions }
{
    if conditions.len() < 2 {
        return conditions.pop();
    }
    Some(Expr::And(conditions))
}

/// The one, or all of them.
pub fn conjoined(alloc: Global, conditions: ExprList) -> Expr
    ensures { result ≡ spec.conjoined conditions }
{
    match all_of(conditions) {
        Some(e) => e,
        None => Expr::And(Items::new(alloc)),
    }
}

/// Columns equal others, one by one.
#[tactic(auto, using(crate::proofs::Steps::pair_steps))]
pub fn equal_columns(
    alloc: Global,
    columns: &[SourceColumn],
    others: &[SourceColumn],
) -> Result<ExprList, AllocError>
    ensures { IfOk result (λ es. es ≡ spec.equal_columns columns.now others.now) }
{
    let mut out = Items::new(alloc);
    for (place, column) in columns.iter().enumerate() {
        if place >= others.len() {
            return Ok(out);
        }
        out.push(equal_column(alloc, *column, others[place])?)?;
    }
    Ok(out)
}

/// Columns hold a key.
#[tactic(auto, using(crate::proofs::Steps::pair_steps))]
pub fn has_values(
    alloc: Global,
    columns: &[SourceColumn],
    values: &[Value],
) -> Result<ExprList, AllocError>
    ensures { IfOk result (λ es. es ≡ spec.has_values columns.now values.now) }
{
    let mut out = Items::new(alloc);
    for (place, column) in columns.iter().enumerate() {
        if place >= values.len() {
            return Ok(out);
        }
        out.push(has_value(alloc, *column, &values[place])?)?;
    }
    Ok(out)
}

fn first_value(key: &Key) -> Result<Value, AllocError>
    ensures { IfOk result (λ value. value ≡ spec.first_value key.now) }
{
    match key.get(0) {
        Some(value) => Ok(value.copied()?),
        None => Ok(Value::Null),
    }
}

/// The first value of each key.
fn first_values(alloc: Global, keys: &[Key]) -> Result<RowValues, AllocError>
    ensures { IfOk result (λ values. values ≡ map spec.first_value keys.now) }
{
    let mut values = ListOf::new(alloc);
    for key in keys {
        values.push(first_value(key)?)?;
    }
    Ok(values)
}

/// A column is in a list.
pub fn is_in(alloc: Global, column: SourceColumn, values: RowValues) -> Result<Expr, AllocError>
    ensures { IfOk result (λ e. e ≡ spec.is_in column values) }
{
    Ok(Expr::InList(false, Boxed::new(alloc, column_of(column))?, values))
}

/// Each column holds the first value of one of the keys.
fn hold_first(alloc: Global, columns: &[SourceColumn], keys: &[Key]) -> Result<ExprList, AllocError>
    ensures { IfOk result (λ es. es ≡ map (spec.holds_first keys.now) columns.now) }
{
    let mut out = Items::new(alloc);
    for column in columns {
        let values = first_values(alloc, keys)?;
        out.push(is_in(alloc, *column, values)?)?;
    }
    Ok(out)
}

/// Columns hold each of the keys.
#[tactic(auto, using(class_layouts::proofs::Steps::steps))]
fn have_keys(alloc: Global, columns: &[SourceColumn], keys: &[Key]) -> Result<ExprList, AllocError>
    ensures { IfOk result
        (λ es. es ≡ flat_map (spec.has_values columns.now) keys.now) }
{
    let mut out = Items::new(alloc);
    for key in keys {
        out.append(has_values(alloc, columns, key.as_slice())?)?;
    }
    Ok(out)
}

/// For each key the condition that columns hold it.
fn key_conditions(
    alloc: Global,
    columns: &[SourceColumn],
    keys: &[Key],
) -> Result<ExprList, AllocError>
    ensures { IfOk result (λ es. es ≡ map (spec.has_key columns.now) keys.now) }
{
    let mut out = Items::new(alloc);
    for key in keys {
        let parts = has_values(alloc, columns, key.as_slice())?;
        out.push(Expr::And(parts))?;
    }
    Ok(out)
}

/// Columns hold one of several keys.
fn has_some_key(
    alloc: Global,
    columns: &[SourceColumn],
    keys: &[Key],
) -> Result<ExprList, AllocError>
    ensures { IfOk result (λ es. es ≡ spec.has_some_key columns.now keys.now) }
{
    let parts = key_conditions(alloc, columns, keys)?;
    let mut out = Items::new(alloc);
    out.push(Expr::Or(parts))?;
    Ok(out)
}

/// Columns hold one of these keys.
pub fn has_one_of(
    alloc: Global,
    columns: &[SourceColumn],
    keys: &[Key],
) -> Result<ExprList, AllocError>
    ensures { IfOk result (λ es. es ≡ spec.has_one_of columns.now keys.now) }
{
    if columns.len() == 1 {
        return hold_first(alloc, columns, keys);
    }
    if keys.len() == 1 {
        return have_keys(alloc, columns, keys);
    }
    has_some_key(alloc, columns, keys)
}
