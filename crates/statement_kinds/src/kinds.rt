//! Kinds of a statement's operands, in reading order.

ghost use Rattle.std.specs.Prelude.{◌≡◌, ◌∷◌, ◌++◌, [], IfOk};
ghost use Rattle.base_core.specs.declared.value.Kind.TheVariants.{Boolean};
ghost use Rattle.std.specs.List.{flat_map};
ghost use Rattle.sql_semantics.specs.Kinds.{column_kind, kind_or_mismatch};
ghost use Rattle.sql_semantics.specs.Shapes.{scope_of};
ghost use Rattle.script_names.specs.Faults.{TellsFirst, faults_if_given};
ghost use Rattle.statement_kinds.specs.Mismatches as spec;

use crate::faults::both;
use base_core::{ColumnNo, Kind, Refusal, TableId, Value};
use expr_types::{Bulk, Expr, Joined, Select};
use expr_typing::type_of;
use schema_core::{Schema, kind_of_value, same_kind};
use std::alloc::{AllocError, Global};
use std::mem::drop;

/// Whether the expression is well typed.
#[tactic(auto, using(crate::proofs::Firsts::judgements))]
fn judge(alloc: Global, schema: &Schema, scope: &[TableId], e: &Expr) -> Result<(), Refusal>
    ensures { TellsFirst (spec.mismatch schema.now scope.now e.now) result }
{
    type_of(alloc, schema, scope, e)?;
    Ok(())
}

/// Whether a kind is the one that is wanted.
fn judge_kind(wanted: Kind, found: Kind) -> Result<(), Refusal>
    ensures { TellsFirst (spec.fault_of (kind_or_mismatch wanted found)) result }
{
    if same_kind(found, wanted) {
        Ok(())
    } else {
        Err(Refusal::TypeMismatch(wanted, found))
    }
}

/// Whether the expression is of the kind wanted.
#[tactic(auto, using(crate::proofs::Firsts::judgements))]
fn judge_for(
    alloc: Global,
    schema: &Schema,
    scope: &[TableId],
    wanted: Kind,
    e: &Expr,
) -> Result<(), Refusal>
    ensures { TellsFirst (spec.mismatch_for schema.now scope.now wanted e.now) result }
{
    let found = type_of(alloc, schema, scope, e)?;
    judge_kind(wanted, found)
}

/// The same of an expression that may be left out.
fn judge_if_given(
    alloc: Global,
    schema: &Schema,
    scope: &[TableId],
    wanted: Kind,
    e: &Option<Expr>,
) -> Result<(), Refusal>
    ensures { TellsFirst (faults_if_given (spec.mismatch_for schema.now scope.now wanted) e.now)
        result }
{
    match e {
        Some(e) => judge_for(alloc, schema, scope, wanted, e),
        None => Ok(()),
    }
}

/// The condition of each join under the sources up to its own; `first` stands before them.
#[tactic(auto, using(crate::proofs::Firsts::firsts, crate::proofs::Loops::join_steps))]
fn judge_joins(
    alloc: Global,
    schema: &Schema,
    first: TableId,
    joins: &[Joined],
) -> Result<(), Refusal>
    ensures { TellsFirst (spec.join_mismatches schema.now (first ∷ []) joins.now) result }
{
    let mut scope = Vec::new(alloc);
    scope.push(first)?;
    for join in joins {
        scope.push(join.origin.table)?;
        judge_for(alloc, schema, scope.as_slice(), Kind::Boolean, &join.on)?;
    }
    Ok(())
}

/// Expressions that have something beside them, from left to right.
#[tactic(auto, using(crate::proofs::Firsts::firsts))]
fn judge_pairs<B: Drop>(
    alloc: Global,
    schema: &Schema,
    scope: &[TableId],
    pairs: &[(Expr, B)],
) -> Result<(), Refusal>
    ensures { TellsFirst (flat_map (λ pair. spec.mismatch schema.now scope.now pair.0) pairs.now)
        result }
{
    for item in pairs {
        judge(alloc, schema, scope, &item.0)?;
    }
    Ok(())
}

/// Expressions, from left to right.
#[tactic(auto, using(crate::proofs::Firsts::firsts))]
fn judge_groups(
    alloc: Global,
    schema: &Schema,
    scope: &[TableId],
    groups: &[Expr],
) -> Result<(), Refusal>
    ensures { TellsFirst (flat_map (spec.mismatch schema.now scope.now) groups.now) result }
{
    for group in groups {
        judge(alloc, schema, scope, group)?;
    }
    Ok(())
}

/// The tables of the sources.
fn scope_of(alloc: Global, s: &Select) -> Result<Vec<TableId>, AllocError>
    ensures { IfOk result (λ scope. scope.items ≡ scope_of s.now) }
{
    let mut scope = Vec::new(alloc);
    scope.push(s.first.table)?;
    for join in s.joins.as_slice() {
        scope.push(join.origin.table)?;
    }
    Ok(scope)
}

fn judge_under(alloc: Global, schema: &Schema, scope: &[TableId], s: &Select) -> Result<(), Refusal>
    ensures { TellsFirst (spec.mismatches_under schema.now scope.now s.now) result }
{
    // Paired to the left, as the faults stand one behind the other.
    both(
        both(
            both(
                both(
                    both(
                        judge_pairs(alloc, schema, scope, s.items.as_slice()),
                        judge_joins(alloc, schema, s.first.table, s.joins.as_slice()),
                    ),
                    judge_if_given(alloc, schema, scope, Kind::Boolean, &s.filter),
                ),
                judge_groups(alloc, schema, scope, s.groups.as_slice()),
            ),
            judge_if_given(alloc, schema, scope, Kind::Boolean, &s.having),
        ),
        judge_pairs(alloc, schema, scope, s.order.as_slice()),
    )
}

/// `TypeMismatch` of the first operand in reading order that is of another kind than its place wants.
#[tactic(auto, unfolding(crate::specs::Mismatches::mismatches))]
pub fn judge_kinds(alloc: Global, schema: &Schema, s: &Select) -> Result<(), Refusal>
    ensures { TellsFirst (spec.mismatches schema.now s.now) result }
{
    let scope = scope_of(alloc, s)?;
    judge_under(alloc, schema, scope.as_slice(), s)
}

// ---- bulk statements

/// The kind of a column of the table.
#[tactic(auto, unfolding(sql_semantics::specs::Kinds::expression_kind))]
fn kind_at(
    alloc: Global,
    schema: &Schema,
    table: TableId,
    column: ColumnNo,
) -> Result<Kind, AllocError>
    ensures { IfOk result (λ kind. kind ≡ column_kind schema.now (table ∷ []) 0 column) }
{
    let e = Expr::Column(0, column);
    let kind = type_of(alloc, schema, &[table], &e);
    drop(e);
    match kind {
        Ok(kind) => Ok(kind),
        Err(_) => Err(AllocError),
    }
}

/// NULL is for every column, another value for one of its kind.
#[tactic(auto, using(crate::proofs::Firsts::firsts))]
fn judge_value(
    alloc: Global,
    schema: &Schema,
    table: TableId,
    column: ColumnNo,
    value: &Value,
) -> Result<(), Refusal>
    ensures { TellsFirst (spec.value_faults schema.now table column value.now) result }
{
    match kind_of_value(value) {
        Some(found) => judge_kind(kind_at(alloc, schema, table, column)?, found),
        None => Ok(()),
    }
}

#[tactic(auto, using(crate::proofs::Firsts::firsts, crate::proofs::Loops::value_steps))]
fn judge_values(
    alloc: Global,
    schema: &Schema,
    table: TableId,
    columns: &[ColumnNo],
    values: &[Value],
) -> Result<(), Refusal>
    ensures { TellsFirst (spec.values_faults schema.now table columns.now values.now) result }
{
    for (place, column) in columns.iter().enumerate() {
        if place >= values.len() {
            return Ok(());
        }
        judge_value(alloc, schema, table, *column, &values[place])?;
    }
    Ok(())
}

#[tactic(auto, using(crate::proofs::Firsts::firsts))]
fn judge_cell(
    alloc: Global,
    schema: &Schema,
    table: TableId,
    cell: &(ColumnNo, Option<Expr>),
) -> Result<(), Refusal>
    ensures { TellsFirst (spec.cell_mismatch schema.now table cell.now) result }
{
    let wanted = kind_at(alloc, schema, table, cell.0)?;
    judge_if_given(alloc, schema, &[table], wanted, &cell.1)
}

#[tactic(auto, using(crate::proofs::Firsts::firsts))]
fn judge_cells(
    alloc: Global,
    schema: &Schema,
    table: TableId,
    cells: &[(ColumnNo, Option<Expr>)],
) -> Result<(), Refusal>
    ensures { TellsFirst (flat_map (spec.cell_mismatch schema.now table) cells.now) result }
{
    for cell in cells {
        judge_cell(alloc, schema, table, cell)?;
    }
    Ok(())
}

#[tactic(auto, using(crate::proofs::Firsts::firsts))]
fn judge_update(
    alloc: Global,
    schema: &Schema,
    table: TableId,
    cells: &[(ColumnNo, Option<Expr>)],
    filter: &Option<Expr>,
) -> Result<(), Refusal>
    ensures { TellsFirst (flat_map (spec.cell_mismatch schema.now table) cells.now
        ++ faults_if_given (spec.mismatch_for schema.now (table ∷ []) Boolean) filter.now) result }
{
    both(
        judge_cells(alloc, schema, table, cells),
        judge_if_given(alloc, schema, &[table], Kind::Boolean, filter),
    )
}

/// The same of a bulk statement, values included.
pub fn judge_bulk_kinds(alloc: Global, schema: &Schema, b: &Bulk) -> Result<(), Refusal>
    ensures { TellsFirst (spec.bulk_mismatches schema.now b.now) result }
{
    match b {
        Bulk::Insert {
            table,
            columns,
            values,
        } => judge_values(alloc, schema, *table, columns.as_slice(), values.as_slice()),
        Bulk::Update {
            table,
            cells,
            filter,
        } => judge_update(alloc, schema, *table, cells.as_slice(), filter),
        Bulk::Delete { table, filter } => {
            judge_if_given(alloc, schema, &[*table], Kind::Boolean, filter)
        }
    }
}
