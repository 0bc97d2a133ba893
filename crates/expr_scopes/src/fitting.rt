//! Whether every level of an expression stands in its scope.

ghost use Rattle.std.specs.Prelude.{◌≡◌, ◌++◌, ◌∷◌, [], map, IfOk};
ghost use Rattle.std.specs.List.{list_all};
ghost use Rattle.sql_semantics.specs.Plain as spec;

use crate::column::{all_given, column_in, is_given, is_known};
use base_core::TableId;
use expr_types::{Expr, Func};
use schema_core::Schema;
use sqlite_items::Boxed;
use std::alloc::{AllocError, Global};

/// Whether the function has its number of operands.
fn takes(function: Func, count: usize) -> bool
    ensures { result ≡ spec.takes function count }
{
    match function {
        Func::Coalesce => count > 0,
        _ => count == 1,
    }
}

/// The scope with one more source, the innermost.
fn entered(alloc: Global, scope: &[TableId], table: TableId) -> Result<Vec<TableId>, AllocError>
    ensures { IfOk result (λ inner. inner.items ≡ scope.now ++ table ∷ []) }
{
    let mut inner = Vec::from_slice(alloc, scope)?;
    inner.push(table)?;
    Ok(inner)
}

/// Whether every level stands in its scope: its column is there, its function has its operands, its source is
/// declared, and no literal is NULL. The only error is that memory ran out.
#[tactic(auto, unfolding(sql_semantics::specs::Plain::fits), using(crate::proofs::Levels::fitting_lists))]
#[cycle(fitting)]
pub fn fits(alloc: Global, schema: &Schema, scope: &[TableId], e: &Expr) -> Result<bool, AllocError>
    ensures { IfOk result (λ fitting. fitting ≡ spec.fits schema.now e.now scope.now) }
{
    match e {
        Expr::Column(source, column) => { Ok(column_in(schema, scope, *source, *column).is_some()) }
        Expr::Lit(value) => Ok(is_given(value)),
        Expr::CountAll => Ok(true),
        Expr::IsNull(_, a) | Expr::Not(a) | Expr::Neg(a) => fits(alloc, schema, scope, a.get()),
        Expr::InList(_, a, values) => {
            if !all_given(values.as_slice()) {
                return Ok(false);
            }
            fits(alloc, schema, scope, a.get())
        }
        Expr::Compare(_, a, b) | Expr::Distinct(_, a, b) => both_fit(alloc, schema, scope, a, b),
        Expr::Arith(_, a, b) => both_fit(alloc, schema, scope, a, b),
        Expr::Concat(a, b) => both_fit(alloc, schema, scope, a, b),
        Expr::Like(_, a, b) | Expr::Ilike(_, a, b) => both_fit(alloc, schema, scope, a, b),
        Expr::Between(_, a, low, high) => {
            if !fits(alloc, schema, scope, a.get())? {
                return Ok(false);
            }
            both_fit(alloc, schema, scope, low, high)
        }
        Expr::And(parts) | Expr::Or(parts) => all_fit(alloc, schema, scope, parts.as_slice()),
        Expr::Call(function, operands) => {
            if !takes(*function, operands.len()) {
                return Ok(false);
            }
            all_fit(alloc, schema, scope, operands.as_slice())
        }
        Expr::Exists(_, origin, condition) => {
            if !is_known(schema, origin.table) {
                return Ok(false);
            }
            let inner = entered(alloc, scope, origin.table)?;
            fits(alloc, schema, inner.as_slice(), condition.get())
        }
    }
}

#[cycle(fitting)]
fn both_fit(
    alloc: Global,
    schema: &Schema,
    scope: &[TableId],
    a: &Boxed<Expr>,
    b: &Boxed<Expr>,
) -> Result<bool, AllocError>
    ensures { IfOk result (λ fitting. fitting ≡ list_all (λ holds. holds scope.now)
        (spec.fits schema.now a.now ∷ spec.fits schema.now b.now ∷ [])) }
{
    if !fits(alloc, schema, scope, a.get())? {
        return Ok(false);
    }
    fits(alloc, schema, scope, b.get())
}

#[cycle(fitting)]
fn all_fit(
    alloc: Global,
    schema: &Schema,
    scope: &[TableId],
    es: &[Expr],
) -> Result<bool, AllocError>
    ensures { IfOk result (λ fitting. fitting
        ≡ list_all (λ holds. holds scope.now) (map (spec.fits schema.now) es.now)) }
{
    for e in es {
        if !fits(alloc, schema, scope, e)? {
            return Ok(false);
        }
    }
    Ok(true)
}
