//! What stands in an expression.

ghost use Rattle.std.specs.Prelude.{◌≡◌, ◌++◌, map, OnOk};
ghost use Rattle.sql_semantics.specs.Rows as spec;

use expr_types::Expr;
use sqlite_items::Items;
use std::alloc::AllocError;

/// Appends the numbers of the tables of each `exists`, in reading order. The only error is that memory ran out.
#[tactic(auto, unfolding(sql_semantics::specs::Rows::exists_tables), using(crate::proofs::Surveys::all_named))]
#[cycle(named)]
pub fn named(e: &Expr, found: &mut Vec<u32>) -> Result<(), AllocError>
    ensures { OnOk result (found.new.items ≡ found.old.items ++ spec.exists_tables e.now) }
{
    match e {
        Expr::Column(_, _) | Expr::Lit(_) | Expr::CountAll => Ok(()),
        Expr::IsNull(_, a) | Expr::Not(a) | Expr::Neg(a) | Expr::InList(_, a, _) => {
            named(a.get(), found)
        }
        Expr::Compare(_, a, b)
        | Expr::Arith(_, a, b)
        | Expr::Concat(a, b)
        | Expr::Like(_, a, b)
        | Expr::Ilike(_, a, b)
        | Expr::Distinct(_, a, b) => {
            named(a.get(), found)?;
            named(b.get(), found)
        }
        Expr::Between(_, a, low, high) => {
            named(a.get(), found)?;
            named(low.get(), found)?;
            named(high.get(), found)
        }
        Expr::And(parts) | Expr::Or(parts) | Expr::Call(_, parts) => named_all(parts, found),
        Expr::Exists(_, origin, condition) => {
            found.push(origin.table.0)?;
            named(condition.get(), found)
        }
    }
}

#[cycle(named)]
pub(crate) fn named_all(parts: &Items<Expr>, found: &mut Vec<u32>) -> Result<(), AllocError>
    ensures { OnOk result (found.new.items
        ≡ found.old.items ++ spec.flat (map spec.exists_tables parts.now)) }
{
    for part in parts.as_slice() {
        named(part, found)?;
    }
    Ok(())
}
