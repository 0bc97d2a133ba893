//! Expressions whose value may differ from row to row, or from group to group.

ghost use Rattle.std.specs.Prelude.{◌≡◌, map};
ghost use Rattle.std.specs.List.{list_any};
ghost use Rattle.sqlite_selects.specs.Varying as spec;

use expr_types::Expr;

/// Whether a column, an aggregate or an `exists` stands in the expression. The value of every other one is the same in all rows and
/// groups.
#[tactic(auto, unfolding(crate::specs::Varying::reads_rows), using(crate::proofs::Reading::read_by_lists))]
#[cycle(reading)]
pub(crate) fn reads_rows(e: &Expr) -> bool
    ensures { result ≡ spec.reads_rows e.now }
{
    match e {
        Expr::Lit(_) => false,
        Expr::Column(_, _) | Expr::CountAll | Expr::Exists(_, _, _) => true,
        Expr::IsNull(_, a) | Expr::Not(a) | Expr::Neg(a) | Expr::InList(_, a, _) => {
            reads_rows(a.get())
        }
        Expr::Compare(_, a, b) | Expr::Distinct(_, a, b) => reads_rows(a.get())
            || reads_rows(b.get()),
        Expr::Arith(_, a, b) => reads_rows(a.get()) || reads_rows(b.get()),
        Expr::Concat(a, b) => reads_rows(a.get()) || reads_rows(b.get()),
        Expr::Like(_, a, b) | Expr::Ilike(_, a, b) => reads_rows(a.get()) || reads_rows(b.get()),
        Expr::Between(_, a, low, high) => {
            reads_rows(a.get()) || reads_rows(low.get()) || reads_rows(high.get())
        }
        Expr::And(parts) | Expr::Or(parts) => some_reads(parts.as_slice()),
        Expr::Call(function, operands) => function.is_aggregate()
            || some_reads(operands.as_slice()),
    }
}

/// Whether one of the expressions reads rows.
#[cycle(reading)]
fn some_reads(es: &[Expr]) -> bool
    ensures { result ≡ list_any (λ reads. reads) (map spec.reads_rows es.now) }
{
    for e in es {
        if reads_rows(e) {
            return true;
        }
    }
    false
}
