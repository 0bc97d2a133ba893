//! Where aggregates stand.

ghost use Rattle.std.specs.Prelude.{◌≡◌, map};
ghost use Rattle.std.specs.List.{list_any};
ghost use Rattle.expr_types.specs.Level as spec;

use expr_types::Expr;

/// Whether an aggregate stands in the expression. SQL allows none in `where`, `on`, `group by`, a bulk statement or
/// another aggregate.
#[tactic(auto, unfolding(expr_types::specs::Level::has_aggregate), using(crate::proofs::Aggregates::of_lists))]
#[cycle(aggregates)]
pub fn has_aggregate(e: &Expr) -> bool
    ensures { result ≡ spec.has_aggregate e.now }
{
    match e {
        Expr::Column(_, _) | Expr::Lit(_) => false,
        Expr::CountAll => true,
        Expr::IsNull(_, a)
        | Expr::Not(a)
        | Expr::Neg(a)
        | Expr::InList(_, a, _)
        | Expr::Exists(_, _, a) => { has_aggregate(a.get()) }
        Expr::Compare(_, a, b) | Expr::Distinct(_, a, b) => has_aggregate(a.get())
            || has_aggregate(b.get()),
        Expr::Arith(_, a, b) => has_aggregate(a.get()) || has_aggregate(b.get()),
        Expr::Concat(a, b) => has_aggregate(a.get()) || has_aggregate(b.get()),
        Expr::Like(_, a, b) | Expr::Ilike(_, a, b) => has_aggregate(a.get())
            || has_aggregate(b.get()),
        Expr::Between(_, a, low, high) => {
            has_aggregate(a.get()) || has_aggregate(low.get()) || has_aggregate(high.get())
        }
        Expr::And(parts) => some_aggregate(parts.as_slice()),
        Expr::Or(parts) => some_aggregate(parts.as_slice()),
        Expr::Call(function, operands) => function.is_aggregate()
            || some_aggregate(operands.as_slice()),
    }
}

/// Whether an aggregate stands in one of the expressions.
#[cycle(aggregates)]
pub fn some_aggregate(es: &[Expr]) -> bool
    ensures { result ≡ list_any (λ has. has) (map spec.has_aggregate es.now) }
{
    for e in es {
        if has_aggregate(e) {
            return true;
        }
    }
    false
}
