//! Where lists are full, and where columns and aggregates stand.

ghost use Rattle.std.specs.Prelude.{◌≡◌, ◌<◌, ◌&&◌, map, not};
ghost use Rattle.std.specs.List.{list_all};
ghost use Rattle.sql_semantics.specs.Plain as spec;
ghost use Rattle.expr_scopes.specs.Scopes as scopes;

use crate::sameness::same;
use expr_types::Expr;
use expr_typing::{has_aggregate, some_aggregate};

/// Whether every `and` and `or` has at least two parts.
#[tactic(auto, unfolding(sql_semantics::specs::Plain::has_full_lists), using(crate::proofs::Levels::full_lists))]
#[cycle(full)]
pub fn has_full_lists(e: &Expr) -> bool
    ensures { result ≡ spec.has_full_lists e.now }
{
    match e {
        Expr::Column(_, _) | Expr::Lit(_) | Expr::CountAll => true,
        Expr::IsNull(_, a)
        | Expr::Not(a)
        | Expr::Neg(a)
        | Expr::InList(_, a, _)
        | Expr::Exists(_, _, a) => has_full_lists(a.get()),
        Expr::Compare(_, a, b) | Expr::Distinct(_, a, b) => has_full_lists(a.get())
            && has_full_lists(b.get()),
        Expr::Arith(_, a, b) => has_full_lists(a.get()) && has_full_lists(b.get()),
        Expr::Concat(a, b) => has_full_lists(a.get()) && has_full_lists(b.get()),
        Expr::Like(_, a, b) | Expr::Ilike(_, a, b) => has_full_lists(a.get())
            && has_full_lists(b.get()),
        Expr::Between(_, a, low, high) => {
            has_full_lists(a.get()) && has_full_lists(low.get()) && has_full_lists(high.get())
        }
        Expr::And(parts) | Expr::Or(parts) => parts.len() > 1 && all_full(parts.as_slice()),
        Expr::Call(_, operands) => all_full(operands.as_slice()),
    }
}

#[cycle(full)]
fn all_full(es: &[Expr]) -> bool
    ensures { result ≡ list_all (λ has. has) (map spec.has_full_lists es.now) }
{
    for e in es {
        if !has_full_lists(e) {
            return false;
        }
    }
    true
}

/// Whether the expression is one of the group expressions.
fn occurs_in(groups: &[Expr], e: &Expr) -> bool
    ensures { result ≡ scopes.occurs_in groups.now e.now }
{
    groups.iter().any(|group| same(group, e))
}

/// How a query makes groups: whether it does, its group expressions, and the number of its own sources.
#[derive(Clone, Copy)]
pub struct Grouping<'a> {
    pub grouped: bool,
    pub groups: &'a [Expr],
    pub own: usize,
}

/// Whether aggregates stand in no other one and in no `exists`, and in a grouped query the columns of its own sources in
/// aggregates and group expressions alone.
#[tactic(auto, using(crate::proofs::Groups::settled_at))]
#[cycle(settling)]
pub fn settled(query: &Grouping<'_>, e: &Expr) -> bool
    ensures { result ≡ spec.is_well_grouped query.now.grouped query.now.groups.now query.now.own e.now }
{
    if query.grouped && occurs_in(query.groups, e) {
        return true;
    }
    settled_inside(query, e)
}

#[tactic(auto, using(crate::proofs::Groups::settled_lists))]
#[cycle(settling)]
fn settled_inside(query: &Grouping<'_>, e: &Expr) -> bool
    ensures { result
        ≡ scopes.settled_inside query.now.grouped query.now.groups.now query.now.own e.now }
{
    match e {
        Expr::Column(source, _) => !(query.grouped && (*source as usize) < query.own),
        Expr::Lit(_) | Expr::CountAll => true,
        Expr::IsNull(_, a) | Expr::Not(a) | Expr::Neg(a) | Expr::InList(_, a, _) => {
            settled(query, a.get())
        }
        Expr::Exists(_, _, a) => { !has_aggregate(a.get()) && settled(query, a.get()) }
        Expr::Compare(_, a, b) | Expr::Distinct(_, a, b) => {
            settled(query, a.get()) && settled(query, b.get())
        }
        Expr::Arith(_, a, b) => { settled(query, a.get()) && settled(query, b.get()) }
        Expr::Concat(a, b) => { settled(query, a.get()) && settled(query, b.get()) }
        Expr::Like(_, a, b) | Expr::Ilike(_, a, b) => {
            settled(query, a.get()) && settled(query, b.get())
        }
        Expr::Between(_, a, low, high) => {
            settled(query, a.get()) && settled(query, low.get()) && settled(query, high.get())
        }
        Expr::And(parts) | Expr::Or(parts) => all_settled(query, parts.as_slice()),
        Expr::Call(function, operands) => {
            if function.is_aggregate() {
                return !some_aggregate(operands.as_slice());
            }
            all_settled(query, operands.as_slice())
        }
    }
}

#[cycle(settling)]
fn all_settled(query: &Grouping<'_>, es: &[Expr]) -> bool
    ensures { result
        ≡ list_all (spec.is_well_grouped query.now.grouped query.now.groups.now query.now.own) es.now }
{
    for e in es {
        if !settled(query, e) {
            return false;
        }
    }
    true
}
