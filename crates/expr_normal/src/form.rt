//! The normal form.

ghost use Rattle.std.specs.Prelude.{◌≡◌, map, reverse, IfOk};
ghost use Rattle.expr_types.specs.Normal as spec;
ghost use Rattle.expr_types.specs.declared.expr.Expr.TheVariants as expr;

use crate::level::{and_list, called, liked, negated, or_list};
use base_core::both;
use expr_types::Expr;
use sqlite_items::{Boxed, Items};
use std::alloc::{AllocError, Global};

#[cycle(forms)]
#[tactic(auto, unfolding(expr_types::specs::Normal::normal))]
fn form(alloc: Global, e: Expr) -> Result<Expr, AllocError>
    ensures { IfOk result (λ n. n ≡ spec.normal e) }
{
    match e {
        leaf @ (Expr::Column(_, _) | Expr::CountAll) => Ok(leaf),
        Expr::Lit(value) => Ok(Expr::Lit(value)),
        Expr::Compare(op, a, b) => {
            let (a, b) = both(boxed(alloc, a), boxed(alloc, b))?;
            Ok(Expr::Compare(op, a, b))
        }
        Expr::IsNull(negated, a) => Ok(Expr::IsNull(negated, boxed(alloc, a)?)),
        Expr::And(parts) => Ok(Expr::And(and_list(alloc, reversed(alloc, parts)?)?)),
        Expr::Or(parts) => Ok(Expr::Or(or_list(alloc, reversed(alloc, parts)?)?)),
        Expr::Not(a) => negated(alloc, form(alloc, a.into_inner())?),
        Expr::Arith(op, a, b) => {
            let (a, b) = both(boxed(alloc, a), boxed(alloc, b))?;
            Ok(Expr::Arith(op, a, b))
        }
        Expr::Neg(a) => Ok(Expr::Neg(boxed(alloc, a)?)),
        Expr::Concat(a, b) => {
            let (a, b) = both(boxed(alloc, a), boxed(alloc, b))?;
            Ok(Expr::Concat(a, b))
        }
        Expr::Like(negated, a, b) => {
            let (a, b) = both(boxed(alloc, a), boxed(alloc, b))?;
            liked(alloc, negated, a, b)
        }
        Expr::Ilike(negated, a, b) => {
            let (a, b) = both(boxed(alloc, a), boxed(alloc, b))?;
            Ok(Expr::Ilike(negated, a, b))
        }
        Expr::InList(negated, a, values) => Ok(Expr::InList(negated, boxed(alloc, a)?, values)),
        Expr::Between(negated, a, low, high) => {
            let (a, (low, high)) = both(
                boxed(alloc, a),
                both(boxed(alloc, low), boxed(alloc, high)),
            )?;
            Ok(Expr::Between(negated, a, low, high))
        }
        Expr::Distinct(negated, a, b) => {
            let (a, b) = both(boxed(alloc, a), boxed(alloc, b))?;
            Ok(Expr::Distinct(negated, a, b))
        }
        Expr::Call(function, operands) => called(alloc, function, reversed(alloc, operands)?),
        Expr::Exists(negated, origin, condition) => {
            Ok(Expr::Exists(negated, origin, boxed(alloc, condition)?))
        }
    }
}

#[cycle(forms)]
fn boxed(alloc: Global, a: Boxed<Expr>) -> Result<Boxed<Expr>, AllocError>
    ensures { IfOk result (λ n. n ≡ spec.normal a) }
{
    Boxed::new(alloc, form(alloc, a.into_inner())?)
}

// The normal forms of the operands, in reverse order.
#[cycle(forms)]
#[tactic(auto, using(crate::proofs::Reversed::from_the_end))]
fn reversed(alloc: Global, operands: Items<Expr>) -> Result<Items<Expr>, AllocError>
    ensures { IfOk result (λ back. back ≡ reverse (map spec.normal operands)) }
{
    let mut operands = operands;
    let mut back = Items::new(alloc);
    while let Some(e) = operands.pop() {
        back.push(form(alloc, e)?)?;
    }
    Ok(back)
}

/// The normal form: `not` over a comparison, a null test, `like`, `ilike`, `in`, `between`, `is distinct from` or
/// `exists` becomes the opposite operator, `not not x` is x, an `and` in an `and` and an `or` in an `or` become one
/// list, and `lower(a) like lower(b)` becomes `a ilike b`.
#[tactic(auto, using(crate::proofs::Fixed::normal_again))]
pub fn normal(alloc: Global, e: Expr) -> Result<Expr, AllocError>
    ensures form { IfOk result (λ n. n ≡ spec.normal e) }
    // The normal form of a normal form is itself.
    ensures fixed { IfOk result (λ n. spec.normal n ≡ n) }
{
    form(alloc, e)
}

/// The normal form of `not e`.
#[tactic(auto, using(crate::proofs::Negates::normal_of_not, crate::proofs::Negates::negated_again))]
pub fn negate(alloc: Global, e: Expr) -> Result<Expr, AllocError>
    ensures form { IfOk result (λ n. n ≡ spec.normal (expr.Not e)) }
    ensures fixed { IfOk result (λ n. spec.normal n ≡ n) }
{
    negated(alloc, form(alloc, e)?)
}
