//! One level of the normal form, over operands that are in it.

ghost use Rattle.std.specs.Prelude.{◌≡◌, ◌++◌, reverse, is_some, IfOk, OnOk};
ghost use Rattle.std.specs.Option.{unwrap_or};
ghost use Rattle.expr_types.specs.Normal as spec;
ghost use Rattle.expr_types.specs.declared.expr.Expr.TheVariants as expr;

use base_core::both;
use expr_types::{Expr, Func};
use query_steps::opposite;
use sqlite_items::{Boxed, Items};
use std::alloc::{AllocError, Global};

/// The opposite of an expression.
#[tactic(auto, unfolding(expr_types::specs::Normal::negation_of))]
pub(crate) fn negated(alloc: Global, e: Expr) -> Result<Expr, AllocError>
    ensures { IfOk result (λ n. n ≡ spec.negation_of e) }
{
    match e {
        Expr::Compare(op, a, b) => Ok(Expr::Compare(opposite(op), a, b)),
        Expr::IsNull(negated, a) => Ok(Expr::IsNull(!negated, a)),
        Expr::Not(a) => Ok(a.into_inner()),
        Expr::Like(negated, a, b) => Ok(Expr::Like(!negated, a, b)),
        Expr::Ilike(negated, a, b) => Ok(Expr::Ilike(!negated, a, b)),
        Expr::InList(negated, a, values) => Ok(Expr::InList(!negated, a, values)),
        Expr::Between(negated, a, low, high) => Ok(Expr::Between(!negated, a, low, high)),
        Expr::Distinct(negated, a, b) => Ok(Expr::Distinct(!negated, a, b)),
        Expr::Exists(negated, origin, condition) => Ok(Expr::Exists(!negated, origin, condition)),
        other => Ok(Expr::Not(Boxed::new(alloc, other)?)),
    }
}

/// The parts that an operand of `and` gives go to the end.
#[tactic(auto, unfolding(expr_types::specs::Normal::and_parts))]
fn push_and(out: &mut Items<Expr>, e: Expr) -> Result<(), AllocError>
    ensures { OnOk result (out.new ≡ out.old ++ spec.and_parts e) }
{
    match e {
        Expr::And(parts) => out.append(parts),
        other => Ok(out.push(other)?),
    }
}

/// The parts that an operand of `or` gives go to the end.
#[tactic(auto, unfolding(expr_types::specs::Normal::or_parts))]
fn push_or(out: &mut Items<Expr>, e: Expr) -> Result<(), AllocError>
    ensures { OnOk result (out.new ≡ out.old ++ spec.or_parts e) }
{
    match e {
        Expr::Or(parts) => out.append(parts),
        other => Ok(out.push(other)?),
    }
}

/// One list of the parts of the operands of `and`, which stand in reverse order.
#[tactic(auto, using(crate::proofs::Reversed::from_the_end))]
pub(crate) fn and_list(alloc: Global, operands: Items<Expr>) -> Result<Items<Expr>, AllocError>
    ensures { IfOk result (λ parts. parts ≡ spec.joined_parts spec.and_parts (reverse operands)) }
{
    let mut operands = operands;
    let mut out = Items::new(alloc);
    while let Some(e) = operands.pop() {
        push_and(&mut out, e)?;
    }
    Ok(out)
}

/// One list of the parts of the operands of `or`, which stand in reverse order.
#[tactic(auto, using(crate::proofs::Reversed::from_the_end))]
pub(crate) fn or_list(alloc: Global, operands: Items<Expr>) -> Result<Items<Expr>, AllocError>
    ensures { IfOk result (λ parts. parts ≡ spec.joined_parts spec.or_parts (reverse operands)) }
{
    let mut operands = operands;
    let mut out = Items::new(alloc);
    while let Some(e) = operands.pop() {
        push_or(&mut out, e)?;
    }
    Ok(out)
}

/// A function of the operands, which stand in reverse order.
pub(crate) fn called(
    alloc: Global,
    function: Func,
    operands: Items<Expr>,
) -> Result<Expr, AllocError>
    ensures { IfOk result (λ n. n ≡ expr.Call function (reverse operands)) }
{
    Ok(Expr::Call(function, turned(alloc, operands)?))
}

/// The items in reverse order.
#[tactic(auto, using(crate::proofs::Reversed::from_the_end))]
fn turned(alloc: Global, items: Items<Expr>) -> Result<Items<Expr>, AllocError>
    ensures { IfOk result (λ back. back ≡ reverse items) }
{
    let mut items = items;
    let mut out = Items::new(alloc);
    while let Some(e) = items.pop() {
        out.push(e)?;
    }
    Ok(out)
}

/// Whether the expression is a text that is lowered.
#[tactic(auto, unfolding(expr_types::specs::Normal::lower_argument))]
fn is_lowered(e: &Expr) -> bool
    ensures { result ≡ is_some (spec.lower_argument e.now) }
{
    match e {
        Expr::Call(Func::Lower, arguments) => arguments.len() == 1,
        _ => false,
    }
}

/// The text that the expression lowers, or the expression itself.
#[tactic(auto, unfolding(expr_types::specs::Normal::lower_argument))]
fn text_in(e: Expr) -> Expr
    ensures { result ≡ unwrap_or (spec.lower_argument e) e }
{
    match e {
        Expr::Call(Func::Lower, mut arguments) => {
            if arguments.len() == 1 {
                arguments.remove(0)
            } else {
                Expr::Call(Func::Lower, arguments)
            }
        }
        other => other,
    }
}

/// `a like b`.
#[tactic(auto, unfolding(expr_types::specs::Normal::normal_like))]
pub(crate) fn liked(
    alloc: Global,
    negated: bool,
    a: Boxed<Expr>,
    b: Boxed<Expr>,
) -> Result<Expr, AllocError>
    ensures { IfOk result (λ n. n ≡ spec.normal_like negated a b) }
{
    if is_lowered(a.get()) && is_lowered(b.get()) {
        let (a, b) = both(
            Boxed::new(alloc, text_in(a.into_inner())),
            Boxed::new(alloc, text_in(b.into_inner())),
        )?;
        Ok(Expr::Ilike(negated, a, b))
    } else {
        Ok(Expr::Like(negated, a, b))
    }
}
