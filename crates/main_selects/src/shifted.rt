//! Expressions under more sources. The only error is that memory ran out, or the numbers of sources.

ghost use Rattle.std.specs.Prelude.{◌≡◌, map, IfOk};
ghost use Rattle.std.specs.Option.{option_map};
ghost use Rattle.main_selects.specs.Shifted as spec;

use base_core::{Copied, ListOf, both};
use expr_types::{Expr, ExprList};
use sqlite_items::{Boxed, Items};
use std::alloc::{AllocError, Global};

/// How many sources a select has of its own, and how many more there are.
#[derive(Clone, Copy)]
pub(crate) struct Shift {
    pub(crate) own: u32,
    pub(crate) more: u32,
}

fn shifted_place(shift: Shift, source: u32) -> Result<u32, AllocError>
    ensures place { IfOk result
        (λ place. place ≡ spec.shifted_place shift.own shift.more source) }
{
    if source < shift.own {
        return Ok(source);
    }
    match source.checked_add(shift.more) {
        Some(place) => Ok(place),
        None => Err(AllocError),
    }
}

#[cycle(shifts)]
fn boxed(alloc: Global, shift: Shift, e: &Boxed<Expr>) -> Result<Boxed<Expr>, AllocError>
    ensures e { IfOk result (λ new. new ≡ spec.shifted shift.own shift.more e.now) }
{
    Boxed::new(alloc, shifted(alloc, shift, e.get())?)
}

#[cycle(shifts)]
fn all_shifted(alloc: Global, shift: Shift, es: &ExprList) -> Result<ExprList, AllocError>
    ensures es { IfOk result (λ new. new ≡ map (spec.shifted shift.own shift.more) es.now) }
{
    let mut out = Items::new(alloc);
    for e in es.as_slice() {
        out.push(shifted(alloc, shift, e)?)?;
    }
    Ok(out)
}

/// An expression under more sources.
#[tactic(auto, unfolding(crate::specs::Shifted::shifted), using(crate::proofs::Lists::shifted_lists))]
#[cycle(shifts)]
pub(crate) fn shifted(alloc: Global, shift: Shift, e: &Expr) -> Result<Expr, AllocError>
    ensures e { IfOk result (λ new. new ≡ spec.shifted shift.own shift.more e.now) }
{
    match e {
        Expr::Column(source, column) => {
            Ok(Expr::Column(shifted_place(shift, *source)?, *column))
        }
        Expr::Lit(value) => Ok(Expr::Lit(value.copied()?)),
        Expr::Compare(op, a, b) => {
            let (a, b) = both(boxed(alloc, shift, a), boxed(alloc, shift, b))?;
            Ok(Expr::Compare(*op, a, b))
        }
        Expr::IsNull(negated, a) => Ok(Expr::IsNull(*negated, boxed(alloc, shift, a)?)),
        Expr::And(es) => Ok(Expr::And(all_shifted(alloc, shift, es)?)),
        Expr::Or(es) => Ok(Expr::Or(all_shifted(alloc, shift, es)?)),
        Expr::Not(a) => Ok(Expr::Not(boxed(alloc, shift, a)?)),
        Expr::Arith(op, a, b) => {
            let (a, b) = both(boxed(alloc, shift, a), boxed(alloc, shift, b))?;
            Ok(Expr::Arith(*op, a, b))
        }
        Expr::Neg(a) => Ok(Expr::Neg(boxed(alloc, shift, a)?)),
        Expr::Concat(a, b) => {
            let (a, b) = both(boxed(alloc, shift, a), boxed(alloc, shift, b))?;
            Ok(Expr::Concat(a, b))
        }
        Expr::Like(negated, a, b) => {
            let (a, b) = both(boxed(alloc, shift, a), boxed(alloc, shift, b))?;
            Ok(Expr::Like(*negated, a, b))
        }
        Expr::Ilike(negated, a, b) => {
            let (a, b) = both(boxed(alloc, shift, a), boxed(alloc, shift, b))?;
            Ok(Expr::Ilike(*negated, a, b))
        }
        Expr::InList(negated, a, values) => {
            let (a, values) = both(boxed(alloc, shift, a), values.copied())?;
            Ok(Expr::InList(*negated, a, values))
        }
        Expr::Between(negated, a, low, high) => {
            let ends = both(boxed(alloc, shift, low), boxed(alloc, shift, high));
            let (a, (low, high)) = both(boxed(alloc, shift, a), ends)?;
            Ok(Expr::Between(*negated, a, low, high))
        }
        Expr::Distinct(negated, a, b) => {
            let (a, b) = both(boxed(alloc, shift, a), boxed(alloc, shift, b))?;
            Ok(Expr::Distinct(*negated, a, b))
        }
        Expr::Call(function, es) => Ok(Expr::Call(*function, all_shifted(alloc, shift, es)?)),
        Expr::CountAll => Ok(Expr::CountAll),
        Expr::Exists(negated, origin, a) => {
            let (origin, a) = both(origin.copied(), boxed(alloc, shift, a))?;
            Ok(Expr::Exists(*negated, origin, a))
        }
    }
}

/// A condition, if there is one, under more sources.
pub(crate) fn shifted_filter(
    alloc: Global,
    shift: Shift,
    filter: &Option<Expr>,
) -> Result<Option<Expr>, AllocError>
    ensures filter { IfOk result
        (λ new. new ≡ option_map (spec.shifted shift.own shift.more) filter.now) }
{
    match filter {
        Some(e) => Ok(Some(shifted(alloc, shift, e)?)),
        None => Ok(None),
    }
}

/// What a select is ordered by, under more sources.
pub(crate) fn shifted_order(
    alloc: Global,
    shift: Shift,
    order: &[(Expr, bool)],
) -> Result<ListOf<(Expr, bool)>, AllocError>
    ensures order { IfOk result (λ new. new
        ≡ map (λ key. (spec.shifted shift.own shift.more key.0, key.1)) order.now) }
{
    let mut out = Vec::new(alloc);
    for key in order {
        out.push((shifted(alloc, shift, &key.0)?, key.1))?;
    }
    Ok(ListOf::from_vec(out))
}
