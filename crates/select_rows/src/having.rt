//! What passes `having`.

ghost use Rattle.std.specs.Prelude.{◌≡◌, []};
ghost use Rattle.base_core.specs.Answers.{Gives};
ghost use Rattle.sql_semantics.specs.Eval.{meaning_of};
ghost use Rattle.select_sources.specs.Frames.{frame_of};
ghost use Rattle.sql_semantics.specs.Rows as spec;

use crate::basis::scope_of;
use base_core::Refusal;
use expr_eval::value_in;
use expr_types::Expr;
use select_sources::{Frame, keep_if};
use sql_semantics::Basis;
use std::alloc::Global;

/// The rows or groups that pass `having`.
pub(crate) fn having(
    alloc: Global,
    frame: &Frame<'_>,
    condition: &Option<Expr>,
    bases: Vec<Basis>,
) -> Result<Vec<Basis>, Refusal>
    ensures { Gives (λ v. v.items) result
        (spec.groups_having (frame_of frame.now) condition.now bases.items) }
{
    match condition {
        Some(e) => kept_bases(alloc, frame, e, bases),
        None => Ok(bases),
    }
}

fn kept_bases(
    alloc: Global,
    frame: &Frame<'_>,
    condition: &Expr,
    bases: Vec<Basis>,
) -> Result<Vec<Basis>, Refusal>
    ensures { Gives (λ v. v.items) result
        (spec.kept_from (λ b. meaning_of condition.now
        (spec.at_basis (frame_of frame.now) b)) [] bases.items) }
{
    let mut kept = Vec::new(alloc);
    for basis in bases {
        let scope = scope_of(frame.starts, frame.tables, &basis);
        let value = value_in(alloc, condition, &scope)?;
        keep_if(&mut kept, &value, basis)?;
    }
    Ok(kept)
}
