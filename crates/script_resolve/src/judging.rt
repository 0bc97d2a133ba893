//! Statements whose names are known, judged and put into normal form.

ghost use Rattle.std.specs.Prelude.{◌≡◌, IfErr, IfOk};
ghost use Rattle.expr_types.specs.NormalSelect as selects;
ghost use Rattle.script_names.specs.Faults.{TellsFirst};
ghost use Rattle.script_resolve.specs.JudgedBulks as bulks;
ghost use Rattle.script_resolve.specs.Judging as spec;
ghost use Rattle.script_resolve.specs.Refusals.{CanRefuse};
ghost use Rattle.statement_kinds.specs.NormalBulk.{normal_bulk};

use crate::apart::{bulk_names_apart, has_names_apart};
use crate::grouping::{bulk_lacks, has_parts_in_place};
use base_core::{Refusal, RequestKind};
use expr_types::{Bulk, Select};
use schema_core::Schema;
use sqlite_items::Boxed;
use statement_kinds::{judge_bulk_kinds, judge_kinds, normal_bulk, normal_select};
use std::alloc::Global;

/// Whether the parts of a select in normal form stand where they may.
#[tactic(auto, unfolding(crate::specs::Judging::place_faults), using(statement_kinds::proofs::Firsts::firsts))]
fn judge_places(alloc: Global, schema: &Schema, s: &Select) -> Result<(), Refusal>
    ensures told { TellsFirst (spec.place_faults schema.now s.now) result }
    ensures cause { IfErr result CanRefuse }
{
    if !has_parts_in_place(s) {
        return Err(Refusal::InvalidRequestError(RequestKind::NotGrouped));
    }
    if !has_names_apart(alloc, schema, s)? {
        return Err(Refusal::InvalidRequestError(RequestKind::DuplicateFrom));
    }
    Ok(())
}

/// The normal form of a select whose names are known.
///
/// # Errors
/// The first that there is, in this order: in reading order, items first, `TypeMismatch` of an operand that is of another kind
/// than its place wants, judged as it is written; `NotGrouped` for an aggregate in `where`, `on`, `group by` or another
/// aggregate, and for a column of a grouped query outside aggregates and group expressions; `DuplicateFrom` for two sources of
/// one name, also around and in an `exists`. `Memory`.
#[tactic(auto, using(statement_kinds::proofs::Firsts::firsts, crate::proofs::Whole::kind_faults))]
pub fn judge_select(alloc: Global, schema: &Schema, s: &Select) -> Result<Boxed<Select>, Refusal>
    ensures value { IfOk result (λ form. form ≡ selects.normal_select s.now) }
    ensures told { TellsFirst (spec.judged_select schema.now s.now) result }
    ensures cause { IfErr result CanRefuse }
{
    judge_kinds(alloc, schema, s)?;
    let form = normal_select(alloc, s)?;
    judge_places(alloc, schema, form.get())?;
    Ok(form)
}

/// Whether the parts of a bulk statement in normal form stand where they may.
#[tactic(auto, unfolding(crate::specs::JudgedBulks::bulk_place_faults), using(statement_kinds::proofs::Firsts::firsts))]
fn judge_bulk_places(alloc: Global, schema: &Schema, b: &Bulk) -> Result<(), Refusal>
    ensures { TellsFirst (bulks.bulk_place_faults schema.now b.now) result }
{
    if !bulk_lacks(b) {
        return Err(Refusal::InvalidRequestError(RequestKind::NotGrouped));
    }
    if !bulk_names_apart(alloc, schema, b)? {
        return Err(Refusal::InvalidRequestError(RequestKind::DuplicateFrom));
    }
    Ok(())
}

/// The normal form of a bulk statement whose names are known.
///
/// # Errors
/// The first that there is, in this order: in reading order `TypeMismatch` of an operand or a value that is of another kind
/// than its place wants, judged as it is written; `NotGrouped` for an aggregate; `DuplicateFrom` for an `exists` over a source
/// of the table's name, or inside one of its own name.
#[tactic(auto, using(statement_kinds::proofs::Firsts::firsts))]
pub(crate) fn judge_bulk(alloc: Global, schema: &Schema, b: &Bulk) -> Result<Boxed<Bulk>, Refusal>
    ensures value { IfOk result (λ form. form ≡ normal_bulk b.now) }
    ensures told { TellsFirst (bulks.judged_bulk schema.now b.now) result }
{
    judge_bulk_kinds(alloc, schema, b)?;
    let form = normal_bulk(alloc, b)?;
    judge_bulk_places(alloc, schema, form.get())?;
    Ok(form)
}
