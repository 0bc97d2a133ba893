//! Bulk statements.

ghost use Rattle.std.specs.Prelude.{◌≡◌, IfErr, IfOk, IsTrue};
ghost use Rattle.base_core.specs.Answers.{Gives};
ghost use Rattle.sql_semantics.specs.PlainStatement.{IsFittingBulk};
ghost use Rattle.statement_names.specs.BulkNames as names;
ghost use Rattle.script_names.specs.Faults.{TellsFirst};
ghost use Rattle.statement_kinds.specs.NormalBulk as normal;
ghost use Rattle.script_resolve.specs.Bulks as spec;
ghost use Rattle.script_resolve.specs.Refusals.{CanRefuse};
ghost use Rattle.script_resolve.specs.Sayable.{is_sayable_bulk};

use crate::judging::judge_bulk;
use base_core::Refusal;
use expr_types::Bulk;
use schema_core::Schema;
use script_types::SynBulk;
use sqlite_items::Boxed;
use statement_names::name_bulk;
use std::alloc::Global;

fn named(alloc: Global, schema: &Schema, b: &SynBulk) -> Result<Boxed<Bulk>, Refusal>
    ensures value { IfOk result (λ bulk. bulk ≡ names.named_bulk schema.now b.now) }
    ensures told { TellsFirst (names.bulk_name_faults schema.now b.now) result }
{
    Ok(Boxed::new(alloc, name_bulk(alloc, schema, b)?)?)
}

#[tactic(auto, using(script_names::proofs::Firsts::firsts))]
fn resolved(alloc: Global, schema: &Schema, b: &SynBulk) -> Result<Boxed<Bulk>, Refusal>
    ensures value { IfOk result (λ bulk. bulk ≡ normal.normal_bulk (names.named_bulk schema.now
        b.now)) }
    ensures told { TellsFirst (spec.bulk_faults schema.now b.now) result }
{
    let named = named(alloc, schema, b)?;
    judge_bulk(alloc, schema, named.get())
}

#[tactic(auto, using(crate::proofs::Whole::whole))]
fn answered(alloc: Global, schema: &Schema, b: &SynBulk) -> Result<Bulk, Refusal>
    ensures { Gives (λ bulk. bulk) result (spec.resolved_bulk schema.now b.now) }
{
    Ok(resolved(alloc, schema, b)?.into_inner())
}

/// The bulk statement that a line says, in numbers and in normal form.
///
/// # Errors
/// The first that there is, in this order: in reading order `Unknown` of a name that stands for nothing, and `WrongKind` of a
/// column that is given twice, of another number of values than columns and of a function with another number of operands
/// than it takes; in reading order `TypeMismatch`, judged as it is written; `NotGrouped` for an aggregate; `DuplicateFrom`
/// for an `exists` over a source of the table's name, or inside one of its own name. That a key is set is for the session to
/// refuse.
#[tactic(auto, using(crate::proofs::Whole::told))]
pub fn resolve_bulk(alloc: Global, schema: &Schema, statement: &SynBulk) -> Result<Bulk, Refusal>
    ensures told { Gives (λ bulk. bulk) result (spec.resolved_bulk schema.now statement.now) }
    ensures cause { IfErr result CanRefuse }
    // What a line can say fits its table where it is not refused, and gives each column once.
    ensures fitting { IsTrue (is_sayable_bulk statement.now) → IfOk result (IsFittingBulk
        schema.now) }
    ensures once { IfOk result (λ bulk. IsTrue (spec.gives_once bulk)) }
{
    answered(alloc, schema, statement)
}
