//! Selects.

ghost use Rattle.std.specs.Prelude.{◌≡◌, IfErr, IfOk, IsTrue};
ghost use Rattle.base_core.specs.Answers.{Gives};
ghost use Rattle.expr_types.specs.NormalSelect as normal;
ghost use Rattle.sql_semantics.specs.Plain.{IsPlainSelect};
ghost use Rattle.script_names.specs.Faults.{TellsFirst};
ghost use Rattle.statement_names.specs.SelectNames as names;
ghost use Rattle.script_resolve.specs.Refusals.{CanRefuse};
ghost use Rattle.script_resolve.specs.Sayable.{is_sayable_select};
ghost use Rattle.script_resolve.specs.Selects as spec;

use crate::judging::judge_select;
use base_core::Refusal;
use expr_types::Select;
use schema_core::Schema;
use script_types::SynSelect;
use sqlite_items::Boxed;
use statement_names::name_select;
use std::alloc::Global;

fn named(alloc: Global, schema: &Schema, s: &SynSelect) -> Result<Boxed<Select>, Refusal>
    ensures value { IfOk result (λ select. select ≡ names.named_select schema.now s.now) }
    ensures told { TellsFirst (names.select_name_faults schema.now s.now) result }
{
    Ok(Boxed::new(alloc, name_select(alloc, schema, s)?)?)
}

#[tactic(auto, using(script_names::proofs::Firsts::firsts))]
fn resolved(alloc: Global, schema: &Schema, s: &SynSelect) -> Result<Boxed<Select>, Refusal>
    ensures value { IfOk result (λ select. select ≡ normal.normal_select (names.named_select
        schema.now s.now)) }
    ensures told { TellsFirst (spec.select_faults schema.now s.now) result }
{
    let named = named(alloc, schema, s)?;
    judge_select(alloc, schema, named.get())
}

#[tactic(auto, using(crate::proofs::Whole::whole))]
fn answered(alloc: Global, schema: &Schema, s: &SynSelect) -> Result<Select, Refusal>
    ensures { Gives (λ select. select) result (spec.resolved_select schema.now s.now) }
{
    Ok(resolved(alloc, schema, s)?.into_inner())
}

/// The select that a line says, in numbers and in normal form.
///
/// # Errors
/// The first that there is, in this order: in reading order, items first, `Unknown` of a name that stands for nothing and
/// `WrongKind` of a function with another number of operands than it takes; in reading order `TypeMismatch`, judged as it is
/// written; `NotGrouped` for an aggregate in `where`, `on`, `group by` or another aggregate, and for a column of a grouped
/// query outside aggregates and group expressions; `DuplicateFrom` for two sources of one name, also around and in an
/// `exists`. Until that is told a name means the first source of its name, and inside an `exists` the innermost.
#[tactic(auto, using(crate::proofs::Whole::told))]
pub fn resolve_select(alloc: Global, schema: &Schema, select: &SynSelect) -> Result<Select, Refusal>
    ensures told { Gives (λ select. select) result (spec.resolved_select schema.now select.now) }
    ensures cause { IfErr result CanRefuse }
    // What a line can say is plain where it is not refused.
    ensures plain { IsTrue (is_sayable_select select.now) → IfOk result (IsPlainSelect schema.now) }
{
    answered(alloc, schema, select)
}
