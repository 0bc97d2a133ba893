//! Queries whose names are known, judged.

ghost use Rattle.std.specs.Prelude.{◌≡◌, IfErr, IfOk};
ghost use Rattle.std.specs.List.{list_any};
ghost use Rattle.class_mapping.specs.Mapped.{IsClass};
ghost use Rattle.expr_types.specs.NormalSelect.{normal_select as normal_form};
ghost use Rattle.object_arena.specs.Fit.{relation_of};
ghost use Rattle.script_names.specs.Faults.{TellsFirst};
ghost use Rattle.query_names.specs.Judging as spec;
ghost use Rattle.query_names.specs.Queries.{AreRelations, HasOptions, IsOfQueries};

use base_core::{ClassId, Refusal, RelNo, RequestKind};
use class_mapping::Mapping;
use expr_types::{ObjectQuery, Select};
use main_selects::relation_at;
use script_resolve::judge_select;
use sqlite_items::Boxed;
use std::alloc::Global;

/// Whether one of these relationships is a collection.
fn joins_many(mapping: &Mapping, class: ClassId, places: &[RelNo]) -> bool
    requires class { IsClass mapping.now class }
    requires places { AreRelations mapping.now class places.now }
    ensures { result ≡ list_any (λ place. (relation_of mapping.now class place).many)
        places.now }
{
    for place in places {
        if relation_at(mapping, class, *place).many {
            return true;
        }
    }
    false
}

/// Whether a select leaves rows out at its beginning or its end.
fn is_cut(select: &Select) -> bool
    ensures { result ≡ spec.is_cut select.now }
{
    select.limit.is_some() || select.offset.is_some()
}

/// The normal form of the select of a query whose names are known.
///
/// # Errors
/// The first that there is, in this order: in reading order `TypeMismatch` of an operand that is of another kind than its place
/// wants, judged as it is written; `NotGrouped` for an aggregate; `DuplicateFrom` for two sources of one name, also around and in an
/// `exists`; `JoinedLimit` where a collection is joined beside a limit or an offset. `Memory`.
#[tactic(auto, using(statement_kinds::proofs::Firsts::firsts, crate::proofs::Judged::names))]
pub(crate) fn judge(
    alloc: Global,
    mapping: &Mapping,
    query: &ObjectQuery,
) -> Result<Boxed<Select>, Refusal>
    requires class { IsClass mapping.now query.now.class }
    requires options { HasOptions mapping.now query.now }
    ensures form { IfOk result (λ form. form ≡ normal_form query.now.select) }
    ensures told { TellsFirst (spec.query_faults mapping.now query.now) result }
    ensures cause { IfErr result IsOfQueries }
{
    let form = judge_select(alloc, mapping.schema(), &query.select)?;
    if is_cut(&query.select) && joins_many(mapping, query.class, query.joined.as_slice()) {
        return Err(Refusal::InvalidRequestError(RequestKind::JoinedLimit));
    }
    Ok(form)
}
