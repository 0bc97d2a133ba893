//! Names of selects.

ghost use Rattle.std.specs.Prelude.{◌≡◌, ◌∷◌, ◌++◌, [], IfOk};
ghost use Rattle.script_names.specs.Faults.{TellsFirst};
ghost use Rattle.statement_names.specs.SelectNames as spec;

use base_core::{ListOf, Refusal};
use expr_types::{Joined, Select};
use schema_core::Schema;
use script_names::{
    Scope, enter, expression_named, expressions_named, named_if_given, origin_named, pair,
    pairs_named,
};
use script_types::{SynJoin, SynSelect, SynSource};
use std::alloc::{AllocError, Global};

/// The sources in order, each behind its place.
fn scope_written(alloc: Global, s: &SynSelect) -> Result<Scope, AllocError>
    ensures { IfOk result (λ scope. scope.items ≡ spec.scope_written s.now) }
{
    let mut scope = Vec::new(alloc);
    enter(&mut scope, &s.first)?;
    for join in s.joins.as_slice() {
        enter(&mut scope, &join.source)?;
    }
    Ok(scope)
}

/// A further source, and its condition under the sources up to it.
#[tactic(auto, using(script_names::proofs::Firsts::firsts))]
fn join_named(
    alloc: Global,
    schema: &Schema,
    scope: &[(u32, SynSource)],
    join: &SynJoin,
) -> Result<Joined, Refusal>
    ensures value { IfOk result (λ said. said ≡ spec.named_join schema.now scope.now join.now) }
    ensures told { TellsFirst (spec.join_faults schema.now scope.now join.now) result }
{
    let (origin, on) = pair(
        origin_named(schema, &join.source),
        expression_named(alloc, schema, scope, &join.on),
    )?;
    Ok(Joined {
        left: join.left,
        origin,
        on,
    })
}

/// Each further source, and its condition under the sources up to its own; `first` stands before them.
#[tactic(auto, using(script_names::proofs::Firsts::firsts))]
fn joins_named(
    alloc: Global,
    schema: &Schema,
    first: &SynSource,
    joins: &[SynJoin],
) -> Result<ListOf<Joined>, Refusal>
    ensures value { IfOk result (λ said. said ≡ spec.named_joins schema.now (first.now ∷ [])
        joins.now) }
    ensures told { TellsFirst (spec.joins_faults schema.now (first.now ∷ []) joins.now) result }
{
    let mut scope = Vec::new(alloc);
    enter(&mut scope, first)?;
    let mut named = ListOf::new(alloc);
    for join in joins {
        enter(&mut scope, &join.source)?;
        named.push(join_named(alloc, schema, scope.as_slice(), join)?)?;
    }
    Ok(named)
}

/// The select with numbers for its names, in the form in which it is written.
///
/// # Errors
/// The first in reading order, items first: `Unknown` of a name that stands for nothing (a source that is not in scope, a
/// table that is not declared, a column that its source lacks), and `WrongKind` behind the operands of a function that takes
/// another number. A name means the first source of that name, and inside an `exists` the innermost; the condition of a join
/// knows the sources up to its own.
#[tactic(auto, unfolding(crate::specs::SelectNames::select_name_faults, crate::specs::SelectNames::named_select))]
pub fn name_select(alloc: Global, schema: &Schema, s: &SynSelect) -> Result<Select, Refusal>
    ensures value { IfOk result (λ said. said ≡ spec.named_select schema.now s.now) }
    ensures told { TellsFirst (spec.select_name_faults schema.now s.now) result }
{
    let scope = scope_written(alloc, s)?;
    select_under(alloc, schema, scope.as_slice(), s)
}

#[tactic(auto, using(script_names::proofs::Firsts::firsts))]
fn select_under(
    alloc: Global,
    schema: &Schema,
    scope: &[(u32, SynSource)],
    s: &SynSelect,
) -> Result<Select, Refusal>
    ensures value { IfOk result (λ said. said ≡ spec.named_under schema.now scope.now s.now) }
    ensures told { TellsFirst (spec.faults_under schema.now scope.now s.now) result }
{
    // Paired to the right, as the faults stand one behind the other.
    let (items, (first, (joins, (filter, (groups, (having, order)))))) = pair(
        pairs_named(alloc, schema, scope, s.items.as_slice()),
        pair(
            origin_named(schema, &s.first),
            pair(
                joins_named(alloc, schema, &s.first, s.joins.as_slice()),
                pair(
                    named_if_given(alloc, schema, scope, &s.filter),
                    pair(
                        expressions_named(alloc, schema, scope, s.groups.as_slice()),
                        pair(
                            named_if_given(alloc, schema, scope, &s.having),
                            pairs_named(alloc, schema, scope, s.order.as_slice()),
                        ),
                    ),
                ),
            ),
        ),
    )?;
    Ok(Select {
        distinct: s.distinct,
        items,
        first,
        joins,
        filter,
        groups,
        having,
        order,
        limit: s.limit,
        offset: s.offset,
    })
}
