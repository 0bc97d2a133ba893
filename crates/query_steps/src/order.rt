//! The order of rows.

ghost use Rattle.std.specs.Prelude.{◌≡◌, [], IfOk};
ghost use Rattle.sql_semantics.specs.Order as spec;

use base_core::{ListOf, RowValues};
use sql_semantics::SortKey;
use std::alloc::{AllocError, Global};
use std::collections::BTreeMap;

/// A row of the answer with the keys by which it is ordered.
pub type Output = (ListOf<SortKey>, RowValues);

type Ranked = BTreeMap<(ListOf<SortKey>, usize), RowValues>;

/// The rows by their keys, and rows with equal keys in the order in which they come.
#[tactic(auto, unfolding(sql_semantics::specs::Order::in_order))]
pub fn in_order(alloc: Global, outputs: Vec<Output>) -> Result<Vec<RowValues>, AllocError>
    ensures { IfOk result (λ rows. rows.items ≡ spec.in_order outputs.items) }
{
    let ranked = ranked(alloc, outputs)?;
    Ok(ranked.into_values().collect(alloc)?)
}

fn ranked(alloc: Global, outputs: Vec<Output>) -> Result<Ranked, AllocError>
    ensures { IfOk result (λ m. m.entries ≡ spec.ranked_from [] 0 outputs.items) }
{
    let mut ranked = BTreeMap::new(alloc);
    let mut place = 0;
    for (keys, row) in outputs {
        ranked.insert((keys, place), row)?;
        place += 1;
    }
    Ok(ranked)
}
