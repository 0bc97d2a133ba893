//! The law of the order of rows.

ghost use Rattle.std.specs.Prelude.{◌≡◌, List, map};
ghost use Rattle.sql_semantics.specs.Order.{in_order};
ghost use Rattle.select_laws.specs.Sorted.{IsSortedStably, KeyedRow};

/// The rows of a select in their order are the rows as they come, sorted by their keys, where rows with equal keys stand in
/// the order in which they come; and no other list is. So SQL's ORDER BY is met, and what it leaves open is settled.
#[tactic(auto, using(crate::proofs::Ranks::order_laws))]
pub fn one_order()
    ensures holds { (rows : List KeyedRow)
        → (sorted : List KeyedRow) × IsSortedStably rows sorted
        × (in_order rows ≡ map (λ r. r.1) sorted) }
    ensures only { (rows sorted : List KeyedRow) → IsSortedStably rows sorted
        → in_order rows ≡ map (λ r. r.1) sorted }
{}
