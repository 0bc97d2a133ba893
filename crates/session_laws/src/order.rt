//! The order of rows of which some wait for others, runs of rows, and rows by table and key.

ghost use Rattle.std.specs.Prelude.{◌≡◌, ℕ, Bool, List, Ok, Err};
ghost use Rattle.std.specs.List.{flat_map};
ghost use Rattle.schema_core.specs.declared.changes.RowChanges.{RowChanges};
ghost use Rattle.schema_core.specs.Catalog.{Catalog};
ghost use Rattle.row_order.specs.Places.{IsCycle, IsOrder, order_or_cycle};
ghost use Rattle.flush_order.specs.Sorted.{Place, sorted_numbers};
ghost use Rattle.flush_writes.specs.Runs.{runs};
ghost use Rattle.session_laws.specs.Plans.AsSets.{AreByPlace, AreRuns};

#[tactic(auto, using(crate::proofs::Plans::Orders::order_laws))]
/// Either the order has every row, each the least that waits for none left, or each row of the cycle waits for the next and
/// the last for the first.
pub fn order_or_cycle()
    ensures order { (waits : ℕ → ℕ → Bool) (size : ℕ) (rows : List ℕ)
        → order_or_cycle waits size ≡ Ok rows → IsOrder waits size rows }
    ensures cycle { (waits : ℕ → ℕ → Bool) (size : ℕ) (rows : List ℕ)
        → order_or_cycle waits size ≡ Err rows → IsCycle waits rows }
{}

/// The runs of an order are its rows, in order.
pub fn runs_are_whole()
    ensures { (schema : Catalog) (changes : RowChanges) (order : List ℕ)
        → flat_map (λ run. run) (runs schema changes order) ≡ order }
{}

/// The runs of an order are runs by the rules of runs, none of which could be longer, and no other list of runs is.
pub fn runs_are_longest()
    ensures holds { (schema : Catalog) (changes : RowChanges) (order : List ℕ)
        → AreRuns schema changes order (runs schema changes order) }
    ensures only { (schema : Catalog) (changes : RowChanges) (order : List ℕ)
        (parts : List (List ℕ)) → AreRuns schema changes order parts
        → parts ≡ runs schema changes order }
{}

/// The numbers of items by table and key are those of all items, but where some have one table and key: then that of the
/// last. They rise by table and key, and no other list does so.
pub fn numbers_are_by_place()
    ensures holds { (places : List Place) → AreByPlace places (sorted_numbers places) }
    ensures only { (places : List Place) (numbers : List ℕ) → AreByPlace places numbers
        → numbers ≡ sorted_numbers places }
{}
