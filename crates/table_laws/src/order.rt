//! The order in which tables are created.

ghost use Rattle.std.specs.Prelude.{◌≡◌, List};
ghost use Rattle.base_core.specs.declared.ids.TableId.{TableId};
ghost use Rattle.schema_core.specs.Catalog.{Catalog};
ghost use Rattle.schema_core.specs.DependencyOrder.{IsDependencyOrder, dependency_order};

#[tactic(auto, using(crate::proofs::OrderLemmas::order_laws))]
/// The dependency order has every declared table, each the one that comes after those before it, and no other list does.
pub fn one_order()
    ensures holds { (schema : Catalog) → IsDependencyOrder schema (dependency_order schema) }
    ensures only { (schema : Catalog) (order : List TableId) → IsDependencyOrder schema order
        → order ≡ dependency_order schema }
{}
