//! What the rows of a legal store are.

ghost use Rattle.std.specs.Prelude.{◌≡◌, List, Ok, Option, Some, map};
ghost use Rattle.std.specs.List.Sorted.{IsStrictlySortedBy};
ghost use Rattle.base_core.specs.declared.ids.TableId.{TableId};
ghost use Rattle.base_core.specs.declared.value.Value.{Value};
ghost use Rattle.base_core.specs.Order.{values_cmp};
ghost use Rattle.schema_core.specs.Catalog.{Catalog, spec_of};
ghost use Rattle.schema_core.specs.Tables.{key_of};
ghost use Rattle.keeper_core.specs.Moment.{Told};
ghost use Rattle.keeper_core.specs.Store.{Store};
ghost use Rattle.keeper_core.specs.Calls.{scan};
ghost use Rattle.keeper_core.specs.Keeping.{HoldsLegalRows, HoldsRows};
ghost use Rattle.table_laws.specs.Legality.{IfTold, IsLegalStore};

#[tactic(auto, using(crate::proofs::HeldRows::holds_rows, crate::proofs::HeldRows::holds_legal_rows))]
/// Where a legal store is told, the conditions are met under which a keeper's `query` and `scan` answer rows of the right kinds,
/// with no NULL in a column that takes none.
pub fn a_legal_store_holds_legal_rows()
    ensures kinds { (schema : Catalog) (told : Option (Told Store))
        → IfTold (IsLegalStore schema) told → HoldsRows schema told }
    ensures given { (schema : Catalog) (told : Option (Told Store))
        → IfTold (IsLegalStore schema) told → HoldsLegalRows schema told }
{}

#[tactic(auto, using(crate::proofs::Scanned::scanned_ascend))]
/// The rows that `scan` answers of a legal store ascend by their keys: no two have one key.
pub fn scanned_rows_ascend()
    ensures { (schema : Catalog) (store : Store) (table : TableId) (rows : List (List Value))
        → IsLegalStore schema store → (scan table store).answer ≡ Ok (Some rows)
        → IsStrictlySortedBy values_cmp (map (key_of (spec_of schema table)) rows) }
{}
