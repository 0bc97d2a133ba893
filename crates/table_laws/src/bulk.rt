//! What accepted bulk statements keep.

ghost use Rattle.std.specs.Prelude.{◌≡◌, ℕ, Ok};
ghost use Rattle.schema_core.specs.Catalog.{Catalog};
ghost use Rattle.schema_core.specs.Tables.{AreAscending, Legal, Tables};
ghost use Rattle.expr_types.specs.declared.select.Bulk.{Bulk};
ghost use Rattle.sql_semantics.specs.Applied.{bulk_outcome};
ghost use Rattle.sql_semantics.specs.Plain.{IsPlainBulk};

#[tactic(auto, using(crate::proofs::Accepted::bulk_legal, crate::proofs::Accepted::bulk_ascends))]
/// A plain bulk statement that is accepted leaves legal tables legal: what its expressions give is of the columns' kinds. Tables that
/// were ascending, and their rows, it leaves ascending.
pub fn accepted_bulk_is_legal()
    ensures legal { (schema : Catalog) (tables : Tables) (statement : Bulk) (count : ℕ)
        (after : Tables) → IsPlainBulk schema statement → Legal schema tables
        → bulk_outcome schema tables statement ≡ Ok (count, after) → Legal schema after }
    ensures ascending { (schema : Catalog) (tables : Tables) (statement : Bulk) (count : ℕ)
        (after : Tables) → AreAscending tables
        → bulk_outcome schema tables statement ≡ Ok (count, after) → AreAscending after }
{}
