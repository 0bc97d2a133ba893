//! What makes no statement of many rows.

ghost use Rattle.std.specs.Prelude.{◌≡◌, ◌<◌, true, List, length};
ghost use Rattle.std.specs.List.{list_any};
ghost use Rattle.base_core.specs.declared.ids.TableId.{TableId};
ghost use Rattle.base_core.specs.declared.value.Value.{Value};
ghost use Rattle.schema_core.specs.declared.statement.RowStmt.TheVariants.{Insert};
ghost use Rattle.schema_core.specs.Catalog.{Catalog, spec_of};
ghost use Rattle.schema_core.specs.Apply.{wants_key};
ghost use Rattle.schema_core.specs.WellFormed.{IsWellFormed};

/// More than 1000 rows make no statement.
pub(crate) fn thousand_is_the_most()
    ensures { (schema : Catalog) (table : TableId) (rows : List (List Value)) → 1000 < length rows
        → IsWellFormed schema (Insert table rows) → ⊥ }
{}

/// Two rows of a table whose only column is a key that is generated make no statement.
pub(crate) fn one_open_key_alone()
    ensures { (schema : Catalog) (table : TableId) (rows : List (List Value))
        → length (spec_of schema table).columns ≡ 1 → length rows ≡ 2
        → list_any (wants_key (spec_of schema table)) rows ≡ true
        → IsWellFormed schema (Insert table rows) → ⊥ }
{}
