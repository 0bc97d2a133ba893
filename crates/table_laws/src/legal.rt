//! What accepted statements keep.

ghost use Rattle.std.specs.Prelude.{◌≡◌, List, Some, if◌then◌else◌, true, false, Ok, Err};
ghost use Rattle.base_core.specs.declared.ids.TableId.{TableId};
ghost use Rattle.base_core.specs.declared.value.Value.{Value};
ghost use Rattle.schema_core.specs.declared.statement.RowStmt.{RowStmt};
ghost use Rattle.schema_core.specs.declared.statement.RowStmt.TheVariants.{Insert};
ghost use Rattle.schema_core.specs.declared.statement.Violation.TheVariants.{Foreign};
ghost use Rattle.schema_core.specs.Apply.{apply, entries_of};
ghost use Rattle.schema_core.specs.Catalog.{Catalog, spec_of};
ghost use Rattle.schema_core.specs.Judged.{some_loses_row, some_written_dangles, with_all, without_all};
ghost use Rattle.schema_core.specs.Tables.{AreAscending, Legal, Rows, Tables, has_dangling, rows_in, with_rows};
ghost use Rattle.schema_core.specs.WellFormed.{IsWellFormed};
ghost use Rattle.table_laws.specs.OneByOne.{one_by_one, refers_to_later};

#[tactic(auto, using(crate::proofs::Legality::accepted))]
/// A statement on rows that fits the schema and is accepted leaves legal tables legal.
pub fn accepted_is_legal()
    ensures { (schema : Catalog) (tables : Tables) (sent : RowStmt) (keys : List (List Value))
        (after : Tables) → IsWellFormed schema sent → Legal schema tables
        → apply schema tables sent ≡ Ok (keys, after) → Legal schema after }
{}

#[tactic(auto, using(crate::proofs::Ascending::accepted_ascends))]
/// An accepted statement on rows leaves tables ascending by number, and their rows by key, where they were.
pub fn accepted_is_ascending()
    ensures { (schema : Catalog) (tables : Tables) (sent : RowStmt) (keys : List (List Value))
        (after : Tables) → AreAscending tables
        → apply schema tables sent ≡ Ok (keys, after) → AreAscending after }
{}

#[tactic(auto, using(crate::proofs::Legality::written_rule, crate::proofs::Legality::removed_rule))]
/// Where no foreign key dangled before, the judgement on what a statement wrote or took out is one on all rows: where some
/// foreign key dangles then, one of a written row does, or one that named a row that was taken out.
pub fn rule_over_all_rows()
    ensures written { (schema : Catalog) (tables : Tables) (table : TableId) (rows entries : Rows)
        → has_dangling schema tables ≡ false → rows_in tables table ≡ Some rows
        → has_dangling schema (with_rows tables table (with_all rows entries)) ≡ true
        → some_written_dangles schema (with_rows tables table (with_all rows entries))
        (spec_of schema table) entries ≡ true }
    ensures removed { (schema : Catalog) (tables : Tables) (table : TableId) (rows : Rows)
        (keys : List (List Value)) → has_dangling schema tables ≡ false
        → rows_in tables table ≡ Some rows
        → has_dangling schema (with_rows tables table (without_all rows keys)) ≡ true
        → some_loses_row schema tables (with_rows tables table (without_all rows keys)) ≡ true }
{}

#[tactic(auto, using(crate::proofs::OneByOne::many_as_one))]
/// Where the rows of an INSERT are accepted one after the other, each by a statement of its own, the INSERT is accepted as
/// one statement, with the same keys and the same tables.
pub fn many_rows_as_one_by_one()
    ensures { (schema : Catalog) (tables : Tables) (table : TableId) (rows : List (List Value))
        (answer : List (List Value) × Tables) → IsWellFormed schema (Insert table rows)
        → one_by_one schema tables table rows ≡ Ok answer
        → apply schema tables (Insert table rows) ≡ Ok answer }
{}

#[tactic(auto, using(crate::proofs::OneByOne::one_as_many))]
/// And where it is accepted as one statement, its rows are accepted one by one, but where a row refers to a later row: then
/// the first such row is refused.
pub fn one_by_one_as_many_rows()
    ensures { (schema : Catalog) (tables : Tables) (table : TableId) (old : Rows)
        (rows : List (List Value)) (entries : Rows) (answer : List (List Value) × Tables)
        → IsWellFormed schema (Insert table rows) → rows_in tables table ≡ Some old
        → entries_of (spec_of schema table) old rows ≡ Ok entries
        → apply schema tables (Insert table rows) ≡ Ok answer
        → one_by_one schema tables table rows
        ≡ (if refers_to_later schema tables table old entries then Err Foreign else Ok answer) }
{}
