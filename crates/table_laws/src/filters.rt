//! Laws of the lists of selects and bulk statements, each of whose items may be refused.

ghost use Rattle.std.specs.Prelude.{◌≡◌, Bool, true, List, [], ◌∷◌, ◌++◌, filter, map, Option, Ok, Err};
ghost use Rattle.std.specs.List.{AllByRecursion, flat_map};
ghost use Rattle.base_core.specs.declared.ids.ColumnNo.{ColumnNo};
ghost use Rattle.base_core.specs.declared.refusal.Refusal.{Refusal};
ghost use Rattle.base_core.specs.declared.value.Value.{Value};
ghost use Rattle.schema_core.specs.Tables.{Rows};
ghost use Rattle.expr_types.specs.declared.expr.Expr.{Expr};
ghost use Rattle.sql_semantics.specs.Checked.{Checked};
ghost use Rattle.sql_semantics.specs.Eval.{Row, Tables};
ghost use Rattle.sql_semantics.specs.Rows.{each_from, kept_from, mapped_from};
ghost use Rattle.sql_semantics.specs.Taken.{deleted_from, rewritten_row, takes, updated_from};
ghost use Rattle.sql_semantics.specs.Truth.{passes};
ghost use Rattle.table_laws.specs.Filters.{AllGive};

/// The items that pass a test, as rows pass conditions and groups do, are a filter of the whole list where none is refused; and where
/// one is, the first refusal is the answer. It does nothing when it runs.
pub fn kept_are_filtered<A>()
    ensures filtered { (test : A → Checked Value) (value : A → Value) (xs : List A)
        → AllGive test value xs → kept_from test [] xs ≡ Ok (filter (λ x. passes (value x)) xs) }
    ensures stopped { (test : A → Checked Value) (value : A → Value) (before after : List A) (x : A)
        (e : Refusal) → AllGive test value before → test x ≡ Err e
        → kept_from test [] (before ++ x ∷ after) ≡ Err e }
{}

/// What the items give, as rows of a join and values of a select, is what each gives, one behind the other, where none is refused. It
/// does nothing when it runs.
pub fn given_are_joined<A, B>()
    ensures lists { (f : A → Checked (List B)) (value : A → List B) (xs : List A)
        → AllGive f value xs → each_from f [] xs ≡ Ok (flat_map value xs) }
    ensures items { (f : A → Checked B) (value : A → B) (xs : List A)
        → AllGive f value xs → mapped_from f [] xs ≡ Ok (map value xs) }
{}

/// The rows that a bulk statement takes are a filter of its table's where none is refused: a DELETE takes their keys, and an UPDATE puts
/// each rewritten one under its key. It does nothing when it runs.
pub fn taken_are_filtered()
    ensures deleted { (tables : Tables) (condition : Option Expr) (taken : Row → Bool) (rows : Rows)
        → AllGive (λ entry. takes tables condition entry.1) (λ entry. taken entry.1) rows
        → deleted_from tables condition [] rows
        ≡ Ok (map (λ entry. entry.0) (filter (λ entry. taken entry.1) rows)) }
    ensures updated { (tables : Tables) (condition : Option Expr) (taken : Row → Bool)
        (cells : List (ColumnNo × Option Expr)) (rewritten : Row → Row) (rows : Rows)
        → AllGive (λ entry. takes tables condition entry.1) (λ entry. taken entry.1) rows
        → AllByRecursion (λ entry. taken entry.1 ≡ true
        → rewritten_row tables cells entry.1 ≡ Ok (rewritten entry.1)) rows
        → updated_from tables cells condition [] rows
        ≡ Ok (map (λ entry. (entry.0, rewritten entry.1)) (filter (λ entry. taken entry.1) rows)) }
{}
