//! Queries whose rows are known by the tables: their selects begin with the tables of their class and find the columns that they name.
#![tactic(auto)]

ghost use Rattle.std.specs.Prelude.{◌≡◌, true};
ghost use Rattle.schema_core.specs.Catalog.{Catalog};
ghost use Rattle.expr_types.specs.declared.expr.Expr.{Expr};
ghost use Rattle.known_queries.specs.Known.{finds_columns};
ghost use Rattle.sql_semantics.specs.Kinds.{Scope};
ghost use Rattle.sql_semantics.specs.Plain.{fits};

/// An expression that fits the tables in scope finds its columns. It does nothing when it runs.
pub fn fitting_expressions_find_columns()
    ensures { (schema : Catalog) (e : Expr) (scope : Scope) → fits schema e scope ≡ true
        → finds_columns schema e scope ≡ true }
{}
