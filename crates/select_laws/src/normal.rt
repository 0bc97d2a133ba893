//! Laws of the normal form.

ghost use Rattle.std.specs.Prelude.{◌≡◌, IsTrue, true, List, [], length, is_ok};
ghost use Rattle.expr_types.specs.Normal.{normal};
ghost use Rattle.sql_semantics.specs.Kinds.{expression_kind};
ghost use Rattle.sql_semantics.specs.Plain.{fits, is_well_grouped};
ghost use Rattle.sql_semantics.specs.Eval.{Place, Row, meaning_of};
ghost use Rattle.select_laws.specs.Apart.{aggregates_apart, group_apart};
ghost use Rattle.select_laws.specs.Places.{FitsPlace, FitsGroup, FitsNoRows};

use base_core::TableId;
use expr_types::Expr;
use schema_core::Schema;

/// In every row the normal form of a typed expression has the same value, or the same first `DataError`. It does
/// nothing when it runs.
#[tactic(auto, using(crate::proofs::Meaning::in_every_row))]
pub fn same_in_every_row(schema: &Schema, scope: &[TableId], e: &Expr)
    requires fitting { IsTrue (fits schema.now e.now scope.now) }
    requires typed { IsTrue (is_ok (expression_kind schema.now e.now scope.now)) }
    ensures { (p : Place) → FitsPlace schema.now scope.now p
        → meaning_of (normal e.now) p ≡ meaning_of e.now p }
{}

/// The same of a group, for an expression in which, but in the operands of aggregates, no aggregate stands inside an `exists`. It does
/// nothing when it runs.
#[tactic(auto, using(crate::proofs::Meaning::in_every_group))]
pub fn same_in_every_group(schema: &Schema, scope: &[TableId], e: &Expr)
    requires fitting { IsTrue (fits schema.now e.now scope.now) }
    requires typed { IsTrue (is_ok (expression_kind schema.now e.now scope.now)) }
    requires apart { IsTrue (aggregates_apart e.now) }
    ensures { (p : Place) (members : List Row) → FitsGroup schema.now scope.now p members
        → meaning_of (normal e.now) p ≡ meaning_of e.now p }
{}

/// The same of a group without rows, for an expression in which, but in the operands of aggregates, no aggregate and no column of the
/// query's own sources stands inside an `exists`. It does nothing when it runs.
#[tactic(auto, using(crate::proofs::Meaning::in_no_rows_same))]
pub fn same_without_rows(schema: &Schema, scope: &[TableId], e: &Expr)
    requires fitting { IsTrue (fits schema.now e.now scope.now) }
    requires typed { IsTrue (is_ok (expression_kind schema.now e.now scope.now)) }
    requires apart { IsTrue (group_apart (length scope.now) e.now) }
    ensures { (p : Place) → FitsNoRows schema.now scope.now p
        → meaning_of (normal e.now) p ≡ meaning_of e.now p }
{}

/// The same where all rows are one group, with rows and without, for an expression of a plain select: it asks only for what such a
/// select has, where it has aggregates or a condition on groups and no group expressions. It does nothing when it runs.
#[tactic(auto, using(crate::proofs::OneGroup::one_group))]
pub fn same_in_one_group(schema: &Schema, scope: &[TableId], e: &Expr)
    requires fitting { IsTrue (fits schema.now e.now scope.now) }
    requires typed { IsTrue (is_ok (expression_kind schema.now e.now scope.now)) }
    requires settled { IsTrue (is_well_grouped true [] (length scope.now) (normal e.now)) }
    ensures rows { (p : Place) (members : List Row) → FitsGroup schema.now scope.now p members
        → meaning_of (normal e.now) p ≡ meaning_of e.now p }
    ensures no_rows { (p : Place) → FitsNoRows schema.now scope.now p
        → meaning_of (normal e.now) p ≡ meaning_of e.now p }
{}
