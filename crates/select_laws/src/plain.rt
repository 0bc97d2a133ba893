//! Laws of the normal form of a select.

ghost use Rattle.std.specs.Prelude.{◌≡◌, ℕ};
ghost use Rattle.expr_types.specs.Normal.{normal};
ghost use Rattle.expr_types.specs.NormalSelect.{normal_select};
ghost use Rattle.sql_semantics.specs.Plain.{IsPlainSelect};
ghost use Rattle.sql_semantics.specs.Typed.{IsTypedSelect};
ghost use Rattle.sql_semantics.specs.Eval.{Tables};
ghost use Rattle.sql_semantics.specs.Rows.{answer};
ghost use Rattle.sql_semantics.specs.Shapes.{AreRows};
ghost use Rattle.select_laws.specs.Apart.{group_apart};

use expr_types::{Expr, Select};
use schema_core::Schema;

/// The normal form of a typed select is plain. It does nothing when it runs.
pub fn plain_in_normal_form(schema: &Schema, select: &Select)
    requires { IsTypedSelect schema.now select.now }
    ensures { IsPlainSelect schema.now (normal_select select.now) }
{}

/// The normal form has aggregates and columns of outer sources apart from each `exists` exactly where what was written has. So the
/// conditions of the laws for groups may be judged on either. It does nothing when it runs.
#[tactic(auto, using(crate::proofs::KeptApart::apart_kept))]
pub fn apart_in_normal_form(e: &Expr)
    ensures { (outer : ℕ) → group_apart outer (normal e.now) ≡ group_apart outer e.now }
{}

/// The answer of a typed select and of its normal form are one, rows and refusals alike, over all tables whose rows fit their columns. It
/// does nothing when it runs.
pub fn same_answer(schema: &Schema, select: &Select)
    requires { IsTypedSelect schema.now select.now }
    ensures { (tables : Tables) → AreRows schema.now tables
        → answer schema.now tables (normal_select select.now)
        ≡ answer schema.now tables select.now }
{}
