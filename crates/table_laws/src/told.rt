//! What a keeper tells of its tables, whatever its calls answer.

ghost use Rattle.std.specs.Prelude.{◌≡◌, ℕ, false, IfErr, IfSome, List, Ok, Result, Some, map};
ghost use Rattle.std.specs.List.Sorted.{IsStrictlySortedBy};
ghost use Rattle.base_core.specs.declared.ids.TableId.{TableId};
ghost use Rattle.base_core.specs.declared.refusal.Refusal.{Refusal};
ghost use Rattle.base_core.specs.declared.value.Value.{Value};
ghost use Rattle.base_core.specs.Order.{values_cmp};
ghost use Rattle.schema_core.specs.Catalog.{Catalog, spec_of};
ghost use Rattle.schema_core.specs.Tables.{key_of};
ghost use Rattle.schema_core.specs.WellFormed.{IsWellFormed};
ghost use Rattle.schema_core.specs.declared.statement.RowStmt.{RowStmt};
ghost use Rattle.expr_types.specs.declared.select.Bulk.{Bulk};
ghost use Rattle.expr_types.specs.declared.select.Select.{Select};
ghost use Rattle.sql_semantics.specs.Plain.{IsPlainBulk};
ghost use Rattle.keeper_core.specs.Moment.{Moment, Runs, Told};
ghost use Rattle.keeper_core.specs.Programs.{Run, ends_early};
ghost use Rattle.keeper_core.specs.Store.{Store};
ghost use Rattle.keeper_core.specs.declared.target.Target.{Target};
ghost use Rattle.keeper_core.specs.declared.target.Target.TheVariants as targets;
ghost use Rattle.keeper_core.specs.Keeping.{IsAttached, IsBulk, IsCall, IsQuery, IsScan, IsWrite};
ghost use Rattle.table_laws.specs.Legality.{IfTold, IsAscendingStore, IsLegalStore, KeepsAscending, KeepsLegal, KeepsLegalIn};

use keeper_core::Keeper;

/// What any keeper tells is legal once it took memory as its target. It stays legal after a call that nothing refuses and whose
/// program leaves a legal store legal, and after each statement: where the call answers, where it is refused, and where the store
/// fails or memory runs out.
pub fn what_is_told_stays_legal<K: Keeper, A>()
    ensures attached { (schema : Catalog) (old new : K)
        → IsAttached (K.moment old) targets.Memory (Ok tt) (K.moment new)
        → IfTold (IsLegalStore schema) (K.moment new).told }
    ensures called { (schema : Catalog) (m : Store → Run Store A) (scopes : ℕ) (old new : K)
        (result : Result A Refusal) → KeepsLegal schema m
        → IfTold (IsLegalStore schema) (K.moment old).told
        → IsCall K.moment m scopes old result new
        → IfTold (IsLegalStore schema) (K.moment new).told }
    ensures written { (schema : Catalog) (statement : RowStmt) (old new : K)
        (result : Result (List (List Value)) Refusal) → IsWellFormed schema statement
        → IfTold (IsLegalStore schema) (K.moment old).told
        → IsWrite K.moment schema statement old result new
        → IfTold (IsLegalStore schema) (K.moment new).told }
    ensures bulk { (schema : Catalog) (statement : Bulk) (old new : K) (result : Result ℕ Refusal)
        → IsPlainBulk schema statement → IfTold (IsLegalStore schema) (K.moment old).told
        → IsBulk K.moment schema statement old result new
        → IfTold (IsLegalStore schema) (K.moment new).told }
    ensures queried { (schema : Catalog) (select : Select) (old new : K)
        (result : Result (List (List Value)) Refusal)
        → IfTold (IsLegalStore schema) (K.moment old).told
        → IsQuery K.moment schema select old result new
        → IfTold (IsLegalStore schema) (K.moment new).told }
{}

/// The tables that any keeper tells are ascending by number, and their rows by key, once it took its target, and stay so after each of
/// its calls, whatever it is sent and whatever it answers.
pub fn what_is_told_stays_ascending<K: Keeper, A>()
    ensures attached { (target : Target) (old new : K)
        → IsAttached (K.moment old) target (Ok tt) (K.moment new)
        → IfTold IsAscendingStore (K.moment new).told }
    ensures called { (m : Store → Run Store A) (scopes : ℕ) (old new : K)
        (result : Result A Refusal) → KeepsAscending m
        → IfTold IsAscendingStore (K.moment old).told → IsCall K.moment m scopes old result new
        → IfTold IsAscendingStore (K.moment new).told }
    ensures written { (schema : Catalog) (statement : RowStmt) (old new : K)
        (result : Result (List (List Value)) Refusal)
        → IfTold IsAscendingStore (K.moment old).told
        → IsWrite K.moment schema statement old result new
        → IfTold IsAscendingStore (K.moment new).told }
    ensures bulk { (schema : Catalog) (statement : Bulk) (old new : K) (result : Result ℕ Refusal)
        → IfTold IsAscendingStore (K.moment old).told
        → IsBulk K.moment schema statement old result new
        → IfTold IsAscendingStore (K.moment new).told }
    ensures queried { (schema : Catalog) (select : Select) (old new : K)
        (result : Result (List (List Value)) Refusal)
        → IfTold IsAscendingStore (K.moment old).told
        → IsQuery K.moment schema select old result new
        → IfTold IsAscendingStore (K.moment new).told }
{}

/// A call of anything that tells its world leaves a legal store in it legal where its program does, unless it ended early: as a call
/// of a session, whose world is the store with the session beside it.
pub fn what_ran_leaves_legal<S, W, A, X>()
    ensures { (store_of : W → Store) (schema : Catalog) (tell : S → Moment W) (view : X → A)
        (m : W → Run W A) (old new : S) (told : Told W) (result : Result X Refusal)
        → KeepsLegalIn store_of schema m → (tell old).told ≡ Some told
        → IsLegalStore schema (store_of told.world)
        → IfErr result (λ e. ends_early e ≡ false) → Runs tell view m old result new
        → IfSome (tell new).told (λ now. IsLegalStore schema (store_of now.world)) }
{}

/// Where a keeper tells a legal store, the rows that its `scan` answers ascend by their keys.
pub fn what_is_scanned_ascends<K: Keeper>()
    ensures { (schema : Catalog) (table : TableId) (rows : List (List Value)) (told : Told Store)
        (old new : K) → (K.moment old).told ≡ Some told → IsLegalStore schema told.world
        → IsScan K.moment table old (Ok (Some rows)) new
        → IsStrictlySortedBy values_cmp (map (key_of (spec_of schema table)) rows) }
{}
