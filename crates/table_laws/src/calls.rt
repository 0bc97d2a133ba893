//! The calls of a keeper as programs of the store.

ghost use Rattle.std.specs.Prelude.{ℕ, List, Contains};
ghost use Rattle.base_core.specs.declared.ids.TableId.{TableId};
ghost use Rattle.schema_core.specs.declared.statement.RowStmt.{RowStmt};
ghost use Rattle.schema_core.specs.Catalog.{Catalog, IsTable};
ghost use Rattle.schema_core.specs.WellFormed.{IsWellFormed};
ghost use Rattle.expr_types.specs.declared.select.Bulk.{Bulk};
ghost use Rattle.expr_types.specs.declared.select.Select.{Select};
ghost use Rattle.sql_semantics.specs.Plain.{IsPlainBulk};
ghost use Rattle.keeper_core.specs.Calls as call;
ghost use Rattle.table_laws.specs.Legality.{KeepsAscending, KeepsLegal, drop_each};

#[tactic(auto, using(crate::proofs::EachCall::create_legal, crate::proofs::EachCall::keeps_begin, crate::proofs::EachCall::keeps_savepoint, crate::proofs::EachCall::keeps_release, crate::proofs::EachCall::keeps_rollback_to, crate::proofs::EachCall::keeps_rollback, crate::proofs::EachCall::keeps_commit, crate::proofs::EachCall::write_legal, crate::proofs::EachCall::keeps_query, crate::proofs::EachCall::keeps_scan, crate::proofs::Accepted::keeps_bulk_legal))]
/// Each call of a keeper leaves a legal store legal, but one that drops a table to which others may refer.
pub fn calls_keep_legal()
    ensures create { (schema : Catalog) (table : TableId) → IsTable schema table
        → KeepsLegal schema (call.create table) }
    ensures begin { (schema : Catalog) → KeepsLegal schema call.begin }
    ensures savepoint { (schema : Catalog) → KeepsLegal schema call.savepoint }
    ensures release { (schema : Catalog) → KeepsLegal schema call.release }
    ensures rollback_to { (schema : Catalog) (number : ℕ)
        → KeepsLegal schema (call.rollback_to number) }
    ensures rollback { (schema : Catalog) → KeepsLegal schema call.rollback }
    ensures commit { (schema : Catalog) → KeepsLegal schema call.commit }
    ensures write { (schema : Catalog) (statement : RowStmt) → IsWellFormed schema statement
        → KeepsLegal schema (call.write schema statement) }
    ensures bulk { (schema : Catalog) (statement : Bulk) → IsPlainBulk schema statement
        → KeepsLegal schema (call.bulk schema statement) }
    ensures query { (schema : Catalog) (select : Select)
        → KeepsLegal schema (call.query schema select) }
    ensures scan { (schema : Catalog) (table : TableId) → KeepsLegal schema (call.scan table) }
{}

#[tactic(auto, using(crate::proofs::EachCall::create_ascends, crate::proofs::EachCall::drop_ascends, crate::proofs::EachCall::keeps_begin, crate::proofs::EachCall::keeps_savepoint, crate::proofs::EachCall::keeps_release, crate::proofs::EachCall::keeps_rollback_to, crate::proofs::EachCall::keeps_rollback, crate::proofs::EachCall::keeps_commit, crate::proofs::EachCall::write_ascends, crate::proofs::EachCall::keeps_query, crate::proofs::EachCall::keeps_scan, crate::proofs::Accepted::keeps_bulk_ascending))]
/// Every call of a keeper, whatever it is sent, leaves tables that are ascending by number, and their rows by key, ascending.
pub fn calls_keep_ascending()
    ensures create { (table : TableId) → KeepsAscending (call.create table) }
    ensures drop_table { (table : TableId) → KeepsAscending (call.drop_table table) }
    ensures begin { KeepsAscending call.begin }
    ensures savepoint { KeepsAscending call.savepoint }
    ensures release { KeepsAscending call.release }
    ensures rollback_to { (number : ℕ) → KeepsAscending (call.rollback_to number) }
    ensures rollback { KeepsAscending call.rollback }
    ensures commit { KeepsAscending call.commit }
    ensures write { (schema : Catalog) (statement : RowStmt)
        → KeepsAscending (call.write schema statement) }
    ensures bulk { (schema : Catalog) (statement : Bulk)
        → KeepsAscending (call.bulk schema statement) }
    ensures query { (schema : Catalog) (select : Select)
        → KeepsAscending (call.query schema select) }
    ensures scan { (table : TableId) → KeepsAscending (call.scan table) }
{}

#[tactic(auto, using(crate::proofs::Dropped::keeps_dropping))]
/// Where every declared table is dropped, one after another in whatever order, a legal store is legal at the end.
pub fn drop_all_keeps_legal()
    ensures { (schema : Catalog) (order : List TableId)
        → ((table : TableId) → IsTable schema table → Contains order table)
        → KeepsLegal schema (drop_each order) }
{}
