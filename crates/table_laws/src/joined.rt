//! The ways in which programs are joined.

ghost use Rattle.std.specs.Prelude.{◌≡◌, List, Result, Ok, Err};
ghost use Rattle.std.specs.List.{AllByRecursion};
ghost use Rattle.base_core.specs.declared.refusal.Refusal.{Refusal};
ghost use Rattle.schema_core.specs.Catalog.{Catalog};
ghost use Rattle.keeper_core.specs.Beside.{Beside, by_own, changes, on_own, on_store};
ghost use Rattle.keeper_core.specs.Programs.{Event, Run, ◌>>=◌ as then_run, ask, becomes, handle_refusal, change, each, give, with_undo, quiet, refuse, rescue};
ghost use Rattle.keeper_core.specs.Store.{Store};
ghost use Rattle.table_laws.specs.Legality.{IsLegalStore, KeepsLegal, KeepsLegalBeside, KeepsLegalIn};

#[tactic(auto, using(crate::proofs::EachJoin::keeps_give, crate::proofs::EachJoin::keeps_quiet, crate::proofs::EachJoin::keeps_refuse, crate::proofs::EachJoin::keeps_asked, crate::proofs::EachJoin::keeps_change, crate::proofs::EachJoin::keeps_becomes))]
/// Programs that send nothing leave a legal store legal: those that change nothing, and those whose change of the world does.
pub fn quiet_programs_keep_legal<W, A>()
    ensures give { (store_of : W → Store) (schema : Catalog) (answer : A)
        → KeepsLegalIn store_of schema (give answer) }
    ensures quiet { (store_of : W → Store) (schema : Catalog) (answer : Result A Refusal)
        → KeepsLegalIn store_of schema (quiet answer) }
    ensures refuse { (store_of : W → Store) (schema : Catalog) (e : Refusal)
        → KeepsLegalIn {A = A} store_of schema (refuse e) }
    ensures ask { (store_of : W → Store) (schema : Catalog) (question : W → Result A Refusal)
        → KeepsLegalIn store_of schema (ask question) }
    ensures change { (store_of : W → Store) (schema : Catalog) (f : W → W)
        → ((w : W) → IsLegalStore schema (store_of w) → IsLegalStore schema (store_of (f w)))
        → KeepsLegalIn store_of schema (change f) }
    ensures becomes { (store_of : W → Store) (schema : Catalog) (step : W → Result W Refusal)
        → ((w now : W) → IsLegalStore schema (store_of w) → step w ≡ Ok now
        → IsLegalStore schema (store_of now)) → KeepsLegalIn store_of schema (becomes step) }
{}

#[tactic(auto, using(crate::proofs::EachJoin::keeps_then, crate::proofs::EachJoin::keeps_each, crate::proofs::EachJoin::keeps_caught, crate::proofs::EachJoin::keeps_guarded, crate::proofs::EachJoin::keeps_rescued))]
/// Programs that are joined leave a legal store legal where each of them does, whatever they answer and wherever one refuses. What
/// goes on from an answer, or from a refusal, need do so only where the first program gives it of a legal store, and the step
/// that is done for each item only for the items of the list.
pub fn joined_programs_keep_legal<W, A, B, S>()
    ensures then { (store_of : W → Store) (schema : Catalog) (m : W → Run W A)
        (next : A → W → Run W B) → KeepsLegalIn store_of schema m
        → ((w : W) (answer : A) → IsLegalStore schema (store_of w) → (m w).answer ≡ Ok answer
        → KeepsLegalIn store_of schema (next answer))
        → KeepsLegalIn store_of schema (then_run m next) }
    ensures each { (store_of : W → Store) (schema : Catalog) (step : A → S → W → Run W S) (s : S)
        (items : List A)
        → AllByRecursion (λ item. (s : S) → KeepsLegalIn store_of schema (step item s)) items
        → KeepsLegalIn store_of schema (each step s items) }
    ensures handle_refusal { (store_of : W → Store) (schema : Catalog) (instead : Refusal → W → Run W A)
        (m : W → Run W A) → KeepsLegalIn store_of schema m
        → ((w : W) (e : Refusal) → IsLegalStore schema (store_of w) → (m w).answer ≡ Err e
        → KeepsLegalIn store_of schema (instead e))
        → KeepsLegalIn store_of schema (handle_refusal instead m) }
    ensures with_undo { (store_of : W → Store) (schema : Catalog) (m : W → Run W A)
        (undo : W → Run W (Unit {0})) → KeepsLegalIn store_of schema m
        → KeepsLegalIn store_of schema undo → KeepsLegalIn store_of schema (with_undo m undo) }
    ensures rescue { (store_of : W → Store) (schema : Catalog) (text : Refusal → A)
        (m : W → Run W A) → KeepsLegalIn store_of schema m
        → KeepsLegalIn store_of schema (rescue text m) }
{}

/// A program of the store leaves it legal also where something stands beside it, and programs of what stands there leave it as it is.
pub fn programs_beside_keep_legal<S, A>()
    ensures on_store { (schema : Catalog) (note : List Event → S → S) (m : Store → Run Store A)
        → KeepsLegal schema m → KeepsLegalBeside schema (on_store note m) }
    ensures on_own { (schema : Catalog) (m : S → Run S A) → KeepsLegalBeside schema (on_own m) }
    ensures changes { (schema : Catalog) (f : S → S) → KeepsLegalBeside schema (changes f) }
    ensures by_own { (schema : Catalog) (choose : S → Beside S → Run (Beside S) A)
        → ((own : S) → KeepsLegalBeside schema (choose own))
        → KeepsLegalBeside schema (by_own choose) }
{}
