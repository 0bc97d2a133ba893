//! Sessions that are sound: what their objects hold is what the store has.

ghost use Rattle.std.specs.Prelude.{ℕ, []};
ghost use Rattle.base_core.specs.declared.ids.AttrNo.{AttrNo};
ghost use Rattle.base_core.specs.declared.value.Value.{Value};
ghost use Rattle.class_mapping.specs.Mapped.{Mapped};
ghost use Rattle.session_scopes.specs.SessionState.{new_session};
ghost use Rattle.session_calls.specs.Parts.{go_back};
ghost use Rattle.session_calls.specs.Steps as steps;
ghost use Rattle.session_laws.specs.Sound.{IsHandled, IsInProgress, IsSound, KeepsSound, KeepsSoundOf, KeepsSoundWhere};

#[tactic(auto, using(crate::proofs::Sound::Beginning::new_sound))]
/// A new session is sound beside a store without tables.
pub fn a_new_session_is_sound()
    ensures { (mapping : Mapped) → IsSound (record {
      own = new_session mapping;
      store = record { tables = []; scopes = [] };
    }) }
{}

/// The beginning of a transaction keeps a session sound, and so does its refusal: where no transaction is in progress nothing is
/// pending or to be deleted, and what is known of objects is what the tables have.
pub fn entering_keeps_sound()
    ensures { KeepsSound steps.enter }
{}

/// What is done to one object keeps a session sound, whether it is refused or not: a value in a cell, and a delete mark.
pub fn calls_on_objects_keep_sound()
    ensures set { (attr : AttrNo) (value : Value)
        → KeepsSoundOf (λ object. steps.set_cell object attr value) }
    ensures delete { KeepsSoundOf steps.delete }
{}

/// The close of a session leaves it sound.
pub fn closing_keeps_sound()
    ensures { KeepsSound steps.close }
{}

/// Rollbacks leave a session sound: of the scope at a depth, of the transaction, and of a savepoint by its handle, also where a
/// failed flush awaits its rollback.
pub fn rolling_back_keeps_sound()
    ensures scope { (depth : ℕ) → KeepsSoundWhere (IsInProgress depth) (go_back depth) }
    ensures rollback { KeepsSound steps.rollback }
    ensures handle { (handle : ℕ) → KeepsSoundWhere IsHandled (steps.rollback_handle handle) }
{}
