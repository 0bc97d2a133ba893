//! Sessions that are healthy: sound, over tables that ascend, and such that every call finds what it needs. Every call
//! keeps them so, whatever it answers. Each law is the contract of a function that does nothing, so there is no body that could be
//! turned into a wrong one.

ghost use Rattle.std.specs.Prelude.{◌≡◌, [], false, IfErr, IfSome, Result, Some};
ghost use Rattle.base_core.specs.declared.refusal.Refusal.{Refusal};
ghost use Rattle.class_mapping.specs.Mapped.{Mapped};
ghost use Rattle.session_laws.specs.Graphs.{IsWellMapped};
ghost use Rattle.keeper_core.specs.Moment.{Told};
ghost use Rattle.keeper_core.specs.Programs.{Run, ends_early};
ghost use Rattle.keeper_core.specs.Store.{Store};
ghost use Rattle.session_acts.specs.Steps as acts;
ghost use Rattle.session_calls.specs.Calling.{IsSessionCall};
ghost use Rattle.session_calls.specs.Parts.{World};
ghost use Rattle.session_laws.specs.Flushes.{world_of};
ghost use Rattle.session_scopes.specs.SessionState.{SessionState, new_session};
ghost use Rattle.session_laws.specs.Health.Calls.{CallsKeepHealth, CallsKeepOne};
ghost use Rattle.session_laws.specs.Health.Health.{IsHealthy, KeepsHealthWhole};

use crate::{
    a_flush_keeps_a_told_session_sound, an_answered_flush_of_a_told_session_leaves_sound,
    preparations_keep_sessions_whole,
};
use keeper_core::Keeper;

#[tactic(auto, using(crate::proofs::Health::Calls::new_healthy))]
/// A new session over a configured mapping is healthy beside a store without tables.
pub fn a_new_session_is_healthy()
    ensures { (mapping : Mapped) → IsWellMapped mapping → IsHealthy (record {
      own = new_session mapping;
      store = record { tables = []; scopes = [] };
    }) }
{}

/// Calls that flush keep a session healthy, whether the flush or the act behind it answers or is refused: the flush itself, the commit
/// of the transaction, and the beginning of a savepoint. Its classes are of any form, and rows are taken away too.
pub fn flushing_calls_keep_health()
    ensures flush { KeepsHealthWhole acts.flush_now }
    ensures commit { KeepsHealthWhole acts.commit }
    ensures nested { KeepsHealthWhole acts.begin_nested }
{
    preparations_keep_sessions_whole();
    a_flush_keeps_a_told_session_sound();
    an_answered_flush_of_a_told_session_leaves_sound();
}

/// Whatever calls are made one after another, and whatever each answers, a healthy session stays healthy: what is known of its objects is
/// what their rows hold, its tables are legal, and each rollback finds what it is to restore.
pub fn calls_keep_health()
    ensures { CallsKeepHealth }
{
    preparations_keep_sessions_whole();
    a_flush_keeps_a_told_session_sound();
    an_answered_flush_of_a_told_session_leaves_sound();
}

/// After every call one object stands for each key.
pub fn one_object_stands_for_each_key()
    ensures { CallsKeepOne }
{
    calls_keep_health();
}

/// What a keeper tells after a call of a session, with the session then, is healthy where the call's program leaves it so, unless the
/// store or memory ended the call early.
pub fn what_is_told_stays_healthy<K: Keeper, A, X>()
    ensures { (view : X → A) (m : World → Run World A) (own now : SessionState) (old new : K)
        (told : Told Store) (result : Result X Refusal) → (K.moment old).told ≡ Some told
        → IsHealthy (m (world_of own told)).after → IfErr result (λ e. ends_early e ≡ false)
        → IsSessionCall K.moment view m (own, old) result (now, new)
        → IfSome (K.moment new).told (λ t. IsHealthy (world_of now t)) }
{}
