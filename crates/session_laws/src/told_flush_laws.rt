//! Laws of the flush of a session over a store that is told: what a flush that answers has sent and leaves, and that no flush leaves
//! tables that are not legal. Each is the contract of a function that does nothing, so there is no body that could be turned into a
//! wrong one.
#![tactic(auto, using(crate::proofs::Flushes::LawProofs::flush_laws))]

ghost use Rattle.std.specs.Prelude.{◌≡◌, Ok, Some};
ghost use Rattle.keeper_core.specs.Moment.{Told};
ghost use Rattle.keeper_core.specs.Store.{Store};
ghost use Rattle.session_calls.specs.Calling.{IsSessionCall};
ghost use Rattle.session_acts.specs.Flush.{flush};
ghost use Rattle.session_laws.specs.Flushes as law;
ghost use Rattle.session_scopes.specs.SessionState.{SessionState};

use keeper_core::Keeper;

/// A flush that answered, over a keeper that tells, is the flush of what the keeper told before it: what it tells then, and the
/// session, are what that leaves, and the outside has seen what that sends. So the laws here hold of it.
pub fn a_told_flush_is_its_run<K: Keeper>()
    ensures { (own now : SessionState) (old new : K) (told : Told Store)
        → (K.moment old).told ≡ Some told
        → IsSessionCall K.moment (λ u. u) flush (own, old) (Ok tt) (now, new)
        → law.IsRunOf (law.world_of own told) told.log now (K.moment new).told }
{}

/// A flush that answers has read what is to be known of the objects that are to be deleted, and then sent the plan of what the objects
/// change whole; each statement was accepted by the tables that those before it left.
pub fn a_flush_sends_its_plan()
    ensures { law.SendsItsPlan }
{}

/// What a flush that answers sends is the selects of what it reads, and the statements of its plan, in order, each with the keys that are
/// known by then, and no more.
pub fn a_flush_sends_planned_statements()
    ensures { law.SendsPlannedStatements }
{}

/// A flush whose reading answers, and for which there is a plan then, each statement of which fits the schema and is accepted by the tables
/// so far, answers, and leaves the tables of that.
pub fn an_accepted_flush_answers()
    ensures { law.AnswersWhereAccepted }
{}

/// A flush right after one that answers reads and sends nothing, and answers, where only persistent objects were marked.
pub fn a_second_flush_sends_nothing()
    ensures { law.SendsNothingAgain }
{}

/// Whatever a flush answers, legal tables are left legal, now and at the start of each scope.
pub fn a_flush_leaves_legal_tables()
    ensures { law.LeavesLegalTables }
{}
