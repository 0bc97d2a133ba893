//! Sessions that stay whole: healthy, with objects that fit their classes and a handle for each savepoint in progress, so that nothing
//! is left to be assumed of a session before a call. Each law is the contract of a function that does nothing, so there
//! is no body that could be turned into a wrong one.

ghost use Rattle.class_mapping.specs.Mapped.{Mapped};
ghost use Rattle.session_laws.specs.Graphs.{IsWellMapped};
ghost use Rattle.session_laws.specs.Whole.{CallsKeepFit, CallsKeepLegal, CallsKeepWhole, IsHale, SessionsHaveOneForEachKey, new_world};

use crate::{
    a_flush_keeps_a_told_session_sound, an_answered_flush_of_a_told_session_leaves_sound,
    preparations_keep_sessions_whole,
};

#[tactic(auto, using(crate::proofs::Whole::Calls::new_whole))]
/// A new session over a configured mapping is whole beside a store without tables.
pub fn a_new_session_is_whole()
    ensures { (mapping : Mapped) → IsWellMapped mapping → IsHale (new_world mapping) }
{}

/// Over every configured mapping, with links, classes of several tables and discriminators: whatever calls are made one after another of a
/// healthy session that is whole, of classes, attributes, relationships and objects that are there, and whatever each answers, the
/// objects go on to fit their classes, and their links the relationships of these.
pub fn calls_keep_objects_fitting()
    ensures { CallsKeepFit }
{
    calls_keep_whole();
}

/// Whatever calls are made one after another, and whatever each answers, legal tables are left legal, those at the start of each scope in
/// progress too: of the session's objects nothing is asked but that the calls name what is there.
pub fn calls_keep_tables_legal()
    ensures { CallsKeepLegal }
{}

/// Whatever calls are made one after another, of classes, attributes, relationships and objects that are there, and whatever each
/// answers, a session stays healthy and whole: its objects fit their classes, and each savepoint in progress has a handle.
pub fn calls_keep_whole()
    ensures { CallsKeepWhole }
{
    preparations_keep_sessions_whole();
    a_flush_keeps_a_told_session_sound();
    an_answered_flush_of_a_told_session_leaves_sound();
}

/// From a new session on, whatever calls are made, one object stands for each key.
pub fn sessions_have_one_object_for_each_key()
    ensures { SessionsHaveOneForEachKey }
{
    calls_keep_whole();
}
