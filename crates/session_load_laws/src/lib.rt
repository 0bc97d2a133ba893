//! A session that runs a load stays sound, healthy and whole: what programs of loads leave of objects is what a session may take in. Each
//! law is the contract of a function that does nothing, and names the laws on which it rests.
#![tactic(auto)]

ghost use Rattle.session_load_laws.specs.Loads.{LoadsKeepSessionsWhole, LoadsLeaveLoaded};
ghost use Rattle.session_load_laws.specs.Readings.{
  GetsTellMade,
  LinksTellMade,
  QueriesTellMade,
  ReadingsGoOn,
  ReadingsKeepWhole,
};

use ranked_rows::{
    main_selects_answer_table_rows, own_selects_answer_table_rows, selects_answer_table_rows,
};
use session_laws::{
    a_flush_keeps_a_told_session_sound, an_answered_flush_of_a_told_session_leaves_sound,
    preparations_keep_sessions_whole,
};

/// Whatever a load answers, it leaves the store as it was, and of a whole session's objects what a session may take in: they fit, one
/// stands for each key, those that there were stand as they stood, at most expired cells of them were filled, from their rows, and links
/// loaded; others were made behind them, persistent; and each that was made or that differs is noted.
pub fn loads_leave_loaded()
    ensures { LoadsLeaveLoaded }
{
    selects_answer_table_rows();
    own_selects_answer_table_rows();
    main_selects_answer_table_rows();
}

/// Whatever a load answers, a session that runs it in a transaction, of objects, relationships and classes that are there, stays
/// whole: sound, healthy, with objects that fit their classes, and one for each key.
pub fn loads_keep_sessions_whole()
    ensures { LoadsKeepSessionsWhole }
{
    loads_leave_loaded();
}

/// Whatever a call answers that reads rows into objects, a whole session stays whole: the value of a cell, what a link leads to, the
/// change of a collection that is to be loaded, the object of a class under a key, the objects of a query, and an object that is read
/// anew, with those expired that hang on it. Each object that there was is there still, of its class.
pub fn readings_keep_sessions_whole()
    ensures whole { ReadingsKeepWhole }
    ensures goes { ReadingsGoOn }
{
    selects_answer_table_rows();
    own_selects_answer_table_rows();
    main_selects_answer_table_rows();
    preparations_keep_sessions_whole();
    a_flush_keeps_a_told_session_sound();
    an_answered_flush_of_a_told_session_leaves_sound();
}

/// What such a call answers that names objects names those that have been made: the object of a key, the objects of a query, and those
/// to which a link leads.
pub fn readings_tell_made_objects()
    ensures keys { GetsTellMade }
    ensures queries { QueriesTellMade }
    ensures links { LinksTellMade }
{
    selects_answer_table_rows();
    own_selects_answer_table_rows();
    main_selects_answer_table_rows();
    preparations_keep_sessions_whole();
    a_flush_keeps_a_told_session_sound();
    an_answered_flush_of_a_told_session_leaves_sound();
}
