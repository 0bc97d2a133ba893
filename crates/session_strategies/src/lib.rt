//! The strategies of loading at a session's calls: lazy, joined and select-in loading answer the same objects in one order and fill the
//! same links, behind the flush that each call begins with. Each law is the contract of a function that does nothing, and names the laws
//! on which it rests.
#![tactic(auto)]

ghost use Rattle.session_strategies.specs.Statements.{SelectinsAskInBatches};
ghost use Rattle.session_strategies.specs.Strategies.{
  CallsAnswerAlike,
  CallsFillAlike,
  CallsReadAlike,
  FlushesLeaveNothing,
  FlushesOfNothingStay,
  LoadsLeaveNothing,
};

use ranked_rows::{
    main_selects_answer_table_rows, own_selects_answer_table_rows, selects_answer_table_rows,
};
use session_laws::{
    a_flush_keeps_a_told_session_sound, an_answered_flush_of_a_told_session_leaves_sound,
    preparations_keep_sessions_whole,
};
use session_load_laws::{loads_leave_loaded, readings_tell_made_objects};

/// One select-in option more, behind those that a query has, sends behind what the query sends without it one select for each 500 keys,
/// of which the last may have fewer, and none where there is no key: of the owners among its objects whose collections are unloaded then,
/// or of the targets of unloaded links that the identity map lacks.
pub fn selectins_ask_in_batches()
    ensures { SelectinsAskInBatches }
{
    preparations_keep_sessions_whole();
    a_flush_keeps_a_told_session_sound();
    an_answered_flush_of_a_told_session_leaves_sound();
    readings_tell_made_objects();
}

/// A flush that answers leaves nothing to flush: no object is pending or marked, no persistent one was left by its parent, what is known
/// of its cells is what its rows hold, and none of its links is changed.
pub fn flushes_leave_nothing()
    ensures { FlushesLeaveNothing }
{
    an_answered_flush_of_a_told_session_leaves_sound();
}

/// Where nothing is left to flush, a flush that answers leaves the objects, the tables and the scopes as they are.
pub fn flushes_of_nothing_stay()
    ensures { FlushesOfNothingStay }
{}

/// A load of a whole session of which nothing is left to flush leaves nothing to flush, whatever it answers: what it fills is what the
/// rows hold, and the links that it loads are not changed.
pub fn loads_leave_nothing()
    ensures { LoadsLeaveNothing }
{
    selects_answer_table_rows();
    own_selects_answer_table_rows();
    main_selects_answer_table_rows();
    loads_leave_loaded();
}

/// The objects of a query that are asked for without options, with its joined options and with its select-in options are of the same
/// identities, in the same order and each once.
pub fn calls_answer_alike()
    ensures { CallsAnswerAlike }
{
    preparations_keep_sessions_whole();
    a_flush_keeps_a_told_session_sound();
    an_answered_flush_of_a_told_session_leaves_sound();
}

/// The link of such an object, at the place of an option, holds behind the call with joined options and behind the call with select-in
/// options the persistent objects of the rows that are related to it, in the order of their keys and each once. It was unloaded once all
/// was written, and behind the call without options and the one with select-in options each persistent object whose row is there is of
/// the class that the row names and has of its hierarchy's tables a row in just those of its class.
pub fn calls_fill_alike()
    ensures { CallsFillAlike }
{
    preparations_keep_sessions_whole();
    a_flush_keeps_a_told_session_sound();
    an_answered_flush_of_a_told_session_leaves_sound();
}

/// So does the link of the object that the call without options answered, where it is one of those that are read one after another behind
/// that call: with objects of the same identities, in the same order, as both calls with options filled it. Behind the reads too
/// persistent objects are to be of the classes that their rows name.
pub fn calls_read_alike()
    ensures { CallsReadAlike }
{
    preparations_keep_sessions_whole();
    a_flush_keeps_a_told_session_sound();
    an_answered_flush_of_a_told_session_leaves_sound();
    selects_answer_table_rows();
    own_selects_answer_table_rows();
    main_selects_answer_table_rows();
    loads_leave_loaded();
}
