//! When a flush answers, completeness, and which rows one that answers leaves. Each law is the contract of a function that calls the
//! laws that it rests on, so there is no body that could be wrong.

ghost use Rattle.session_laws.specs.Complete.{CommitsAnswer, CommitsLeaveStatedRows, FlushesAnswer, FlushesAreBuilt, FlushesInsideLeaveStatedRows, FlushesLeaveStatedRows, SavepointsAnswer, SavepointsLeaveStatedRows};

use crate::preparation_laws::preparations_keep_sessions_whole;
use crate::sendable_laws::{changes_fit, fit_plans_are_sendable};
use crate::{
    a_flush_leaves_the_stated_rows, a_flush_of_stated_tables_answers, a_flush_sends_its_plan,
};

/// In a sound session over every mapping whose objects fit it, in which no rollback is awaited, with objects that are to be deleted and
/// orphans, whether keys have been changed or not, a flush answers and leaves the tables that the objects state. That is so whenever what
/// is to be known of the objects that are to be deleted can be read, and the stated tables are legal, their new rows have keys, no row
/// waits for itself, no unique value passes between rows, no foreign key is guessed, and no deleted row holds a value in a column of a
/// foreign key that is no attribute of its object's class, since another class owns it. So do a commit, and the beginning of a savepoint
/// where fewer than 64 are open.
pub fn stated_objects_are_written()
    ensures flush { FlushesAnswer }
    ensures commit { CommitsAnswer }
    ensures begin { SavepointsAnswer }
{
    a_flush_of_stated_tables_answers();
    preparations_keep_sessions_whole();
    fit_plans_are_sendable();
    changes_fit();
}

/// In such a session no flush is refused as not built: each statement of its plan fits the schema when it is sent.
pub fn flushes_are_built()
    ensures { FlushesAreBuilt }
{
    preparations_keep_sessions_whole();
    fit_plans_are_sendable();
    changes_fit();
}

/// In such a session a flush that answers leaves exactly the rows that the objects state, once all is read that is to be known of those
/// that are to be deleted: the old ones without those of deleted objects and of pairs that are taken away, with the changed cells written
/// and the new rows put in. Every other row is as it was, one of which no cell is written among them. So does a commit that answers, the
/// beginning of a savepoint, and a flush in a transaction.
pub fn flushes_leave_the_stated_rows()
    ensures flush { FlushesLeaveStatedRows }
    ensures commit { CommitsLeaveStatedRows }
    ensures begin { SavepointsLeaveStatedRows }
    ensures inside { FlushesInsideLeaveStatedRows }
{
    a_flush_sends_its_plan();
    a_flush_leaves_the_stated_rows();
    preparations_keep_sessions_whole();
}
