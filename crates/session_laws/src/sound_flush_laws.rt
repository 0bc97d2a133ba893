//! A flush leaves a session sound, whatever it answers. Each law is the contract of a function that does nothing, so there is no body
//! that could be turned into a wrong one.

ghost use Rattle.session_laws.specs.SoundFlushes.{RefusedFlushIsSound, ToldFlushIsSound, ToldFlushKeepsSound};

use crate::a_flush_leaves_legal_tables;
use crate::held_laws::flushed_objects_hold;
use crate::own_row_laws::objects_have_own_rows;
use crate::preparation_laws::preparations_keep_sessions_whole;

/// Whatever a flush is refused for, in the transaction or in a savepoint, and whatever it read and wrote before: the session is sound
/// then. The tables are those of the start of the scope, and each object stands where it stood then.
pub fn a_refused_flush_leaves_sound()
    ensures { RefusedFlushIsSound }
{
    preparations_keep_sessions_whole();
}

/// A flush that answers leaves a sound session, over a mapping of any form: with links over foreign keys and secondary tables, with
/// classes of several tables and with discriminators; with objects that are to be deleted, whatever is known of them and whatever links
/// they have, and pairs that are taken away.
pub fn an_answered_flush_of_a_told_session_leaves_sound()
    ensures { ToldFlushIsSound }
{
    preparations_keep_sessions_whole();
    flushed_objects_hold();
    objects_have_own_rows();
    a_flush_leaves_legal_tables();
}

/// A flush keeps such a session sound, whatever it answers.
pub fn a_flush_keeps_a_told_session_sound()
    ensures { ToldFlushKeepsSound }
{
    an_answered_flush_of_a_told_session_leaves_sound();
    a_refused_flush_leaves_sound();
}
