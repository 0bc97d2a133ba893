//! Whole scripts.

ghost use Rattle.script_laws.specs.Scripts.{ScriptsEndWhole, ScriptsHaveOneForEachKey, ScriptsStayWhole};

use session_laws::{calls_keep_whole, preparations_keep_sessions_whole};
use session_load_laws::{readings_keep_sessions_whole, readings_tell_made_objects};

/// Whatever the lines of a script are, fewer than 2^32 of them, and whatever each answers: its session is healthy and whole behind every
/// line, beside the store that the lines made, and what names stand for is there. It does nothing when it runs.
pub fn scripts_stay_whole()
    ensures { ScriptsStayWhole }
{
    calls_keep_whole();
    preparations_keep_sessions_whole();
    readings_keep_sessions_whole();
    readings_tell_made_objects();
}

/// Whatever the bytes of a script are: so it is behind its end, where a block that is open is refused and the session is closed. It does
/// nothing when it runs.
pub fn scripts_end_whole()
    ensures { ScriptsEndWhole }
{
    calls_keep_whole();
    preparations_keep_sessions_whole();
    readings_keep_sessions_whole();
    readings_tell_made_objects();
}

/// Behind every line of a script one object stands for each key. It does nothing when it runs.
pub fn scripts_have_one_object_for_each_key()
    ensures { ScriptsHaveOneForEachKey }
{
    scripts_stay_whole();
}
