//! Lines that are resolved.

ghost use Rattle.std.specs.Prelude.{◌≡◌, false, IfErr};
ghost use Rattle.class_types.specs.Shown.{rules_of};
ghost use Rattle.keeper_core.specs.Programs.{ends_early};
ghost use Rattle.session_perform.specs.Performing.{IsReady};
ghost use Rattle.session_scopes.specs.SessionState.{IsInStep};
ghost use Rattle.script_laws.specs.Lines.{IsHaleBeside, LinesKeepWhole};

use base_core::Refusal;
use class_types::Hooks;
use command_resolve::{Answer, Resolved};
use keeper_core::Keeper;
use session_laws::{calls_keep_whole, preparations_keep_sessions_whole};
use session_load_laws::{readings_keep_sessions_whole, readings_tell_made_objects};
use session_perform::perform;
use session_scopes::Session;

/// Whatever a resolved line asks for, and whatever it answers, a session stays healthy and whole, where all that the line names is
/// there. It does nothing when it runs.
pub fn lines_keep_whole()
    ensures { LinesKeepWhole }
{
    calls_keep_whole();
    preparations_keep_sessions_whole();
    readings_keep_sessions_whole();
    readings_tell_made_objects();
}

/// Does what a resolved line asks for, as `perform` does. Over a keeper that tells its tables a session that is healthy and whole stays
/// so, whatever is answered, unless the store or memory ended the line early.
pub fn perform_whole<K: Keeper>(
    session: &mut Session,
    keeper: &mut K,
    hooks: &Hooks,
    resolved: Resolved,
) -> Result<Answer, Refusal>
    requires in_step { IsInStep session.old (K.moment keeper.old) }
    requires ready { IsReady session.old resolved }
    ensures hale { IsHaleBeside session.old (K.moment keeper.old).told
        → IfErr result (λ e. ends_early e ≡ false)
        → IsHaleBeside session.new (K.moment keeper.new).told }
{
    lines_keep_whole();
    perform(session, keeper, hooks, resolved)
}
