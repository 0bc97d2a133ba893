//! The names that answers bind.

ghost use Rattle.std.specs.Prelude.{◌≡◌, OnErr, OnOk};
ghost use Rattle.shell_stage.specs.Step as step;

use command_resolve::Answer;
use shell_parts::Names;
use std::alloc::AllocError;
use std::mem::drop;

/// What an answer binds is bound. Where memory runs out it leaves the names as they were.
pub fn bind(names: &mut Names, answer: Answer) -> Result<(), AllocError>
    ensures ok { OnOk result (names.new ≡ step.names_with answer names.old) }
    ensures err { OnErr result (names.new ≡ names.old) }
{
    match answer {
        Answer::Bind(name, thing) => names.bind(&name, thing),
        other => {
            drop(other);
            Ok(())
        }
    }
}
