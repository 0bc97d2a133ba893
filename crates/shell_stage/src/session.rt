//! A command of the session over a keeper.

ghost use Rattle.std.specs.Prelude.{ℕ, IfErr, IfOk};
ghost use Rattle.base_core.specs.Answers.{Gives};
ghost use Rattle.class_types.specs.Shown.{rules_of};
ghost use Rattle.object_arena.specs.Graph.{Graph};
ghost use Rattle.command_names.specs.Standing.{AreOfDeclared, AreThere};
ghost use Rattle.command_resolve.specs.Standing.{IsResolved};
ghost use Rattle.statement_lines.specs.CompiledLines.{IsOfCompiling};
ghost use Rattle.sayable_lines.specs.Sayable.{IsSayable};
ghost use Rattle.session_scopes.specs.SessionState.{IsInStep};
ghost use Rattle.shell_stage.specs.Asking as asking;
ghost use Rattle.shell_stage.specs.Calls.{IsCommandCall};
ghost use Rattle.shell_stage.specs.Step as step;

use base_core::{Dialect, Refusal};
use class_mapping::Mapping;
use class_types::Hooks;
use command_resolve::{Answer, Resolved, resolve};
use keeper_core::Keeper;
use script_types::Command;
use session_perform::perform;
use session_scopes::Session;
use shell_parts::Names;
use statement_lines::compile_tables;
use std::alloc::Global;

/// Does what a line asks for.
///
/// # Errors
/// The first that there is: where the line makes all tables, `CompileError` of one that has no text in the dialect; then of the
/// line's names and values, as `resolve` answers it, with nothing begun; then what `perform` refuses.
pub fn perform_line<K: Keeper>(
    alloc: Global,
    hooks: &Hooks,
    dialect: Dialect,
    names: &Names,
    session: &mut Session,
    keeper: &mut K,
    command: &Command,
) -> Result<Answer, Refusal>
    requires in_step { IsInStep session.old (K.moment keeper.old) }
    requires there { AreThere session.old.graph session.old.drawn.drawn names.now }
    requires declared { AreOfDeclared session.old.mapping names.now }
    requires sayable { IsSayable command.now }
    ensures { IsCommandCall K.moment
        (step.performed (rules_of hooks.now) dialect names.now command.now)
        (session.old, keeper.old) result (session.new, keeper.new) }
{
    let resolved = resolve_line(alloc, dialect, session.mapping(), names, command)?;
    perform(session, keeper, hooks, resolved)
}

/// What a line asks for.
#[tactic(auto, using(crate::proofs::Asking::asking))]
fn resolve_line(
    alloc: Global,
    dialect: Dialect,
    mapping: &Mapping,
    names: &Names,
    command: &Command,
) -> Result<Resolved, Refusal>
    requires sayable { IsSayable command.now }
    requires declared { AreOfDeclared mapping.now names.now }
    ensures line { Gives (λ line. line) result
        (asking.asked dialect mapping.now names.now command.now) }
    ensures cause { IfErr result asking.IsOfAsking }
    ensures stands { (graph : Graph) → (drawn : ℕ) → AreThere graph drawn names.now
        → IfOk result (IsResolved mapping.now graph drawn) }
{
    check_texts(alloc, dialect, mapping, command)?;
    resolve(alloc, mapping, names, command)
}

/// Where all tables are to be made, they have texts in the dialect.
fn check_texts(
    alloc: Global,
    dialect: Dialect,
    mapping: &Mapping,
    command: &Command,
) -> Result<(), Refusal>
    ensures told { Gives (λ u. u) result
        (asking.has_texts dialect mapping.now.schema command.now) }
    ensures cause { IfErr result IsOfCompiling }
{
    match command {
        Command::CreateAll => compile_tables(alloc, dialect, mapping.schema()),
        _ => Ok(()),
    }
}
