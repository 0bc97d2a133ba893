//! The state of a run between two lines, and what a line answers.

ghost use Rattle.std.specs.Prelude.{◌≡◌, ◌++◌, true, Ok, IfErr, IfOk, OnOk};
ghost use Rattle.class_types.specs.Shown.{rules_of};
ghost use Rattle.keeper_core.specs.Alone.{alone};
ghost use Rattle.keeper_core.specs.Programs.{as_refusal, ends_early};
ghost use Rattle.keeper_core.specs.Moment.{Runs};
ghost use Rattle.keeper_core.specs.Beside.{moment_answering, on_own};
ghost use Rattle.sayable_lines.specs.Sayable.{IsSayable};
ghost use Rattle.shell_lines.specs.Desk.{CanBeDone, said_line};
ghost use Rattle.shell_stage.specs.Stages.{IsAnswerAt, IsKept, IsReady};
ghost use Rattle.shell_stage.specs.Step.{declared_stage, opened_stage};
ghost use Rattle.shell_steps.specs.Calls.{IsShellCall, IsShellCallAlone};
ghost use Rattle.shell_steps.specs.ShellState.{new_shell};
ghost use Rattle.shell_steps.specs.Step as step;

use base_core::{Refusal, RequestKind};
use class_mapping::Declarations;
use class_types::Hooks;
use command_resolve::Answer;
use keeper_core::{Keeper, calls};
use script_types::Command;
use session_calls::close;
use shell_lines::{Desk, Said};
use shell_parts::{Block, Names};
use shell_replies::{PrintOptions, Reply};
use shell_stage::{Stage, bind, perform_line};
use std::alloc::{AllocError, Global};
use std::marker::Model;
use std::mem::drop;

/// A run between two lines.
pub struct Shell {
    alloc: Global,
    /// How texts are printed.
    options: PrintOptions,
    /// What is declared, or the session.
    stage: Stage,
    /// The names that are bound.
    names: Names,
    /// Where the script stands.
    desk: Desk,
}

impl Drop for Shell {
    fn drop(self) {
        let Shell {
            alloc: _,
            options: _,
            stage: _,
            names: _,
            desk: _,
        } = self;
    }
}

impl Model for Shell {
    ghost use Rattle.std.specs.Coded.{codes};
    ghost use Rattle.expr_types.specs.contracts.expr.Expr as e;
    ghost use Rattle.shell_stage.specs.Stages.{AreBound};
    ghost use Rattle.shell_steps.specs.ShellState.{ShellState};

    ghost Value = { ShellState };

    ghost coded = { Prim.hlevel (codes, e.the_row.coded) };

    ghost view = { λ s. record { options = s.options; stage = s.stage; names = s.names; desk = s.desk } };

    ghost invariant = { λ s. AreBound s.stage s.names };
}

impl Shell {
    /// Nothing is declared or bound.
    #[tactic(auto, using(shell_stage::proofs::Bindings::bindings))]
    pub fn new(alloc: Global, options: PrintOptions) -> Shell
        ensures { result ≡ new_shell options }
    {
        Shell {
            alloc,
            options,
            stage: Stage::Declaring(Declarations::new(alloc)),
            names: Names::new(alloc),
            desk: Desk::new(),
        }
    }

    /// Whether some command was refused.
    pub fn has_refused(&self) -> bool
        ensures { result ≡ self.now.desk.refused }
    {
        self.desk.has_refused()
    }

    /// Does a line, and answers its reply: what is told of what the line did, and behind it what the line wrote, or why it is
    /// refused.
    ///
    /// # Errors
    /// `Memory` and `KeeperFault` end the run.
    #[tactic(auto, using(crate::proofs::Replying::noting))]
    pub fn answer<K: Keeper>(
        &mut self,
        keeper: &mut K,
        hooks: &Hooks,
        line: &[u8],
    ) -> Result<Reply, Refusal>
        requires { IsReady self.old.stage (K.moment keeper.old) }
        ensures step { Runs (moment_answering K.moment)
            (λ reply. reply) (step.reply_to (rules_of hooks.now) line.now) (self.old, keeper.old) result
            (self.new, keeper.new) }
        ensures ready { OnOk result (IsReady self.new.stage (K.moment keeper.new)) }
        ensures stops { IfErr result (λ e. ends_early e ≡ true) }
    {
        let reply = self.answer_alone(keeper, hooks, line)?;
        Ok(self.tell_notes(reply)?)
    }

    /// Does a line, and answers what it wrote, or why it is refused.
    #[tactic(auto, using(crate::proofs::Replying::answers))]
    fn answer_alone<K: Keeper>(
        &mut self,
        keeper: &mut K,
        hooks: &Hooks,
        line: &[u8],
    ) -> Result<Reply, Refusal>
        requires { IsReady self.old.stage (K.moment keeper.old) }
        ensures step { Runs (moment_answering K.moment)
            (λ reply. reply) (step.answer_to (rules_of hooks.now) line.now) (self.old, keeper.old) result
            (self.new, keeper.new) }
        ensures ready { OnOk result (IsReady self.new.stage (K.moment keeper.new)) }
        ensures stops { IfErr result (λ e. ends_early e ≡ true) }
    {
        match self.step(keeper, hooks, line) {
            Ok(reply) => Ok(reply),
            Err(refusal) => {
                if calls::ends_early(&refusal) {
                    return Err(refusal);
                }
                let number = self.number();
                Ok(self.tell(number, refusal)?)
            }
        }
    }

    /// What is told of what the line did goes before its reply, and is forgotten.
    fn tell_notes(&mut self, reply: Reply) -> Result<Reply, AllocError>
        ensures step { IfOk result (λ told. Runs alone (λ reply. reply)
            (step.tell_notes reply) self.old (Ok told) self.new) }
        ensures kept { IsKept self.old.stage self.new.stage }
    {
        let told = self.with_notes(&reply)?;
        self.stage.forget_notes();
        Ok(told)
    }

    /// What is told of what the line did, and behind it a reply.
    fn with_notes(&self, reply: &Reply) -> Result<Reply, AllocError>
        ensures { IfOk result (λ told. told ≡ step.notes_told self.now ++ reply.now) }
    {
        let mut told = Reply::new(self.alloc);
        self.stage
            .put_notes(self.alloc, self.options, self.desk.line(), &mut told)?;
        told.put_reply(reply)?;
        Ok(told)
    }

    /// The number of the line that is done.
    fn number(&self) -> u32
        ensures { result ≡ self.now.desk.line }
    {
        self.desk.line()
    }

    /// Reads a line, and does what it comes to.
    ///
    /// # Errors
    /// Why the line, or the block that it ends, is refused. `Memory` and `KeeperFault` end the run.
    #[tactic(auto, using(crate::proofs::Lines::stepping), unfolding(crate::specs::Step::line_step))]
    fn step<K: Keeper>(
        &mut self,
        keeper: &mut K,
        hooks: &Hooks,
        line: &[u8],
    ) -> Result<Reply, Refusal>
        requires { IsReady self.old.stage (K.moment keeper.old) }
        ensures { IsShellCall K.moment (step.line_step (rules_of hooks.now) line.now)
            (self.old, keeper.old) result (self.new, keeper.new) }
    {
        let said = self.say(line)?;
        self.act(keeper, hooks, said)
    }

    /// What a line comes to.
    fn say(&mut self, line: &[u8]) -> Result<Said, Refusal>
        ensures call { IsShellCallAlone (step.at_desk (said_line line.now)) self.old result self.new }
        ensures done { IfOk result CanBeDone }
    {
        self.desk.say(self.alloc, line)
    }

    /// Does what a line comes to.
    #[tactic(auto, using(crate::proofs::Lines::acting))]
    fn act<K: Keeper>(
        &mut self,
        keeper: &mut K,
        hooks: &Hooks,
        said: Said,
    ) -> Result<Reply, Refusal>
        requires ready { IsReady self.old.stage (K.moment keeper.old) }
        requires done { CanBeDone said }
        ensures { IsShellCall K.moment (step.do_said (rules_of hooks.now) said)
            (self.old, keeper.old) result (self.new, keeper.new) }
    {
        match said {
            Said::Nothing => Ok(Reply::new(self.alloc)),
            Said::Configure => self.configure(keeper),
            Said::Declare(block) => self.declare(keeper, hooks, block),
            Said::Compile(command) => {
                let reply = self.compile(keeper, &command);
                command.let_go();
                reply
            }
            Said::Do(command) => {
                let reply = self.command(keeper, hooks, &command);
                command.let_go();
                reply
            }
        }
    }

    /// Checks all declarations, and opens the session.
    #[tactic(auto, using(shell_stage::proofs::Bindings::bindings), unfolding(crate::specs::Step::turn))]
    fn configure<K: Keeper>(&mut self, keeper: &K) -> Result<Reply, Refusal>
        requires ready { IsReady self.old.stage (K.moment keeper.now) }
        ensures { IsShellCall K.moment (step.turn opened_stage)
            (self.old, keeper.now) result (self.new, keeper.now) }
    {
        self.stage.configure(self.alloc)?;
        Ok(Reply::new(self.alloc))
    }

    /// Declares what a block says.
    #[tactic(auto, using(shell_stage::proofs::Bindings::bindings), unfolding(crate::specs::Step::turn))]
    fn declare<K: Keeper>(
        &mut self,
        keeper: &K,
        hooks: &Hooks,
        block: Block,
    ) -> Result<Reply, Refusal>
        requires ready { IsReady self.old.stage (K.moment keeper.now) }
        ensures { IsShellCall K.moment
            (step.turn (declared_stage (rules_of hooks.now) block))
            (self.old, keeper.now) result (self.new, keeper.now) }
    {
        self.stage.declare(hooks, block)?;
        Ok(Reply::new(self.alloc))
    }

    /// Answers a line that compiles.
    fn compile<K: Keeper>(&self, keeper: &K, command: &Command) -> Result<Reply, Refusal>
        requires ready { IsReady self.now.stage (K.moment keeper.now) }
        requires sayable { IsSayable command.now }
        ensures { IsShellCall K.moment (on_own (step.compile command.now))
            (self.now, keeper.now) result (self.now, keeper.now) }
    {
        self.stage.compile(self.alloc, command)
    }

    /// Does a command of the session, and tells its answer.
    #[tactic(auto, using(crate::proofs::Commands::telling), unfolding(crate::specs::Step::do_command))]
    fn command<K: Keeper>(
        &mut self,
        keeper: &mut K,
        hooks: &Hooks,
        command: &Command,
    ) -> Result<Reply, Refusal>
        requires ready { IsReady self.old.stage (K.moment keeper.old) }
        requires sayable { IsSayable command.now }
        ensures { IsShellCall K.moment (step.do_command (rules_of hooks.now) command.now)
            (self.old, keeper.old) result (self.new, keeper.new) }
    {
        let answer = self.perform(keeper, hooks, command)?;
        Ok(self.tell_answer(answer)?)
    }

    /// Does a command of the session.
    ///
    /// # Errors
    /// `NotConfigured`; then those of the line's names and values, and of what it asks for.
    #[tactic(auto, using(crate::proofs::Commands::performing, shell_stage::proofs::Bindings::bindings), unfolding(crate::specs::Step::perform))]
    fn perform<K: Keeper>(
        &mut self,
        keeper: &mut K,
        hooks: &Hooks,
        command: &Command,
    ) -> Result<Answer, Refusal>
        requires ready { IsReady self.old.stage (K.moment keeper.old) }
        requires sayable { IsSayable command.now }
        ensures call { IsShellCall K.moment (step.perform (rules_of hooks.now) command.now)
            (self.old, keeper.old) result (self.new, keeper.new) }
        ensures answer { IfOk result (IsAnswerAt self.new.stage) }
    {
        let Stage::Configured(session) = &mut self.stage else {
            return Err(Refusal::InvalidRequestError(RequestKind::NotConfigured));
        };
        perform_line(
            self.alloc,
            hooks,
            self.options.dialect,
            &self.names,
            session,
            keeper,
            command,
        )
    }

    /// The reply that tells of an answer; what is to be bound is bound.
    #[tactic(auto, using(shell_stage::proofs::Bindings::bindings), unfolding(crate::specs::Step::tell_answer))]
    fn tell_answer(&mut self, answer: Answer) -> Result<Reply, AllocError>
        requires { IsAnswerAt self.old.stage answer }
        ensures call { IfOk result (λ reply. IsShellCallAlone
            (step.tell_answer answer) self.old (Ok reply) self.new) }
        ensures stage { self.new.stage ≡ self.old.stage }
    {
        let reply = self.stage.reply_to(self.alloc, &answer)?;
        bind(&mut self.names, answer)?;
        Ok(reply)
    }

    /// The reply that says why the line of this number is refused.
    #[tactic(auto, using(crate::proofs::Replying::telling))]
    fn tell(&mut self, number: u32, refusal: Refusal) -> Result<Reply, AllocError>
        ensures call { IfOk result (λ reply. IsShellCallAlone
            (step.tell number refusal) self.old (Ok reply) self.new) }
        ensures stage { self.new.stage ≡ self.old.stage }
    {
        self.desk.refuse();
        let mut reply = Reply::new(self.alloc);
        let put = self.stage.put_error(&mut reply, number, &refusal);
        drop(refusal);
        put?;
        Ok(reply)
    }

    /// The script has ended: a block that is open is refused at its first line.
    pub fn answer_end<K: Keeper>(&mut self, keeper: &K) -> Result<Reply, AllocError>
        ensures step { Runs (moment_answering K.moment)
            (λ reply. reply) step.end_reply (self.old, keeper.now)
            (as_refusal (λ e. Refusal.Memory) result) (self.new, keeper.now) }
        ensures stage { self.new.stage ≡ self.old.stage }
    {
        self.tell_end()
    }

    /// The reply at the script's end.
    #[tactic(auto, using(crate::proofs::Replying::telling))]
    fn tell_end(&mut self) -> Result<Reply, AllocError>
        ensures call { IfOk result (λ reply. IsShellCallAlone
            step.end_of_script self.old (Ok reply) self.new) }
        ensures stage { self.new.stage ≡ self.old.stage }
    {
        let Some(block) = self.desk.block() else {
            return Ok(Reply::new(self.alloc));
        };
        let first = block.first();
        self.tell(first, Refusal::ScriptError(first, 1))
    }

    /// Closes the session, where there is one, and answers what is told of that.
    ///
    /// # Errors
    /// `Memory` and `KeeperFault`.
    #[tactic(auto, using(crate::proofs::Replying::noting))]
    pub fn close<K: Keeper>(&mut self, keeper: &mut K) -> Result<Reply, Refusal>
        requires { IsReady self.old.stage (K.moment keeper.old) }
        ensures step { Runs (moment_answering K.moment)
            (λ reply. reply) step.close_session (self.old, keeper.old) result
            (self.new, keeper.new) }
        ensures stops { IfErr result (λ e. ends_early e ≡ true) }
        ensures outside { OnOk result ((K.moment keeper.new).depth ≡ 0) }
    {
        self.close_stage(keeper)?;
        let nothing = Reply::new(self.alloc);
        Ok(self.tell_notes(nothing)?)
    }

    /// Closes the session, where there is one.
    #[tactic(auto, using(crate::proofs::Replying::closes, shell_stage::proofs::Bindings::bindings))]
    fn close_stage<K: Keeper>(&mut self, keeper: &mut K) -> Result<(), Refusal>
        requires { IsReady self.old.stage (K.moment keeper.old) }
        ensures step { Runs (moment_answering K.moment)
            (λ u. u) step.close_stage (self.old, keeper.old) result (self.new, keeper.new) }
        ensures stops { IfErr result (λ e. ends_early e ≡ true) }
        ensures outside { OnOk result ((K.moment keeper.new).depth ≡ 0) }
    {
        let Stage::Configured(session) = &mut self.stage else {
            return Ok(());
        };
        close(session, keeper)
    }
}
