//! Declarations, and then the session.

ghost use Rattle.std.specs.Prelude.{◌≡◌, ◌++◌, IfOk, OnOk};
ghost use Rattle.class_types.specs.Shown.{rules_of};
ghost use Rattle.keeper_core.specs.Alone.{Tells};
ghost use Rattle.sayable_lines.specs.Sayable.{IsSayable};
ghost use Rattle.shell_replies.specs.Replies.{error_line};
ghost use Rattle.shell_replies.specs.Answers.{answer_text};
ghost use Rattle.shell_stage.specs.Asking.{compiled_at};
ghost use Rattle.shell_stage.specs.Calls.{IsStageTurn};
ghost use Rattle.shell_stage.specs.Stages.{IsAnswerAt, IsKept, mapping_of};
ghost use Rattle.shell_stage.specs.Step as step;

use crate::compiling::compiled;
use base_core::{Refusal, RequestKind};
use class_mapping::{Declarations, RefusedDeclarations};
use class_types::Hooks;
use command_resolve::Answer;
use script_types::Command;
use session_scopes::Session;
use shell_parts::Block;
use shell_replies::{PrintOptions, Reply, SessionNames, TableNames, put_notes, reply_of};
use std::alloc::{AllocError, Global};
use std::mem::{drop, replace};

/// Declarations until `configure`, and from then on the session.
pub enum Stage {
    Declaring(Declarations),
    Configured(Session),
}

impl Drop for Stage {
    fn drop(self) {
        match self {
            Stage::Declaring(_) => {}
            Stage::Configured(_) => {}
        }
    }
}

impl Stage {
    /// Checks all declarations, and opens the session over the mapping.
    ///
    /// # Errors
    /// `Configured` where that was done, and `ArgumentError` for the first wrong declaration.
    #[tactic(auto, using(keeper_core::proofs::AloneLemmas::standing, crate::proofs::Stages::opening), unfolding(crate::specs::Step::opened_stage))]
    pub fn configure(&mut self, alloc: Global) -> Result<(), Refusal>
        ensures { IsStageTurn step.opened_stage self.old result self.new }
    {
        let Stage::Declaring(declarations) = self else {
            return Err(Refusal::InvalidRequestError(RequestKind::Configured));
        };
        match replace(declarations, Declarations::new(alloc)).configure() {
            Ok(mapping) => {
                drop(replace(self, Stage::Configured(Session::new(alloc, mapping))));
                Ok(())
            }
            Err(refused) => {
                let RefusedDeclarations {
                    declarations: back,
                    refusal,
                } = refused;
                drop(replace(declarations, back));
                Err(refusal)
            }
        }
    }

    /// Declares what a block says, where these validators are known.
    ///
    /// # Errors
    /// `Configured` where the session is open; then the declaration's own refusals.
    #[tactic(auto, using(keeper_core::proofs::AloneLemmas::standing, crate::proofs::Stages::declaring), unfolding(crate::specs::Step::declared_stage))]
    pub fn declare(&mut self, hooks: &Hooks, block: Block) -> Result<(), Refusal>
        ensures { IsStageTurn (step.declared_stage (rules_of hooks.now) block)
            self.old result self.new }
    {
        match self {
            Stage::Declaring(declarations) => block.declare(hooks, declarations),
            Stage::Configured(_) => {
                drop(block);
                Err(Refusal::InvalidRequestError(RequestKind::Configured))
            }
        }
    }

    /// The reply that tells of an answer of the session.
    pub fn reply_to(&self, alloc: Global, answer: &Answer) -> Result<Reply, AllocError>
        requires { IsAnswerAt self.now answer.now }
        ensures { IfOk result (λ reply. reply ≡ answer_text (mapping_of self.now) answer.now) }
    {
        match self {
            Stage::Declaring(_) => Ok(Reply::new(alloc)),
            Stage::Configured(session) => reply_of(alloc, session.mapping(), answer),
        }
    }

    /// The line that says why the line of this number is refused, as all of a reply.
    pub fn put_error(
        &self,
        reply: &mut Reply,
        number: u32,
        refusal: &Refusal,
    ) -> Result<(), AllocError>
        ensures { OnOk result
            (reply.new ≡ error_line (step.names_at self.now) number refusal.now) }
    {
        match self {
            Stage::Declaring(declarations) => {
                let names = TableNames {
                    schema: declarations.schema(),
                };
                reply.put_error(number, refusal, &names)
            }
            Stage::Configured(session) => {
                let names = SessionNames {
                    mapping: session.mapping(),
                    arena: session.arena(),
                };
                reply.put_error(number, refusal, &names)
            }
        }
    }

    /// What is answered to a line that compiles.
    ///
    /// # Errors
    /// `NotConfigured` before there is a session; then those of its names and kinds, of a table that has no text, and of a limit
    /// beside a joined collection.
    #[tactic(auto, using(keeper_core::proofs::AloneLemmas::standing, crate::proofs::Asking::compiling))]
    pub fn compile(&self, alloc: Global, command: &Command) -> Result<Reply, Refusal>
        requires sayable { IsSayable command.now }
        ensures { Tells (λ reply. reply) (compiled_at self.now command.now) result }
    {
        match self {
            Stage::Declaring(_) => { Err(Refusal::InvalidRequestError(RequestKind::NotConfigured)) }
            Stage::Configured(session) => compiled(alloc, session.mapping(), command),
        }
    }

    /// What is told of what the session noted in the line of a number goes behind a reply.
    pub fn put_notes(
        &self,
        alloc: Global,
        options: PrintOptions,
        line: u32,
        reply: &mut Reply,
    ) -> Result<(), AllocError>
        ensures { OnOk result
            (reply.new ≡ reply.old ++ step.notes_at options line self.now) }
    {
        match self {
            Stage::Declaring(_) => Ok(()),
            Stage::Configured(session) => {
                put_session_notes(alloc, options, line, session, reply)
            }
        }
    }

    /// What the session noted is forgotten.
    #[tactic(auto, using(crate::proofs::Stages::forgetting))]
    pub fn forget_notes(&mut self)
        ensures stage { self.new ≡ step.without_notes self.old }
        ensures kept { IsKept self.old self.new }
    {
        match self {
            Stage::Declaring(_) => {}
            Stage::Configured(session) => session.clear_notes(),
        }
    }
}

/// What is told of what a session noted in the line of a number goes behind a reply.
fn put_session_notes(
    alloc: Global,
    options: PrintOptions,
    line: u32,
    session: &Session,
    reply: &mut Reply,
) -> Result<(), AllocError>
    ensures { OnOk result (reply.new ≡ reply.old
        ++ step.notes_at options line (Stage.Configured session.now)) }
{
    let mapping = session.mapping();
    let names = SessionNames {
        mapping,
        arena: session.arena(),
    };
    put_notes(
        reply,
        alloc,
        options,
        line,
        &names,
        session.notes().as_slice(),
    )
}
