//! The lines of a script one after another, with the block that is open.

ghost use Rattle.std.specs.Prelude.{◌≡◌, IfOk, None};
ghost use Rattle.keeper_core.specs.Alone.{IsQuiet};
ghost use Rattle.sayable_lines.specs.Sayable.{IsSayable};
ghost use Rattle.script_read.specs.Line.{line as said_by};
ghost use Rattle.shell_parts.specs.Blocks.{block_of};
ghost use Rattle.shell_lines.specs.Desk as desk;
ghost use Rattle.shell_lines.specs.Desk.{CanBeDone};

use crate::lines::{is_compiled, is_end};
use base_core::Refusal;
use sayable_lines::read_line;
use script_types::{Command, Inside};
use shell_parts::Block;
use std::alloc::{AllocError, Global};
use std::marker::Model;
use std::mem::{drop, replace};

/// What a line comes to.
#[derive(Drop)]
pub enum Said {
    /// Nothing is to be done.
    Nothing,
    /// All declarations are to be checked, and a session is to be opened.
    Configure,
    /// A block has ended, and what it says is to be declared.
    Declare(Block),
    /// A line is to be compiled.
    Compile(Command),
    /// A line is to be done by the session.
    Do(Command),
}

/// The block that is open, the number of the line that is done, from 1, and whether some command was refused.
pub struct Desk {
    block: Option<Block>,
    line: u32,
    refused: bool,
}

impl Drop for Desk {
    fn drop(self) {
        let Desk {
            block: _,
            line: _,
            refused: _,
        } = self;
    }
}

impl Model for Desk {
    ghost use Rattle.shell_lines.specs.Desk.{DeskState};

    ghost Value = { DeskState };

    ghost view = { λ d. record { block = d.block; line = d.line; refused = d.refused } };
}

impl Desk {
    /// Before the first line.
    pub fn new() -> Desk
        ensures { result ≡ desk.new_desk }
    {
        Desk {
            block: None,
            line: 0,
            refused: false,
        }
    }

    /// The number of the line that is done.
    pub fn line(&self) -> u32
        ensures { result ≡ self.now.line }
    {
        self.line
    }

    /// The block that is open.
    pub fn block(&self) -> &Option<Block>
        ensures { result.now ≡ self.now.block }
    {
        &self.block
    }

    /// Whether some command was refused.
    pub fn has_refused(&self) -> bool
        ensures { result ≡ self.now.refused }
    {
        self.refused
    }

    /// A command was refused.
    pub fn refuse(&mut self)
        ensures { self.new ≡ desk.with_refused self.old }
    {
        self.refused = true;
    }

    /// Reads the next line, and says what it comes to: a head opens a block, and a line of a block goes on with it or ends it. Among
    /// the lines of a block that are skipped its end alone counts.
    ///
    /// # Errors
    /// `ScriptError` with the line's number and the column at which no line of the forms goes on; in a block the lines behind it are
    /// skipped. `Memory`.
    #[tactic(auto, using(crate::proofs::Saying::saying))]
    pub fn say(&mut self, alloc: Global, line: &[u8]) -> Result<Said, Refusal>
        ensures said { IsQuiet (λ said. said)
            (desk.said_line line.now self.old) result self.new }
        ensures done { IfOk result CanBeDone }
    {
        self.count_line();
        if is_skipped(&self.block) {
            self.skip(is_end(line));
            return Ok(Said::Nothing);
        }
        self.say_read(alloc, line)
    }

    /// One line more.
    fn count_line(&mut self)
        ensures { self.new ≡ desk.next_line self.old }
    {
        self.line = self.line.saturating_add(1);
    }

    /// The block ends, where this is its end.
    fn skip(&mut self, is_end: bool)
        ensures { self.new ≡ desk.unless_end is_end self.old }
    {
        if is_end {
            drop(replace(&mut self.block, None));
        }
    }

    /// Reads a line that is not skipped, and says what it comes to.
    #[tactic(auto, using(crate::proofs::Saying::reading))]
    fn say_read(&mut self, alloc: Global, line: &[u8]) -> Result<Said, Refusal>
        ensures said { IsQuiet (λ said. said)
            (desk.said_read (said_by line.now self.old.line (desk.place_of self.old.block)) self.old)
            result self.new }
        ensures done { IfOk result CanBeDone }
    {
        match read_line(alloc, line, self.line, place_of(&self.block)) {
            Ok(command) => self.say_at(alloc, command),
            Err(refusal) => {
                self.skip_block();
                Err(refusal)
            }
        }
    }

    /// The lines of the block are skipped from here on.
    #[tactic(auto, using(crate::proofs::Saying::skipping))]
    fn skip_block(&mut self)
        ensures { self.new ≡ desk.skip_block self.old }
    {
        match &mut self.block {
            None => {}
            Some(block) => block.skip(),
        }
    }

    /// What a line comes to in its place.
    #[tactic(auto, using(crate::proofs::Saying::placing))]
    fn say_at(&mut self, alloc: Global, command: Command) -> Result<Said, Refusal>
        requires sayable { IsSayable command }
        ensures said { IsQuiet (λ said. said)
            (desk.said_at self.old.block command self.old) result self.new }
        ensures done { IfOk result CanBeDone }
    {
        match self.take_block() {
            Some(block) => self.say_inside(command, block),
            None => self.say_outside(alloc, command),
        }
    }

    /// Takes the block that is open away.
    fn take_block(&mut self) -> Option<Block>
        ensures block { result ≡ self.old.block }
        ensures rest { self.new ≡ desk.with_block None self.old }
    {
        replace(&mut self.block, None)
    }

    /// The block ends, or goes on with the line.
    #[tactic(auto, using(crate::proofs::Saying::inside))]
    fn say_inside(&mut self, command: Command, block: Block) -> Result<Said, Refusal>
        requires sayable { IsSayable command }
        requires taken { self.old.block ≡ None }
        ensures said { IsQuiet (λ said. said)
            (desk.said_inside command block self.old) result self.new }
        ensures done { IfOk result CanBeDone }
    {
        if ends_block(&command) {
            command.let_go();
            return Ok(Said::Declare(block));
        }
        self.block = Some(with_line(command, block)?);
        Ok(Said::Nothing)
    }

    /// A head opens a block; most other lines are to be done.
    #[tactic(auto, using(crate::proofs::Saying::outside))]
    fn say_outside(&mut self, alloc: Global, command: Command) -> Result<Said, Refusal>
        requires sayable { IsSayable command }
        ensures said { IsQuiet (λ said. said)
            (desk.said_outside command self.old) result self.new }
        ensures done { IfOk result CanBeDone }
    {
        if is_skip(&command) {
            command.let_go();
            return Ok(Said::Nothing);
        }
        if is_head(&command) {
            return self.open(alloc, command);
        }
        if is_configure(&command) {
            command.let_go();
            return Ok(Said::Configure);
        }
        Ok(done_of(command))
    }

    /// The head opens its block.
    #[tactic(auto, using(crate::proofs::Saying::opening))]
    fn open(&mut self, alloc: Global, head: Command) -> Result<Said, Refusal>
        ensures said { IsQuiet (λ said. said)
            (desk.opened (block_of head self.old.line) self.old) result self.new }
        ensures done { IfOk result CanBeDone }
    {
        let block = Block::of_head(alloc, head, self.line)?;
        drop(replace(&mut self.block, Some(block)));
        Ok(Said::Nothing)
    }
}

/// What every other line outside blocks comes to.
fn done_of(command: Command) -> Said
    requires sayable { IsSayable command }
    ensures said { result ≡ desk.done_of command }
    ensures done { CanBeDone result }
{
    if is_compiled(&command) {
        return Said::Compile(command);
    }
    Said::Do(command)
}

/// The block with one more line.
fn with_line(command: Command, block: Block) -> Result<Block, AllocError>
    ensures { IfOk result (λ taken. taken ≡ desk.with_line_taken command block) }
{
    let mut block = block;
    block.take(command)?;
    Ok(block)
}

/// A blank line or a comment.
fn is_skip(command: &Command) -> bool
    ensures { result ≡ desk.is_skip command.now }
{
    matches!(command, Command::Skip)
}

/// Whether a line asks for the check of all declarations.
fn is_configure(command: &Command) -> bool
    ensures { result ≡ desk.is_configure command.now }
{
    matches!(command, Command::Configure)
}

/// Whether a line opens a block.
fn is_head(command: &Command) -> bool
    ensures { result ≡ desk.is_head command.now }
{
    matches!(command, Command::TableHead(_) | Command::ClassHead { .. })
}

/// Whether a line of a block ends it.
fn ends_block(command: &Command) -> bool
    ensures { result ≡ desk.ends_block command.now }
{
    matches!(command, Command::End)
}

/// Whether the next line is skipped.
fn is_skipped(block: &Option<Block>) -> bool
    ensures { result ≡ desk.is_skipped block.now }
{
    match block {
        Some(block) => block.is_skipping(),
        None => false,
    }
}

/// Against which forms the next line is read.
fn place_of(block: &Option<Block>) -> Inside
    ensures { result ≡ desk.place_of block.now }
{
    match block {
        Some(block) => block.inside(),
        None => Inside::Top,
    }
}
