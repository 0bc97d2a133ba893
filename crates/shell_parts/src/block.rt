//! Blocks of lines that declare a table or a class.

ghost use Rattle.std.specs.Prelude.{◌≡◌, ◌<◌, ◌↔◌, true, IfErr, OnErr, OnOk, IsTrue};
ghost use Rattle.base_core.specs.Answers.{Takes};
ghost use Rattle.class_types.specs.Shown.{rules_of};
ghost use Rattle.class_mapping.specs.Declaring.{declare_class as classes_then, declare_table as tables_then};
ghost use Rattle.shell_parts.specs.Blocks.{IsOfDeclaring, block_of, declare, declared_of, forms_of, with_class_line, with_line, with_table_line, without_number};

use base_core::{ListOf, Refusal};
use class_mapping::Declarations;
use class_types::{ClassSpec, Hooks};
use schema_core::TableSpec;
use script_types::{Command, Inside};
use std::alloc::{AllocError, Global};

/// What a block has declared so far.
#[derive(Drop)]
pub enum Declared {
    Table(TableSpec),
    Class(ClassSpec),
}

/// A block that is not ended yet.
pub struct Block {
    declared: Declared,
    /// The number of its first line.
    first: u32,
    /// A line was refused: the lines to its end are skipped.
    skipping: bool,
}

impl Drop for Block {
    fn drop(self) {
        let Block {
            declared: _,
            first: _,
            skipping: _,
        } = self;
    }
}

impl Declared {
    /// What the head of a block declares, without lines yet.
    ///
    /// # Errors
    /// `NotBuilt` for a line that is no head.
    pub fn of_head(alloc: Global, head: Command) -> Result<Declared, Refusal>
        ensures { result ≡ declared_of head }
    {
        match head {
            Command::TableHead(name) => Ok(Declared::Table(TableSpec {
                name,
                columns: ListOf::new(alloc),
                uniques: ListOf::new(alloc),
                foreigns: ListOf::new(alloc),
            })),
            Command::ClassHead {
                name,
                base,
                table,
                discriminator,
                identity,
                owned,
            } => Ok(Declared::Class(ClassSpec {
                name,
                base,
                table,
                discriminator,
                identity,
                owned,
                relations: ListOf::new(alloc),
                validators: ListOf::new(alloc),
            })),
            other => {
                other.let_go();
                Err(Refusal::NotBuilt)
            }
        }
    }

    /// Against which forms the lines of its block are read.
    pub fn inside(&self) -> Inside
        ensures { result ≡ forms_of self.now }
    {
        match self {
            Declared::Table(_) => Inside::Table,
            Declared::Class(_) => Inside::Class,
        }
    }

    /// Takes a line of its block. Where memory runs out it leaves what is declared as it was.
    pub fn take(&mut self, line: Command) -> Result<(), AllocError>
        ensures ok { OnOk result (self.new ≡ with_line self.old line) }
        ensures err { OnErr result (self.new ≡ self.old) }
    {
        match self {
            Declared::Table(spec) => take_table_line(spec, line),
            Declared::Class(spec) => take_class_line(spec, line),
        }
    }
}

impl Block {
    /// The block, without lines yet, that a head line of this number opens.
    ///
    /// # Errors
    /// `NotBuilt` for a line that is no head.
    pub fn of_head(alloc: Global, head: Command, first: u32) -> Result<Block, Refusal>
        ensures { result ≡ block_of head first }
    {
        let declared = Declared::of_head(alloc, head)?;
        Ok(Block {
            declared,
            first,
            skipping: false,
        })
    }

    /// Against which forms its lines are read.
    pub fn inside(&self) -> Inside
        ensures { result ≡ forms_of self.now.declared }
    {
        self.declared.inside()
    }

    /// The number of its first line.
    pub fn first(&self) -> u32
        ensures { result ≡ self.now.first }
    {
        self.first
    }

    /// Whether its lines are skipped.
    pub fn is_skipping(&self) -> bool
        ensures { result ≡ self.now.skipping }
    {
        self.skipping
    }

    /// From here on its lines are skipped.
    pub fn skip(&mut self)
        ensures { self.new ≡ record self.old { skipping = true } }
    {
        self.skipping = true;
    }

    /// Takes a line of the block. Where memory runs out it leaves the block as it was.
    pub fn take(&mut self, line: Command) -> Result<(), AllocError>
        ensures ok { OnOk result
            (self.new ≡ record self.old { declared = with_line self.old.declared line }) }
        ensures err { OnErr result (self.new ≡ self.old) }
    {
        self.declared.take(line)
    }

    /// Declares what the block says beside other declarations, where these validators are known.
    ///
    /// # Errors
    /// The declaration's own refusals. A refused block declares nothing.
    pub fn declare(self, hooks: &Hooks, declarations: &mut Declarations) -> Result<(), Refusal>
        ensures step { Takes (λ _. tt)
            (declare (rules_of hooks.now) self.declared declarations.old) declarations.old result
            declarations.new }
        ensures cause { IfErr result IsOfDeclaring }
    {
        let Block {
            declared,
            first: _,
            skipping: _,
        } = self;
        match declared {
            Declared::Table(spec) => declare_table(spec, declarations),
            Declared::Class(spec) => declare_class(spec, hooks, declarations),
        }
    }
}

/// Takes a line of a table's block. Where memory runs out it leaves the table as it was.
fn take_table_line(spec: &mut TableSpec, line: Command) -> Result<(), AllocError>
    ensures ok { OnOk result (spec.new ≡ with_table_line spec.old line) }
    ensures err { OnErr result (spec.new ≡ spec.old) }
{
    match line {
        Command::ColumnLine(column) => spec.columns.push(column),
        Command::UniqueLine(columns) => spec.uniques.push(columns),
        Command::ForeignLine(foreign) => spec.foreigns.push(foreign),
        other => {
            other.let_go();
            Ok(())
        }
    }
}

/// Takes a line of a class's block. Where memory runs out it leaves the class as it was.
fn take_class_line(spec: &mut ClassSpec, line: Command) -> Result<(), AllocError>
    ensures ok { OnOk result (spec.new ≡ with_class_line spec.old line) }
    ensures err { OnErr result (spec.new ≡ spec.old) }
{
    match line {
        Command::RelationLine(relation) => spec.relations.push(relation),
        Command::ValidateLine(attribute, hook) => spec.validators.push((attribute, hook)),
        other => {
            other.let_go();
            Ok(())
        }
    }
}

/// Whether one more can be numbered in 32 bits beside so many.
fn has_room(count: u32) -> bool
    ensures { IsTrue result ↔ (count < 4294967295) }
{
    count < u32::MAX
}

/// Declares a table beside other declarations.
fn declare_table(spec: TableSpec, declarations: &mut Declarations) -> Result<(), Refusal>
    ensures step { Takes (λ _. tt)
        (without_number (tables_then declarations.old spec)) declarations.old result
        declarations.new }
    ensures cause { IfErr result IsOfDeclaring }
{
    if !has_room(declarations.schema().count()) {
        return Err(Refusal::Memory);
    }
    match declarations.declare_table(spec) {
        Ok(_) => Ok(()),
        Err(refusal) => Err(refusal),
    }
}

/// Declares a class beside other declarations.
fn declare_class(
    spec: ClassSpec,
    hooks: &Hooks,
    declarations: &mut Declarations,
) -> Result<(), Refusal>
    ensures step { Takes (λ _. tt)
        (without_number (classes_then (rules_of hooks.now) declarations.old spec))
        declarations.old result declarations.new }
    ensures cause { IfErr result IsOfDeclaring }
{
    if !has_room(declarations.count()) {
        return Err(Refusal::Memory);
    }
    match declarations.declare_class(spec, hooks) {
        Ok(_) => Ok(()),
        Err(refusal) => Err(refusal),
    }
}
