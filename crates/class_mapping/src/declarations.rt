//! Tables and classes as they are declared.

ghost use Rattle.std.specs.Prelude.{◌≡◌, ◌<◌, [], length, true, false, None, Ok, Err, OnOk, IfOk, IfErr};
ghost use Rattle.base_core.specs.Answers.{Refuses, Takes};
ghost use Rattle.base_core.specs.declared.refusal.Refusal.TheVariants.{Memory};
ghost use Rattle.schema_core.specs.Declaration.{declaration_fault, has_targets};
ghost use Rattle.class_types.specs.Shown.{rules_of};
ghost use Rattle.class_layouts.specs.Columns.{layouts_of};
ghost use Rattle.class_layouts.specs.Faults.{class_fault};
ghost use Rattle.class_faults.specs.Faults.{mapping_fault};
ghost use Rattle.class_sides.specs.Linking as linking;
ghost use Rattle.class_mapping.specs.Configured.{IsConfigured, IsLaid};
ghost use Rattle.class_mapping.specs.Declaring.{configure, declare_class, declare_table, with_class, with_table};
ghost use Rattle.class_mapping.specs.Mapped.{all_validators};
ghost use Rattle.class_mapping.specs.Plain.{early_fault};
ghost use Rattle.class_mapping.specs.PlainClass.{ArePlain};

use crate::Mapping;
use base_core::{ArgumentKind, ClassId, ListOf, Name, Refusal, TableId};
use class_blocks::{all_validators, early_fault};
use class_faults::fault_among;
use class_layouts::{Classes, Layout, declare, layouts_of};
use class_sides::{relations_by, sides_of};
use class_types::{ClassSpec, Hooks, Relation};
use schema_core::{Schema, TableSpec};
use std::alloc::{AllocError, Global};
use std::marker::Model;
use std::mem::drop;

/// Tables, and the classes over them, until all is checked. Each class has its line from a root with a table.
pub struct Declarations {
    alloc: Global,
    schema: Schema,
    classes: Classes,
}

impl Drop for Declarations {
    fn drop(self) {
        let Declarations {
            alloc: _,
            schema: _,
            classes: _,
        } = self;
    }
}

impl Model for Declarations {
    ghost use Rattle.class_mapping.specs.Configured.{AreDeclared};
    ghost use Rattle.class_mapping.specs.Mapped.{Mapped};

    ghost Value = { Mapped };

    ghost view = { λ d. record { schema = d.schema; classes = d.classes } };

    ghost invariant = { λ d. AreDeclared d.schema d.classes };
}

/// Declarations that are no mapping, as they were, and why.
#[derive(Drop)]
pub struct RefusedDeclarations {
    pub declarations: Declarations,
    pub refusal: Refusal,
}

/// What is found where all declarations are checked.
#[derive(Drop)]
struct Findings {
    fault: Option<ArgumentKind>,
    layouts: ListOf<Layout>,
    relations: ListOf<ListOf<Relation>>,
    validators: ListOf<ListOf<(Name, Name)>>,
}

/// Checks all declarations.
fn check_all(alloc: Global, schema: &Schema, classes: &Classes) -> Result<Findings, AllocError>
    ensures fault { IfOk result (λ found. found.fault
        ≡ mapping_fault schema.now.tables classes.now) }
    ensures layouts { IfOk result (λ found. found.layouts
        ≡ layouts_of schema.now.tables classes.now) }
    ensures relations { IfOk result (λ found. found.relations
        ≡ linking.relations_of schema.now.tables classes.now) }
    ensures validators { IfOk result (λ found. found.validators ≡ all_validators classes.now) }
{
    let layouts = layouts_of(alloc, schema, classes)?;
    let sides = sides_of(alloc, schema, classes, layouts.as_slice())?;
    let relations = relations_by(alloc, schema, classes, sides.as_slice())?;
    let validators = all_validators(alloc, classes.specs.as_slice(), classes.lines.as_slice())?;
    let fault = fault_among(schema, classes, layouts.as_slice(), sides.as_slice());
    Ok(Findings {
        fault,
        layouts,
        relations,
        validators,
    })
}

impl Declarations {
    /// No tables and no classes.
    pub fn new(alloc: Global) -> Declarations
        ensures { result ≡ record {
          schema = record { tables = []; resolved = false };
          classes = record { specs = []; lines = [] };
        } }
    {
        Declarations {
            alloc,
            schema: Schema::new(alloc),
            classes: Classes {
                specs: ListOf::new(alloc),
                lines: ListOf::new(alloc),
            },
        }
    }

    /// The tables.
    pub fn schema(&self) -> &Schema
        ensures { result.now ≡ self.now.schema }
    {
        &self.schema
    }

    /// How many classes are declared.
    pub fn count(&self) -> u32
        ensures { result ≡ length self.now.classes.specs }
    {
        self.classes.specs.len() as u32
    }

    #[tactic(auto, unfolding(crate::specs::Declaring::declare_table))]
    /// Declares a table, by the next number.
    ///
    /// # Errors
    /// `ArgumentError` as [`Schema::declare_table`] has it; `Memory` where none of its conditions holds. A refusal
    /// changes nothing.
    pub fn declare_table(&mut self, spec: TableSpec) -> Result<TableId, Refusal>
        requires { length self.old.schema.tables < 4294967295 }
        ensures step { Takes (λ table. table)
            (declare_table self.old spec) self.old result self.new }
        ensures taken { OnOk result (self.new ≡ with_table self.old spec) }
        ensures sound { result ≡ Err Memory → declaration_fault self.old.schema.tables spec ≡ None }
    {
        let table = self.schema.declare_table(spec)?;
        Ok(table)
    }

    #[tactic(auto, unfolding(crate::specs::Declaring::declare_class))]
    /// Declares a class, by the next number.
    ///
    /// # Errors
    /// `ArgumentError` with the first that holds: `DuplicateName` (a class of this name is declared, or two of its
    /// attributes and relationships, inherited ones included, have one name), `BadClass` (its base or its table is not
    /// declared, or a class maps its table already), `NoDiscriminator` (its hierarchy's discriminator is none, is no integer
    /// or text column of the root's table, or one of the key or of a foreign key, or its identity is of another kind),
    /// `DuplicateIdentity` (another class of its hierarchy has it), `BadCascade` (delete-orphan without delete, or at
    /// another relationship than one-to-many), `BadHook` (a validator of no attribute, or no validator of its kind).
    /// A refusal changes nothing. Where each class is a plain root, this one too, it is `Memory` only where none of these holds.
    pub fn declare_class(&mut self, spec: ClassSpec, hooks: &Hooks) -> Result<ClassId, Refusal>
        requires { length self.old.classes.specs < 4294967295 }
        ensures step { Takes (λ class. class)
            (declare_class (rules_of hooks.now) self.old spec) self.old result self.new }
        ensures taken { OnOk result (self.new ≡ with_class self.old spec) }
        ensures sound { result ≡ Err Memory → ArePlain (with_class self.old spec)
            → class_fault (rules_of hooks.now) self.old.schema.tables self.old.classes spec
            ≡ None }
    {
        match early_fault(&self.schema, self.classes.specs.as_slice(), &spec) {
            Some(fault) => {
                drop(spec);
                Err(Refusal::ArgumentError(fault))
            }
            None => self.take_class(spec, hooks),
        }
    }

    #[tactic(auto, using(crate::proofs::PlainLemmas::early_none), unfolding(crate::specs::Declaring::declare_class))]
    /// Declares a class of which no fault is told early.
    fn take_class(&mut self, spec: ClassSpec, hooks: &Hooks) -> Result<ClassId, Refusal>
        requires room { length self.old.classes.specs < 4294967295 }
        requires early { early_fault self.old.schema.tables self.old.classes.specs spec ≡ None }
        ensures step { Takes (λ class. class)
            (declare_class (rules_of hooks.now) self.old spec) self.old result self.new }
        ensures taken { OnOk result (self.new ≡ with_class self.old spec) }
        ensures sound { ArePlain (with_class self.old spec)
            → class_fault (rules_of hooks.now) self.old.schema.tables self.old.classes spec
            ≡ None }
    {
        let class = ClassId(self.classes.specs.len() as u32);
        declare(self.alloc, hooks, &self.schema, &mut self.classes, spec)?;
        Ok(class)
    }

    /// Checks all declarations, and answers the mapping.
    ///
    /// # Errors
    /// `ArgumentError` with the first kind that holds anywhere: `BadTarget`, `BadInheritance`, `BadSecondary`, `NoJoin`,
    /// `TwoJoins`, `Overlap`, `PartnerDiffers`, `KeyForeign`, `BadPostUpdate`; `Memory` where no foreign key lacks its
    /// target. The declarations come back as they were.
    pub fn configure(self) -> Result<Mapping, RefusedDeclarations>
        ensures mapping { IfOk result (λ mapping. configure self ≡ Ok mapping) }
        ensures configured { IfOk result IsConfigured }
        ensures back { IfErr result (λ refused. refused.declarations ≡ self) }
        ensures refusal { IfErr result (λ refused. Refuses refused.refusal (configure self)) }
        ensures sound { IfErr result (λ refused. refused.refusal ≡ Memory
            → has_targets self.schema.tables ≡ true) }
    {
        let mut declarations = self;
        match declarations.check() {
            Ok(found) => Ok(declarations.closed(found)),
            Err(refusal) => Err(RefusedDeclarations {
                declarations,
                refusal,
            }),
        }
    }

    #[tactic(auto, unfolding(crate::specs::Declaring::configure, schema_core::specs::Declaration::resolve))]
    /// Checks all declarations, and finds the targets of all foreign keys. A refusal changes nothing.
    fn check(&mut self) -> Result<Findings, Refusal>
        ensures mapping { IfOk result (λ _. configure self.old ≡ Ok self.new) }
        ensures laid { IfOk result (λ found. IsLaid self.new.schema self.new.classes
            found.layouts found.relations found.validators) }
        ensures back { IfErr result (λ _. self.new ≡ self.old) }
        ensures refusal { IfErr result (λ e. Refuses e (configure self.old)) }
        ensures sound { IfErr result (λ e. e ≡ Memory
            → has_targets self.old.schema.tables ≡ true) }
    {
        if !self.schema.has_targets() {
            return Err(Refusal::ArgumentError(ArgumentKind::BadTarget));
        }
        let found = check_all(self.alloc, &self.schema, &self.classes)?;
        if let Some(fault) = found.fault {
            return Err(Refusal::ArgumentError(fault));
        }
        self.schema.resolve()?;
        self.schema.declared_one_by_one();
        Ok(found)
    }

    /// Declarations of which all was checked.
    fn closed(self, found: Findings) -> Mapping
        requires { IsLaid self.schema self.classes found.layouts found.relations found.validators }
        ensures { result ≡ self }
    {
        let Declarations {
            alloc: _,
            schema,
            classes,
        } = self;
        Mapping::over(
            schema,
            classes,
            found.layouts,
            found.relations,
            found.validators,
        )
    }
}
