//! The declared tables.

ghost use Rattle.std.specs.Prelude.{◌≡◌, ◌<◌, ◌++◌, [], ◌∷◌, length, true, false, Some, None, Err, IfErr};
ghost use Rattle.base_core.specs.Answers.{Takes};
ghost use Rattle.schema_core.specs.Catalog.{find_table, spec_of, foreign_of, target_of, IsTable, has_generated_key};
ghost use Rattle.schema_core.specs.Declaration.{IsDeclared, declaration_fault, declare, has_targets, resolve};
ghost use Rattle.base_core.specs.declared.refusal.Refusal.TheVariants.{ArgumentError, Memory};
ghost use Rattle.base_core.specs.declared.refusal.ArgumentKind.TheVariants.{BadTarget};

use crate::declaration::{fault_of, place_of};
use crate::keys::{has_generated_key, has_targets};
use crate::{ForeignSpec, TableSpec};
use base_core::{ArgumentKind, ListOf, Name, Refusal, TableId};
use std::alloc::Global;
use std::marker::Model;

/// The declared tables, each by its number, from 0 in the order of declaration.
pub struct Schema {
    tables: ListOf<TableSpec>,
    resolved: bool,
}

impl Drop for Schema {
    fn drop(self) {
        let Schema {
            tables: _,
            resolved: _,
        } = self;
    }
}

impl Model for Schema {
    ghost use Rattle.schema_core.specs.Catalog.{Catalog};
    ghost use Rattle.schema_core.specs.Declaration.{IsDeclared};

    ghost Value = { Catalog };

    ghost view = { λ s. record { tables = s.tables; resolved = s.resolved } };

    ghost invariant = { λ s. IsDeclared s.tables s.resolved };
}

/// A foreign key of a table.
fn foreign_at(spec: &TableSpec, foreign: usize) -> &ForeignSpec
    requires { foreign < length spec.now.foreigns }
    ensures { result.now ≡ foreign_of spec.now foreign }
{
    spec.foreigns.at(foreign)
}

impl Schema {
    /// No tables.
    pub fn new(alloc: Global) -> Schema
        ensures { result ≡ record { tables = []; resolved = false } }
    {
        Schema {
            tables: ListOf::new(alloc),
            resolved: false,
        }
    }

    /// Each table was free of faults beside those declared before it, and where they are resolved every foreign key has
    /// its target. It does nothing when it runs.
    pub fn declared_one_by_one(&self)
        ensures { IsDeclared self.now.tables self.now.resolved }
    {
        let _ = &self.resolved;
    }

    /// How many tables are declared.
    pub fn count(&self) -> u32
        ensures { result ≡ length self.now.tables }
    {
        self.tables.len() as u32
    }

    /// The table of a name.
    pub fn find(&self, name: &Name) -> Option<TableId>
        ensures { result ≡ find_table self.now.tables name.now }
    {
        match place_of(self.tables.as_slice(), name) {
            Some(place) => Some(TableId(place as u32)),
            None => None,
        }
    }

    /// The declaration of a table.
    pub fn spec(&self, table: TableId) -> &TableSpec
        requires { IsTable self.now table }
        ensures { result.now ≡ spec_of self.now table }
    {
        self.tables.at(table.0 as usize)
    }

    #[tactic(auto, unfolding(crate::specs::Declaration::declare))]
    /// Declares a table, by the next number. The targets of all foreign keys are then still to be found.
    ///
    /// # Errors
    /// `ArgumentError` with the first that holds: `DuplicateName` (the table's name is taken, or a column stands twice,
    /// or a column twice in a list), `UnknownColumn` (a unique constraint or a foreign key lists a name that is no
    /// column), `NoPrimaryKey` (no column is flagged), `SharedColumn` (two foreign keys share a column); `Memory` where
    /// none of these holds. A refusal changes nothing.
    pub fn declare_table(&mut self, spec: TableSpec) -> Result<TableId, Refusal>
        requires { length self.old.tables < 4294967295 }
        ensures step { Takes (λ table. table) (declare self.old spec) self.old result self.new }
        ensures sound { result ≡ Err Memory → declaration_fault self.old.tables spec ≡ None }
    {
        if let Some(fault) = fault_of(self.tables.as_slice(), &spec) {
            return Err(Refusal::ArgumentError(fault));
        }
        let table = TableId(self.tables.len() as u32);
        self.tables.push(spec)?;
        self.resolved = false;
        Ok(table)
    }

    /// Whether the table's keys are generated: its primary key is one integer column that is in no foreign key.
    pub fn generated(&self, table: TableId) -> bool
        requires { IsTable self.now table }
        ensures { result ≡ has_generated_key (spec_of self.now table) }
    {
        has_generated_key(self.spec(table))
    }

    /// Whether every foreign key has its target.
    pub fn has_targets(&self) -> bool
        ensures { result ≡ has_targets self.now.tables }
    {
        has_targets(self.tables.as_slice())
    }

    #[tactic(auto, unfolding(crate::specs::Declaration::resolve))]
    /// Finds the target of every foreign key.
    ///
    /// # Errors
    /// `ArgumentError(BadTarget)` where the target of a foreign key is not declared, or its columns differ from the
    /// target's key in number or kinds; nothing is changed then. It takes no memory.
    pub fn resolve(&mut self) -> Result<(), Refusal>
        ensures step { Takes (λ _. tt) (resolve self.old) self.old result self.new }
        ensures cause { IfErr result (λ e. e ≡ ArgumentError BadTarget) }
    {
        if !has_targets(self.tables.as_slice()) {
            return Err(Refusal::ArgumentError(ArgumentKind::BadTarget));
        }
        self.resolved = true;
        Ok(())
    }

    #[tactic(auto, using(crate::proofs::Targets::target_declared))]
    /// The table to which a foreign key refers.
    pub fn target(&self, table: TableId, foreign: u32) -> TableId
        requires declared { IsTable self.now table }
        requires numbered { foreign < length (spec_of self.now table).foreigns }
        requires resolved { self.now.resolved ≡ true }
        ensures { target_of self.now (foreign_of (spec_of self.now table) foreign) ≡ Some result }
    {
        let _ = &self.resolved;
        let spec = self.spec(table);
        match self.find(&foreign_at(spec, foreign as usize).target) {
            Some(target) => target,
            None => table,
        }
    }
}
