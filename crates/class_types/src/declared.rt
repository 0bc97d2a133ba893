//! What the declarations of classes and relationships say.

use base_core::{Copied, ListOf, Name, Value};
use std::alloc::AllocError;

/// Which session calls go on along a relationship.
#[derive(Clone, Copy, PartialEq, Eq)]
pub struct Cascade {
    pub save_update: bool,
    pub merge: bool,
    pub refresh_expire: bool,
    pub expunge: bool,
    pub delete: bool,
    pub delete_orphan: bool,
}

/// A relationship as it is declared.
#[derive(Clone, PartialEq, Eq)]
pub struct RelationSpec {
    /// Whether it is a collection.
    pub many: bool,
    pub name: Name,
    /// The class to which it leads.
    pub target: Name,
    pub secondary: Option<Name>,
    /// The relationship of the target that leads back.
    pub partner: Name,
    /// Whether the partner is made by this declaration.
    pub backref: bool,
    /// The columns of the foreign key, where they are named.
    pub using: ListOf<Name>,
    pub cascade: Option<Cascade>,
    pub post_update: bool,
}

impl Drop for RelationSpec {
    fn drop(self) {
        let RelationSpec {
            many: _,
            name: _,
            target: _,
            secondary: _,
            partner: _,
            backref: _,
            using: _,
            cascade: _,
            post_update: _,
        } = self;
    }
}

impl Copied for RelationSpec {
    fn copied(&self) -> Result<RelationSpec, AllocError> {
        self.clone()
    }
}

/// A class as it is declared.
#[derive(Clone, PartialEq, Eq)]
pub struct ClassSpec {
    pub name: Name,
    /// The class that it extends.
    pub base: Option<Name>,
    pub table: Option<Name>,
    pub discriminator: Option<Name>,
    pub identity: Option<Value>,
    /// The columns of the parent's table that belong to this class and its descendants alone.
    pub owned: ListOf<Name>,
    pub relations: ListOf<RelationSpec>,
    /// Attributes, each with the name of its validator.
    pub validators: ListOf<(Name, Name)>,
}

impl Drop for ClassSpec {
    fn drop(self) {
        let ClassSpec {
            name: _,
            base: _,
            table: _,
            discriminator: _,
            identity: _,
            owned: _,
            relations: _,
            validators: _,
        } = self;
    }
}

impl Copied for ClassSpec {
    fn copied(&self) -> Result<ClassSpec, AllocError> {
        self.clone()
    }
}
