//! Lines of the script.

use crate::{SynBulk, SynQuery, SynSelect};
use base_core::{Copied, Dialect, ListOf, Name, RowValues, Value};
use class_types::RelationSpec;
use schema_core::{ColumnSpec, ForeignSpec};
use std::alloc::AllocError;

/// Where a line stands: outside every block, in the block of a table, or in that of a class.
#[derive(Clone, Copy, PartialEq, Eq)]
pub enum Inside {
    Top,
    Table,
    Class,
}

/// A name that the script has bound, or a member of the list that it is bound to, by its place from 0.
#[derive(Clone, Drop, PartialEq, Eq)]
pub struct Term {
    pub name: Name,
    pub index: Option<u64>,
}

impl Copied for Term {
    fn copied(&self) -> Result<Term, AllocError> {
        self.clone()
    }
}

/// A line of the script.
#[derive(Drop)]
pub enum Command {
    /// A blank line or a comment.
    Skip,
    TableHead(Name),
    ColumnLine(ColumnSpec),
    UniqueLine(ListOf<Name>),
    ForeignLine(ForeignSpec),
    ClassHead {
        name: Name,
        /// The class that it extends.
        base: Option<Name>,
        table: Option<Name>,
        discriminator: Option<Name>,
        identity: Option<Value>,
        /// The columns of the parent's table that belong to this class and its descendants alone.
        owned: ListOf<Name>,
    },
    RelationLine(RelationSpec),
    /// An attribute, and the name of its validator.
    ValidateLine(Name, Name),
    End,
    Configure,
    CreateAll,
    DropAll,
    Dump,
    New {
        name: Name,
        class: Name,
        cells: ListOf<(Name, Value)>,
    },
    Get {
        name: Name,
        class: Name,
        key: RowValues,
    },
    Objects {
        name: Name,
        query: SynQuery,
    },
    Related {
        name: Name,
        term: Term,
        relation: Name,
    },
    BeginNested(Name),
    SetValue {
        term: Term,
        member: Name,
        value: Value,
    },
    SetTerm {
        term: Term,
        member: Name,
        other: Term,
    },
    Append {
        term: Term,
        member: Name,
        other: Term,
    },
    Remove {
        term: Term,
        member: Name,
        other: Term,
    },
    Add(Term),
    Delete(Term),
    Expunge(Term),
    Expire(Term),
    Refresh(Term),
    Show(Term),
    ShowMember(Term, Name),
    State(Term),
    /// The line `is`.
    Same(Term, Term),
    Flush,
    Commit(Option<Name>),
    Rollback(Option<Name>),
    Close,
    Rows(SynSelect),
    Bulk(SynBulk),
    CompileRows(Dialect, SynSelect),
    CompileObjects(Dialect, SynQuery),
    CompileBulk(Dialect, SynBulk),
    CompileTable(Dialect, Name),
}

impl Command {
    /// Lets the line go. What holds a line lets it go by this call, so the functions that take its forms apart are proved here alone.
    pub fn let_go(self) {
        drop(self);
    }
}
