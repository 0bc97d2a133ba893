//! Selects, queries for objects and bulk statements as they are written.

use crate::{Syn, SynSource};
use base_core::{ListOf, Name, RowValues};

/// A further source of a select: joined, or left-joined.
#[derive(Drop)]
pub struct SynJoin {
    pub left: bool,
    pub source: SynSource,
    pub on: Syn,
}

/// A select as it is written.
#[derive(Drop)]
pub struct SynSelect {
    pub distinct: bool,
    /// Each item with the name that it is given.
    pub items: ListOf<(Syn, Option<Name>)>,
    pub first: SynSource,
    pub joins: ListOf<SynJoin>,
    pub filter: Option<Syn>,
    pub groups: ListOf<Syn>,
    pub having: Option<Syn>,
    /// The expressions by which rows are ordered; true for `desc`.
    pub order: ListOf<(Syn, bool)>,
    pub limit: Option<u64>,
    pub offset: Option<u64>,
}

/// A query for objects as it is written.
#[derive(Drop)]
pub struct SynQuery {
    pub class: Name,
    /// The relationships that are joined, each as a class and its relationship.
    pub joins: ListOf<(Name, Name)>,
    pub filter: Option<Syn>,
    /// The expressions by which rows are ordered; true for `desc`.
    pub order: ListOf<(Syn, bool)>,
    pub limit: Option<u64>,
    pub offset: Option<u64>,
    /// The relationships that are loaded with the objects; true for `joined`.
    pub options: ListOf<(bool, Name, Name)>,
}

/// A bulk statement as it is written.
#[derive(Drop)]
pub enum SynBulk {
    Insert {
        table: Name,
        columns: ListOf<Name>,
        values: RowValues,
    },
    /// `None` is `null`.
    Update {
        table: Name,
        cells: ListOf<(Name, Option<Syn>)>,
        filter: Option<Syn>,
    },
    Delete {
        table: Name,
        filter: Option<Syn>,
    },
}
