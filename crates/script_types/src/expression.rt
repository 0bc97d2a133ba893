//! Expressions as they are written.

use base_core::{ArithOp, Copied, Name, RowValues, Value};
use expr_types::{CompareOp, Func};
use sqlite_items::{Boxed, Items};
use std::alloc::AllocError;

/// A source of rows as it is written: a table, and the name that it is given after `as`.
#[derive(Clone, Drop, PartialEq, Eq)]
pub struct SynSource {
    pub table: Name,
    pub alias: Option<Name>,
}

impl Copied for SynSource {
    fn copied(&self) -> Result<SynSource, AllocError> {
        self.clone()
    }
}

/// An expression as it is written. A first `bool` is true for the negated form. No `Lit` holds `Null`.
#[derive(Drop)]
pub enum Syn {
    Lit(Value),
    /// A source or class, and its column or attribute.
    Path(Name, Name),
    CountAll,
    Call(Func, Items<Syn>),
    Exists(SynSource, Boxed<Syn>),
    Compare(CompareOp, Boxed<Syn>, Boxed<Syn>),
    IsNull(bool, Boxed<Syn>),
    Like(bool, Boxed<Syn>, Boxed<Syn>),
    Ilike(bool, Boxed<Syn>, Boxed<Syn>),
    InList(bool, Boxed<Syn>, RowValues),
    /// The operand, the lower bound and the upper bound.
    Between(bool, Boxed<Syn>, Boxed<Syn>, Boxed<Syn>),
    Distinct(bool, Boxed<Syn>, Boxed<Syn>),
    And(Items<Syn>),
    Or(Items<Syn>),
    Not(Boxed<Syn>),
    Arith(ArithOp, Boxed<Syn>, Boxed<Syn>),
    Concat(Boxed<Syn>, Boxed<Syn>),
    Neg(Boxed<Syn>),
}
