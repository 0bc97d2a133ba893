//! Expressions.

ghost use Rattle.std.specs.Prelude.{◌≡◌};
ghost use Rattle.expr_types.specs.Level.{is_aggregate_function};

use base_core::{ArithOp, ColumnNo, Copied, ListOf, Name, RowValues, TableId, Value};
use sqlite_items::{Boxed, Items};
use std::alloc::AllocError;

#[derive(Clone, Copy, PartialEq, Eq)]
pub enum CompareOp {
    Equal,
    NotEqual,
    Less,
    LessEqual,
    Greater,
    GreaterEqual,
}

/// A function of SQL. The first four are aggregates.
#[derive(Clone, Copy, PartialEq, Eq)]
pub enum Func {
    Count,
    Sum,
    Min,
    Max,
    Lower,
    Upper,
    Length,
    Coalesce,
}

impl Func {
    /// Whether the function is an aggregate: `count`, `sum`, `min` or `max`.
    pub fn is_aggregate(self) -> bool
        ensures { result ≡ is_aggregate_function self }
    {
        match self {
            Func::Count | Func::Sum | Func::Min | Func::Max => true,
            Func::Lower | Func::Upper | Func::Length | Func::Coalesce => false,
        }
    }
}

/// A source of rows: a table, and the name under which it stands where it has one of its own.
#[derive(Clone, PartialEq, Eq)]
pub struct Origin {
    pub table: TableId,
    pub alias: Option<Name>,
}

impl Drop for Origin {
    fn drop(self) {
        let Origin { table: _, alias: _ } = self;
    }
}

impl Copied for Origin {
    fn copied(&self) -> Result<Origin, AllocError> {
        self.clone()
    }
}

/// Sources.
pub type OriginList = ListOf<Origin>;

/// An expression. A first `bool` is true for the negated form. No `Lit` holds `Null`.
#[derive(Drop)]
pub enum Expr {
    /// The source's place in the scope, the innermost last, and its column.
    Column(u32, ColumnNo),
    Lit(Value),
    Compare(CompareOp, Boxed<Expr>, Boxed<Expr>),
    IsNull(bool, Boxed<Expr>),
    And(Items<Expr>),
    Or(Items<Expr>),
    Not(Boxed<Expr>),
    Arith(ArithOp, Boxed<Expr>, Boxed<Expr>),
    Neg(Boxed<Expr>),
    Concat(Boxed<Expr>, Boxed<Expr>),
    Like(bool, Boxed<Expr>, Boxed<Expr>),
    Ilike(bool, Boxed<Expr>, Boxed<Expr>),
    InList(bool, Boxed<Expr>, RowValues),
    Between(bool, Boxed<Expr>, Boxed<Expr>, Boxed<Expr>),
    Distinct(bool, Boxed<Expr>, Boxed<Expr>),
    Call(Func, Items<Expr>),
    CountAll,
    /// A row of the source for which the condition is true; in the condition the source stands last in scope.
    Exists(bool, Origin, Boxed<Expr>),
}

/// Expressions.
pub type ExprList = Items<Expr>;
