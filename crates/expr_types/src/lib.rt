//! Expressions, selects, bulk statements and queries for objects, as data without pointers.
#![tactic(auto)]

mod copy;
mod expr;
mod select;

pub use copy::CopiedIn;
pub use expr::{CompareOp, Expr, ExprList, Func, Origin, OriginList};
pub use select::{Bulk, Joined, ObjectQuery, Select, Statement};
