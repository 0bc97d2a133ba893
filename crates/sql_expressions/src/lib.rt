//! The texts of expressions in three dialects of SQL.
#![tactic(auto)]

mod emit;
mod sources;
mod words;

pub use emit::{emit_expr, expression, param, parts, source};
