//! The normal form of expressions.
#![tactic(auto)]

mod form;
mod level;

pub use form::{negate, normal};
