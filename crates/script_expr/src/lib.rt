//! What the readers of expressions are made of: the levels, what joins operands, and the forms inside which no expression stands.
#![tactic(auto)]

mod expression;
mod grammar;

pub use expression::{
    Joint, Test, boxed, function, is_unlike, joined, listed, null_after, only, path, product_joint,
    source, sum_joint, takes_all, test_kind,
};
pub use grammar::{Level, operand_level};
