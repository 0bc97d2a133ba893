//! Reads the lines of the blocks of tables and classes, and heads of classes, from tokens.
#![tactic(auto)]

mod blocks;
mod classes;

pub use blocks::table_line;
pub use classes::{class_head, class_line};
