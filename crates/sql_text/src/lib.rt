//! The texts of statements in three dialects of SQL, with their parameters.
#![tactic(auto)]

mod bases;
mod columns;
mod names;
mod page;
mod rules;
mod writer;

pub use columns::{column_name, columns_of, table_name};
pub use page::Page;
pub use rules::{
    arith_least, comes_later, concat_least, exists_level, mysql_cut, prefix_least, tells_key,
};
pub use writer::{Compiled, Writer};
