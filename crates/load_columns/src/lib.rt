//! Columns of the tables of a class among the sources of a select, and conditions over such columns.
#![tactic(auto)]

mod columns;
mod conditions;
mod placing;

pub use columns::{
    attribute_column, attribute_columns, column_named, columns_at, foreign_numbers, key_at_rank,
    key_numbers, push_columns, referred_table, root_key,
};
pub use conditions::{all_of, conjoined, equal_columns, has_one_of, has_values, is_in};
pub use placing::{Placement, SourceColumn, from_root, place_at_rank, place_of_table, rank_of};
