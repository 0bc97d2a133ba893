//! Of what a row of the answer comes.

use base_core::{RowList, RowValues};

/// A row, or the rows of a group, of which the first stands for all.
#[derive(Drop)]
pub enum Basis {
    Row(RowValues),
    Group(RowList),
}
