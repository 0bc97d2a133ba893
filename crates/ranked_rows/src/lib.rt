//! What the rows are that the selects of loads answer over legal tables. Each of these functions does nothing when it runs.
#![tactic(auto)]

mod laws;

pub use laws::{
    loads_over_legal_tables, main_selects_answer_table_rows, own_selects_answer_table_rows,
    selects_answer_table_rows, selects_answer_wide_cells,
};
