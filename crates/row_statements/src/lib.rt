//! Statements on rows, done on tables with scopes: the keys of new rows, and what written and deleted rows are judged by once all are
//! in or out.
#![tactic(auto)]

mod references;
mod writing;

pub use references::{index_foreigns, make_indexes, some_lost};
pub use writing::{apply, insert_rows, put_copy, row_under, stand};
