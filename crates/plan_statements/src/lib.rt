//! The statements of a plan with the keys of new rows put in, as these become known.
#![tactic(auto)]

mod keys;
mod stale;
mod statements;

pub use keys::{keep_keys, no_keys};
pub use stale::{Places, is_row_missing, stale_places};
pub use statements::{fitting_statement, table_of};
