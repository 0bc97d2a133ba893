//! The names that the sources of a select have, and aliases that none of them has.
#![tactic(auto)]

mod names;

pub use names::{free_alias, table_name, taken_names};
