//! Runs of scripts over a keeper in memory, in which a call of the keeper, a read or a write fails, and runs over the keeper over SQLite.
#![tactic(auto)]

mod runs;

pub use runs::{Failing, NOTHING, Run, ended, only, run_once, run_over_sqlite};
