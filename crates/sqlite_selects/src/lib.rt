//! Selects as SQLite takes them, and what the rows are to be that it answers.
#![tactic(auto)]

mod shapes;
mod taken;
mod varying;

pub use shapes::{answers, kinds_of, legal_rows};
pub use taken::statement_of;
