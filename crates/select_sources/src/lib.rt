//! What a select's rows are made of: the tables that its text names, its sources in scope, the rows of the first one, and the
//! rows that meet a condition.
#![tactic(auto)]

mod before;
mod filter;
mod first;
mod frame;
mod survey;
mod table;

pub use before::rows_to_join;
pub use filter::{keep_if, passed};
pub use first::rows_met;
pub use frame::{Frame, scope_at};
pub use survey::named;
pub use table::{all_created, created};
