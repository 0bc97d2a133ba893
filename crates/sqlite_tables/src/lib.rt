//! Tables in a database of SQLite: made, dropped, looked for and read whole, what their rows are asked, and the scopes of what is
//! written to them.
#![tactic(auto)]

mod asking;
pub mod lookups;
pub mod scopes;
pub mod tables;

pub use asking::ask_compiled;
