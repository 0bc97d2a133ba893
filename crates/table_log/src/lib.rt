//! Tables with scopes, which go back by one log of what their changes replaced.
#![tactic(auto)]

mod tables;
mod undoing;

pub use tables::TableLog;
pub use undoing::LogEntry;
