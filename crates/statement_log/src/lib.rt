//! The statements that a keeper was sent.
#![tactic(auto)]

mod log;

pub use log::StatementLog;
