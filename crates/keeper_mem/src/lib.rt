//! A keeper of tables in memory.
#![tactic(auto)]

mod acting;
mod keeper;
mod over;

pub use keeper::{Attachment, MemKeeper};
pub use over::{OverKeepers, OverMemory, over_memory, over_new};
pub use table_log::LogEntry;
