//! Where a script's bytes come from, its lines, one by one as the bytes are read, and where replies go.
#![tactic(auto)]

mod cutting;
mod laws;
mod lines;
mod memory;
mod standard;
mod streams;

pub use cutting::{MOST_BYTES, MOST_IN_LINE};
pub use laws::a_script_is_its_lines;
pub use lines::{LineBuffer, NextLine, ReadStop};
pub use memory::{MemSink, MemSource};
pub use standard::{StdSink, StdSource};
pub use streams::{ReadFault, Sink, SinkStop, Source};
