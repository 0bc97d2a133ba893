//! The program `sqla` as a library: a script is read from a source, done over a keeper, and answered to a sink.
#![tactic(auto)]

mod ending;
mod running;
mod script;
mod status;
mod stop;
mod stops;

pub use running::{refuse_words, run};
pub use status::Status;
