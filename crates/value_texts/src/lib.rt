//! What is written of values. A wrapper has a `Display` whose text is a definition.
#![tactic(auto)]

mod values;

pub use values::ValueText;
