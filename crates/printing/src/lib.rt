//! What is written of values, objects, warnings and refusals. Each is a wrapper with a `Display` whose text is a definition.
#![tactic(auto)]

mod names;
mod objects;
mod refusals;
mod rows;
mod words;

pub use names::Naming;
pub use objects::{ObjectText, ObjectsText, RowNameText};
pub use refusals::{RefusalText, WarningText};
pub use rows::RowText;
pub use value_texts::ValueText;
