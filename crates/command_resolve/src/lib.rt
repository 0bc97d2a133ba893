//! What a line asks for: the numbers of objects, classes, attributes and relationships in the place of its names, or the first name that stands
//! for nothing; and what a line answers.
#![tactic(auto)]

mod answer;
mod keys;
mod links;
mod queries;
mod resolved;
mod resolving;
mod statements;

pub use answer::Answer;
pub use resolved::Resolved;
pub use resolving::resolve;
