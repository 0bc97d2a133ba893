//! Queries for objects as lines say them: in numbers for names, with a select of their own in normal form, or the first of their
//! faults. Names are those of classes and their members; inside an `exists` also those of its source.
#![tactic(auto)]

mod expressions;
mod judging;
mod queries;
mod scope;
mod select;
mod sources;

pub use queries::resolve_query;
pub use scope::{InnerSource, PlacedClass, QueryScope};
pub use sources::{QuerySources, relation_named};
