//! What a flush of a prepared graph changes.
#![tactic(auto)]

mod changes;
mod outside;

pub use changes::{object_changes, project, project_ready};
