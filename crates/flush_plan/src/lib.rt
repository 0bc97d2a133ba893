//! The plan of a flush: which statements it sends, and in which order.
#![tactic(auto)]

mod gone;
mod late;
mod phases;

pub use phases::{plan, plan_ready};
