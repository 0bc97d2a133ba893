//! Why the declarations of relationships and hierarchies are refused.
#![tactic(auto)]

mod faults;

pub use faults::fault_among;
