//! Selects and bulk statements as lines say them: in numbers for names and in normal form, or the first of their faults.
//!
//! Faults are told in this order: names that stand for nothing and wrong numbers of operands, in reading order; operands of
//! another kind than their places want, in reading order; and then, of the normal form, columns and aggregates where groups
//! let none stand, and two sources of one name.
#![tactic(auto)]

mod apart;
mod bulk;
mod grouping;
mod judging;
mod select;

pub use bulk::resolve_bulk;
pub use judging::judge_select;
pub use select::resolve_select;
