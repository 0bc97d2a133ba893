//! Selects and bulk statements in numbers for names: the kinds of their operands, judged as they are written and in reading
//! order, and their normal form.
#![tactic(auto)]

mod faults;
mod kinds;
mod normal;

pub use kinds::{judge_bulk_kinds, judge_kinds};
pub use normal::{normal_bulk, normal_select};
