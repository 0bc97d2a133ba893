//! The steps by which expressions and selects are answered and that ask no table: what operators make of values, which
//! expressions nothing can refuse, and what an order, `distinct`, a cut and a left join make of rows.
#![tactic(auto)]

mod aggregate;
mod compare;
mod cut;
mod function;
mod number;
mod order;
mod pattern;
mod rows;
mod seen;
mod sure;
mod text;
mod truth;

pub use aggregate::{aggregated, known};
pub use compare::{among, below, between, compared, is_null, opposite, same};
pub use cut::distinct_and_cut;
pub use function::applied;
pub use number::{arithmetic, negated};
pub use order::{Output, in_order};
pub use rows::{has_one_of, joined, or_nulls};
pub use seen::keep_first;
pub use sure::is_sure;
pub use text::{concatenated, is_like};
pub use truth::{all3, any3, not3, passes, signed, truth_of, value_of};
