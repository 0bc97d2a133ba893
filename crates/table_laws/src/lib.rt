//! What follows from the definitions of tables, and of the lists of selects and bulk statements; and laws of the programs of the store: what
//! they leave legal, and what a savepoint and the rollback to it leave. Each law is the contract of a function that does nothing, so there
//! is no body that could be turned into a wrong one.
#![tactic(auto)]

mod bulk;
mod calls;
mod filters;
mod joined;
mod legal;
mod order;
mod rows;
mod savepoint_laws;
mod told;
mod worked;

pub use bulk::accepted_bulk_is_legal;
pub use calls::{calls_keep_ascending, calls_keep_legal, drop_all_keeps_legal};
pub use filters::{given_are_joined, kept_are_filtered, taken_are_filtered};
pub use joined::{
    joined_programs_keep_legal, programs_beside_keep_legal, quiet_programs_keep_legal,
};
pub use legal::{
    accepted_is_ascending, accepted_is_legal, many_rows_as_one_by_one, one_by_one_as_many_rows,
    rule_over_all_rows,
};
pub use order::one_order;
pub use rows::{a_legal_store_holds_legal_rows, scanned_rows_ascend};
pub use savepoint_laws::rollback_to_restores;
pub use told::{
    what_is_scanned_ascends, what_is_told_stays_ascending, what_is_told_stays_legal,
    what_ran_leaves_legal,
};
pub use worked::{worked_inserts, worked_many, worked_others};
