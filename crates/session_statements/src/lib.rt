//! What a session sends over any keeper beside its objects: the plan of a flush, what is asked of its tables, and the bulk statements by
//! which it writes them. What is asked before all that is to be written is written stands apart from what is done behind that.
#![tactic(auto)]

mod asking;
mod rereading;
mod run;
mod sending;
mod writing;

pub use asking::enter_bulk;
pub use rereading::differs_from_expired;
pub use run::send_plan;
pub use sending::{bulk, rows};
