//! What a line of the script says, as it is written: commands, lines of blocks, selects and expressions.
#![tactic(auto)]

mod command;
mod expression;
mod select;

pub use command::{Command, Inside, Term};
pub use expression::{Syn, SynSource};
pub use select::{SynBulk, SynJoin, SynQuery, SynSelect};
