//! Calls of a keeper as lines, and the letters that they answer.
//!
//! There are two tables of integers `id`, the key, and `n`, which is NOT NULL and unique in table 0, and names a row of it in
//! table 1. The calls are `create`, `drop` and `count` with a table, `begin`, `savepoint`, `release`, `rollback-to` with a number,
//! `rollback`, `commit` and `depth`.
//!
//! Statements have a table first. `insert` has rows, each ended by `;`, `fill` numbers of rows and of different values in them,
//! `update` a key and a value, `delete` a key. Of many rows are `put` with a row, `raise` with a sum and a bound, `assign` with a
//! value and a bound, and `clear` with a bound, which take the rows whose `n` is greater, all where there is none; `named` takes
//! out the rows that another table names. `select` asks for all rows. NULL is `_`.
//!
//! An answer is a letter: `.` for a call that is done, `y` or `n` for one that changed a table or did not, `!` for a fault, `-` for
//! memory that ran out, `?` for a call that may not be made, a digit for how many rows or scopes there are, or the last digit of
//! the last row's key, and for refusals `T` NoTable, `M` Missing, `N` NotNull, `S` KeysSpent, `P` PrimaryKey, `U` Unique, `F`
//! Foreign, `R` Range. `rows` shows the rows of a table. `second` with a name tells what one more keeper answers that is given a
//! file as its target. A line that begins with `#` is written as it is.
#![tactic(auto)]

mod calls;
mod letters;
mod playing;
mod statements;

pub use letters::done;
pub use playing::{Beside, play, target_of, two_tables};
