//! The lines in which statements are written: the text in a dialect, and the values of its marks behind `par>`; what an echo writes of
//! statements that were sent, and of the foreign keys that are added once all tables are made; and what is answered to lines that only
//! compile, which are texts of selects, of bulk statements and of tables.
#![tactic(auto)]

mod later;
mod line;
mod lines;
mod statements;
mod tables;
mod text;

pub use line::compile_line;
pub use lines::{put_later_foreigns, put_sent};
pub use statements::lines_of_statement;
pub use tables::compile_tables;
