//! Cells of rows beside the columns of their table, and what rows are judged by: unique values and references, looked up in the
//! indexes of their tables.
#![tactic(auto)]

mod cells;
mod judging;
mod losing;
mod uniques;

pub use cells::{cells_of, has_null, key_of, lacks_given, lacks_value, with_cells, with_key};
pub use judging::some_written_dangles;
pub use losing::{Before, refers_to, some_lost};
pub use uniques::some_repeats;
