//! What a line answers, with numbers in the place of names.

use base_core::{ListOf, Name, RowList, TableId, Value};
use object_arena::State;
use shell_parts::Bound;

/// What a line answers.
#[derive(Drop)]
pub enum Answer {
    /// Nothing is told.
    Nothing,
    /// The name is to stand for this from here on.
    Bind(Name, Bound),
    /// The value of a cell.
    Value(Value),
    /// An object, a list of objects, or `null`.
    Thing(Bound),
    /// Where an object stands.
    State(State),
    /// Whether two terms stand for one object.
    Same(bool),
    /// The rows of a select.
    Rows(RowList),
    /// How many rows a bulk statement took.
    Count(u64),
    /// The created tables in the order of declaration, with their rows.
    Tables(ListOf<(TableId, RowList)>),
}
