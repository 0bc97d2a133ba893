//! Laws of the flush of a session over a store that is told: which rows it leaves, and when it answers. They rest on the laws of plans
//! and of flushes, whose functions they name.

ghost use Rattle.session_laws.specs.Stating.{AnswersWhereStated, LeavesStatedRows};

use crate::graph_laws::{accepted_flushes_are_stated, flush_prefixes_are_legal};
use crate::{a_flush_sends_its_plan, an_accepted_flush_answers};

/// A flush that answers leaves exactly the rows that the objects state: the old ones, of which the deleted are gone, with the changed
/// cells written and the new rows put in. A row of which no cell is written stays as it was.
pub fn a_flush_leaves_the_stated_rows()
    ensures { LeavesStatedRows }
{
    accepted_flushes_are_stated();
    a_flush_sends_its_plan();
}

/// Where the tables that the objects state are legal, and each statement of the plan fits the schema when it is sent, a flush answers
/// and leaves those tables.
pub fn a_flush_of_stated_tables_answers()
    ensures { AnswersWhereStated }
{
    flush_prefixes_are_legal();
    an_accepted_flush_answers();
}
