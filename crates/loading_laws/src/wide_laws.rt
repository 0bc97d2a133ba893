//! Laws of what the main selects of queries answer. Each of these functions does nothing when it runs.

ghost use Rattle.loading_laws.specs.Wide.Answers.{MainSelectsAnswerBlocks, MainSelectsMultiply};

/// The main select of a query with any joined options, under any conditions, orders and joins of its own, takes its rows from the same
/// rows of the query's own sources as the query's own select, in the same order: each stands in place of one row for each of its
/// partners, which are the rows that the left-joined sources of the options put behind it. `distinct`, offset and limit apply to what
/// is multiplied. Where the own select refuses, the main select does so in the same way. The query has no groups, both selects are
/// plain, and all tables of the main select are created.
pub fn main_selects_multiply()
    ensures { MainSelectsMultiply }
{}

/// Of a query that is not distinct, and limits only where no option multiplies, each answered row stands in the answer to the main
/// select as its joined rows.
pub fn main_selects_answer_blocks()
    ensures { MainSelectsAnswerBlocks }
{}
