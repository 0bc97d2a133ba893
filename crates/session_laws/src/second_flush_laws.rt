//! Laws of what success of a flush makes of the objects: a flush right after it writes no object's row.

ghost use Rattle.session_laws.specs.Flushed as spec;

#[tactic(auto, using(crate::proofs::Flushed::new_law))]
/// After success no object is new, so that a flush right after it inserts no row of an object.
pub fn no_row_is_new()
    ensures { spec.NoRowIsNew }
{}

#[tactic(auto, using(crate::proofs::Flushed::changed_law))]
/// After success every cell of an object that keeps its rows is expired or what its row holds, and no link of it is changed, so
/// that a flush right after it updates no row of an object.
pub fn no_row_changes()
    ensures { spec.NoRowChanges }
{}

#[tactic(auto, using(crate::proofs::Flushed::planned_law))]
/// After success nothing is new and nothing changes, pairs of objects included, so that a flush right after it sends no statement
/// where nothing is marked.
pub fn no_statement_is_planned()
    ensures { spec.NoStatementIsPlanned }
{}
