//! Objects that stand in the tables as they were read have rows of their own, over a mapping of any form. Each law is the contract of
//! a function that does nothing, so there is no body that could be turned into a wrong one.

ghost use Rattle.session_laws.specs.OwnRows.{ObjectsHaveOwnRows, PairsAreOnce};

/// Where one object stands for each key, and what is known of persistent objects is what their rows hold, no two persistent objects
/// have a row in common, and those that are to be deleted, of which all is known, have the keys of their rows in each of their tables;
/// no row of a pair that is taken away is of a class, and no two are one row.
pub fn objects_have_own_rows()
    ensures { ObjectsHaveOwnRows }
{}

#[tactic(auto, using(crate::proofs::OwnRows::PairsOnce::pairs_once))]
/// No two rows that pairs take away are one row, whatever the objects hold.
pub fn pairs_are_once()
    ensures { PairsAreOnce }
{}
