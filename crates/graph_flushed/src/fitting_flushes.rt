//! What a flush writes fits the mapping. The law is the contract of a function that does nothing, so there is no body that could be
//! wrong.

ghost use Rattle.graph_flushed.specs.Flushes.{FlushesFit};

/// Over a configured mapping and objects that fit it, where only links to one object become none: whatever keys the new rows were
/// given, what comes through links into cells is of their attributes' kinds, and so is the identity of a class where a column tells
/// it.
pub fn flushes_fit()
    ensures { FlushesFit }
{}
