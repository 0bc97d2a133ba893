//! The law that what is done to scopes is done to copies.

ghost use Rattle.frame_laws.specs.Laws as law;

/// Scopes by copies (`specs/Copies.antt`) and those of a session are the same where none is in progress, and stay so when objects change
/// and are made, a scope begins, an object is touched, and scopes end, released or gone back to. And a rollback makes the same of the
/// objects by both, where each object that a load made has the identity still under which it did: states, identities, marks, conflicts of
/// identity, and what is to be read again.
pub fn scopes_are_copies()
    ensures starts { law.StartsTheSame }
    ensures changes { law.ChangesKeepSame }
    ensures begins { law.BeginKeepsSame }
    ensures touches { law.TouchKeepsSame }
    ensures ends { law.EndsKeepSame }
    ensures restored { law.RestoresTheSame }
{}
