//! Laws of the scopes of a session's objects. Each is the contract of a function that does nothing.

ghost use Rattle.session_laws.specs.Scopes.{LoadsGrow, MadeSinceGoesBack, OnlyTouchesTouch, RestoreGivesTheStart, ScopesOutsideStay, TouchTouches, TouchesGrow};

/// A scope starts, anything is done inside, and the scope is restored: each object that was there at the start has the state and
/// the identity that it had then, whatever other objects were made or loaded inside.
pub fn restore_gives_the_start()
    ensures objects { RestoreGivesTheStart }
    ensures scopes { ScopesOutsideStay }
{}

/// Objects that were made inside the scope are transient after it, without an identity. One that a load made is persistent
/// under its identity, or detached where an object of a lesser number is persistent under that identity then.
pub fn made_since_goes_back()
    ensures { MadeSinceGoesBack }
{}

/// A touched object is touched in every scope in progress. One that was touched in a scope, or inside it, stays so while the
/// scope is in progress, and one that a load made stays so while there is one. The end of a scope touches nothing in those
/// around it, and a touch nothing but its object.
pub fn touches_and_loads_only_grow()
    ensures touched { TouchTouches }
    ensures touches { TouchesGrow }
    ensures loads { LoadsGrow }
    ensures only { OnlyTouchesTouch }
{}
