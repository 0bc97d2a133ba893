//! Laws of what success of a flush makes of the objects of every mapping, with links, with classes of several tables and with
//! discriminators. Each is the contract of a function that does nothing, so there is no body that could be turned into a wrong one.

ghost use Rattle.session_laws.specs.Held.{FlushedObjectsHold, NewObjectsHaveKeys};

/// Where every statement of a flush was accepted and the tables are legal then, the cells of each object that is persistent then hold
/// what its rows hold: those of a new object what was inserted, or written in place of deleted rows, its key in each of its tables and
/// what came through its links; and those of an object that kept its rows what was written and what stood there.
pub fn flushed_objects_hold()
    ensures { FlushedObjectsHold }
{}

/// So each new object has a key then, that of its row in its root's table: none becomes transient for want of one.
pub fn new_objects_have_keys()
    ensures { NewObjectsHaveKeys }
{}
