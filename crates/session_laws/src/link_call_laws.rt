//! Laws of the calls on links. Each is the contract of a function that does nothing.

ghost use Rattle.session_laws.specs.LinkCalls.{ChangingLinksKeepsSound};

/// A change of a link keeps a session sound, and so does its refusal: whatever links change on both sides, and whoever comes in with
/// them, what is known of the rows of each object is what the store has.
pub fn changing_links_keeps_sound()
    ensures { ChangingLinksKeepsSound }
{}
