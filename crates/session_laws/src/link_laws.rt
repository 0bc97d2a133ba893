//! Laws of the links of objects. Each is the contract of a function that does nothing. A session puts in the links of the same change
//! one by one, so what is said here of a link that is set, of a member that is appended or taken out, holds of the session's calls too.

ghost use Rattle.session_laws.specs.Links.Links.{AppendAdds, AppendKeepsRest, AppendMarksOrphans, AppendRepeatsNone, AppendTells, RemoveKeepsRest, RemoveMarksOrphans, RemoveRepeatsNone, RemoveTakesOut, RemoveTells, SetKeepsRest, SetMarksOrphans, SetMirrors, SetRepeatsNone, SetTells};

/// A many-to-one link is set to a parent or to none: it leads there then, the collection of a known old parent lacks the child,
/// the new parent's has it, and every other link of every object is as before. Where the link is known to lead there already,
/// it is loaded, and nothing else happens.
pub fn set_changes_three_links()
    ensures links { SetTells }
    ensures mirror { SetMirrors }
    ensures orphans { SetMarksOrphans }
{}

/// A member is appended to a collection: of many-to-many each joins the collection of the other, of one-to-many the member's
/// link is set to the owner, and every other link of every object is as before.
pub fn append_changes_both_sides()
    ensures links { AppendTells }
    ensures has { AppendAdds }
    ensures orphans { AppendMarksOrphans }
{}

/// A member is taken out of a collection: of many-to-many each leaves the collection of the other, of one-to-many the member's
/// link leads to none, unless it leads to another object, and every other link of every object is as before.
pub fn remove_changes_both_sides()
    ensures links { RemoveTells }
    ensures lacks { RemoveTakesOut }
    ensures orphans { RemoveMarksOrphans }
{}

/// Where no collection has a member twice, none has one twice after a link was set, a member appended or taken out.
pub fn collections_repeat_no_member()
    ensures set { SetRepeatsNone }
    ensures append { AppendRepeatsNone }
    ensures remove { RemoveRepeatsNone }
{}

/// Nothing of an object but its links and its orphan mark changes where a link is set, or a member appended or taken out.
pub fn links_alone_change()
    ensures set { SetKeepsRest }
    ensures append { AppendKeepsRest }
    ensures remove { RemoveKeepsRest }
{}
