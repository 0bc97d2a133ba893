//! Laws of what is answered to the selects of the members of many-to-many collections. Each of these functions does nothing when it runs.

ghost use Rattle.loading_laws.specs.Members.{BatchIsPaired, MembersArePaired};

/// To the select of an owner's members, which joins the secondary table behind those of the target, the rows of the target are
/// answered to which the owner's pairs lead.
pub fn members_are_paired()
    ensures { MembersArePaired }
{}

/// To the select of the members of several owners, which joins the tables of the target behind the secondary one, the same rows are
/// answered behind the key of each owner, in another order.
pub fn batch_is_paired()
    ensures { BatchIsPaired }
{}
