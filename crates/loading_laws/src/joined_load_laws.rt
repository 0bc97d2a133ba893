//! The laws of joined loading beside lazy loading: the objects that a joined load answers, and what it fills of their links. Each of these
//! functions does nothing when it runs.

ghost use Rattle.loading_laws.specs.Joined.Agree.{JoinedCollectionsAgree, JoinedEndsAgree, JoinedPairsAgree};
ghost use Rattle.loading_laws.specs.Joined.Joined.{JoinedAnswers, JoinedFills, JoinedLeads};

/// A joined load answers the objects that the query's own select gives, by identity, in the same order and each once, whatever its
/// options join to them.
pub fn joined_loads_answer_the_same_objects()
    ensures { JoinedAnswers }
{}

/// It fills the collection of each owner with the persistent objects of the rows to which the owner's row leads, in the order of their
/// keys and each once, with the changes that were kept for it; one of an owner that it made itself was unloaded.
pub fn joined_loads_fill_what_is_related()
    ensures { JoinedFills }
{}

/// It leads a many-to-one link to the object of the row to which the foreign key of the owner's row refers, and to none where there is
/// no such row.
pub fn joined_loads_lead_to_targets()
    ensures { JoinedLeads }
{}

/// A lazy load behind the query's own select fills a one-to-many collection with objects of the same identities, in the same order, and
/// puts the same kept changes to them.
pub fn joined_collections_agree()
    ensures { JoinedCollectionsAgree }
{}

/// So it does a collection over a secondary table.
pub fn joined_pairs_agree()
    ensures { JoinedPairsAgree }
{}

/// It leads a many-to-one link to an object of the same identity, or both lead to none.
pub fn joined_ends_agree()
    ensures { JoinedEndsAgree }
{}
