//! The laws of the strategies: a lazy load and a select-in load fill collections with the same objects, with a secondary table and
//! without, and lead many-to-one links to the same ones. Each of these functions does nothing when it runs.

ghost use Rattle.loading_laws.specs.Strategies.Filled.{SelectinFills, LazyFills, StrategiesFillAlike};
ghost use Rattle.loading_laws.specs.Strategies.Ends.{LazyLeads, SelectinLeads, StrategiesLeadAlike};
ghost use Rattle.loading_laws.specs.Strategies.Paired.{LazyFillsPairs, SelectinFillsPairs, StrategiesPairAlike};

/// A lazy load fills a one-to-many collection with the persistent objects of the rows that refer to its owner, in the order of their
/// keys and each once, with the changes that were kept for it.
pub fn lazy_loads_fill_what_is_related()
    ensures { LazyFills }
{}

/// So does a select-in load, which sends one select for each 500 owners, with the collection of each of them.
pub fn selectin_loads_fill_what_is_related()
    ensures { SelectinFills }
{}

/// Both fill the collection of an owner with objects of the same identities, in the same order, and put the kept changes to them.
pub fn strategies_fill_alike()
    ensures { StrategiesFillAlike }
{}

/// A lazy load leads a many-to-one link to the object of its owner's foreign key: the one that the identity map has under it, if its
/// class fits, else that of the target's row, and to none where there is neither or the key has a NULL.
pub fn lazy_loads_lead_to_targets()
    ensures { LazyLeads }
{}

/// So does a select-in load, which sends one select for each 500 keys that the identity map lacks, with the link of each owner.
pub fn selectin_loads_lead_to_targets()
    ensures { SelectinLeads }
{}

/// Both lead the link of an owner to objects of the same identity, or both to none.
pub fn strategies_lead_alike()
    ensures { StrategiesLeadAlike }
{}

/// A lazy load fills a collection over a secondary table with the persistent objects of the rows to which its owner's pairs lead, in
/// the order of their keys and each once, with the changes that were kept for it.
pub fn lazy_loads_fill_pairs()
    ensures { LazyFillsPairs }
{}

/// So does a select-in load, which sends one select for each 500 owners, with the collection of each of them.
pub fn selectin_loads_fill_pairs()
    ensures { SelectinFillsPairs }
{}

/// Both fill the collection of an owner with objects of the same identities, in the same order, and put the kept changes to them.
pub fn strategies_pair_alike()
    ensures { StrategiesPairAlike }
{}
