//! The laws of the loaders at their calls, for links of any kind: what a lazy load and a select-in load fill, that it is the same, what
//! they leave, and which statements a select-in load sends. Each of these functions does nothing when it runs.

ghost use Rattle.loading_laws.specs.Loaders.Calls.{LazyFillsLinks, LoadersAgree, SelectinFillsLinks};
ghost use Rattle.loading_laws.specs.Loaders.Expired.{LazyReadsKeyFirst};
ghost use Rattle.loading_laws.specs.Loaders.Lazily.{LazyLeaves, LinksReadLazily};
ghost use Rattle.loading_laws.specs.Loaders.Options.{OptionsFillLinks, SelectinLeaves};
ghost use Rattle.loading_laws.specs.Loaders.OwnRows.{MapAgreesWithRows};
ghost use Rattle.loading_laws.specs.Loaders.Refused.{SelectinLeavesAlways};
ghost use Rattle.loading_laws.specs.Loaders.Statements.{SelectinAsksInBatches};

/// A lazy load fills an unloaded link with the persistent objects of the rows that are related to its owner, whatever the kind of the
/// relationship: a collection with all of them, in the order of their keys and each once, and with the changes that were kept for it; a
/// many-to-one link with the one to which the owner refers, or none. An object that the identity map has under the owner's foreign key
/// is to be of the target's class just where a row of the target has the key.
pub fn lazy_loads_fill_links()
    ensures { LazyFillsLinks }
{}

/// So does a select-in load, with the link of each owner that is unloaded.
pub fn selectin_loads_fill_links()
    ensures { SelectinFillsLinks }
{}

/// Both fill the link of an owner with objects of the same identities, in the same order, and put the kept changes to them, whatever the
/// identity map has.
pub fn loaders_agree()
    ensures { LoadersAgree }
{}

/// A lazy load of a many-to-one link whose owner has an expired cell in its foreign key reads the owner's expired cells first, which leaves
/// the store and the link, and then leads it by the key that the owner has then.
pub fn lazy_loads_read_keys_first()
    ensures { LazyReadsKeyFirst }
{}

/// A lazy load leaves of the objects that there were all but the one link: other links, identities, classes and held cells.
pub fn lazy_loads_leave_the_rest()
    ensures { LazyLeaves }
{}

/// Links that are read lazily, one after another, hold in the end what is related to their owners.
pub fn links_read_lazily()
    ensures { LinksReadLazily }
{}

/// Where each persistent object whose row is there is of the class that its row names, and has of its hierarchy's tables a row in just
/// those of its class, an object that the identity map has is of a class just where a row of the class has its key.
pub fn identity_map_agrees_with_rows()
    ensures { MapAgreesWithRows }
{}

/// A select-in load leaves links that are loaded as they are, and those at other places; and identities, classes and held cells.
pub fn selectin_loads_leave_the_rest()
    ensures { SelectinLeaves }
{}

/// So much it leaves whatever it answers: where a batch is refused the links that earlier ones filled stay filled.
pub fn selectin_loads_leave_the_rest_always()
    ensures { SelectinLeavesAlways }
{}

/// Links at several places are loaded one place after the other: in the end the link at each of the places, of each owner that had it
/// unloaded, holds what is related.
pub fn options_fill_links()
    ensures { OptionsFillLinks }
{}

/// A select-in load sends one select for each 500 keys, of which the last may have fewer, and none where there is no key: of the owners
/// whose collections are unloaded, or of the targets of unloaded links that the identity map lacks.
pub fn selectin_loads_ask_in_batches()
    ensures { SelectinAsksInBatches }
{}
