//! Lazy, joined and select-in loading answer the same objects and fill the same links. Each of these functions does nothing when it runs.

ghost use Rattle.loading_laws.specs.Loading.First.{OwnSelectsLeaveReady};
ghost use Rattle.loading_laws.specs.Loading.Strategies.{StrategiesAgree};
ghost use Rattle.loading_laws.specs.Loading.Whole.{LinksAgree, LoadsAnswerAlike};

/// A query's own select leaves an arena's objects that fit the mapping, over the same tables. Each object that it answers is persistent;
/// and where it is of the query's class, it has the class's relationships and holds the foreign keys of the many-to-one ones.
pub fn own_selects_leave_ready()
    ensures { OwnSelectsLeaveReady }
{}

/// The objects of a query that are read by its own select, and those that are read with its joined options by its main select, are of the
/// same identities, in the same order and each once.
pub fn loads_answer_alike()
    ensures { LoadsAnswerAlike }
{}

/// A lazy load of the link of one of them, at the place of one of the options and of whatever kind, fills it with objects of the same
/// identities as the joined load did, in the same order, and puts the same kept changes to them.
pub fn links_agree()
    ensures { LinksAgree }
{}

/// The objects of a query that are read by its own select, by its main select with its joined options, and by its own select with further
/// selects for its select-in options, are of the same identities, in the same order and each once. The link of each of them at the place
/// of an option, read lazily behind the own select, filled by the joined load, or filled by the select-in load, holds in the end the
/// persistent objects of the rows that are related to it, in the order of their keys and each once, and the kept changes. Nothing was left
/// to flush, the link was unloaded, and behind the loads each persistent object whose row is there is of the class that the row names and
/// has of its hierarchy's tables a row in just those of its class.
pub fn strategies_agree()
    ensures { StrategiesAgree }
{}
