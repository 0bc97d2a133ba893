//! A plan whose rows fit can be sent, statement by statement, and what the objects of a configured mapping change fits. Each law is the
//! contract of a function that does nothing, so there is no body that could be wrong.

ghost use Rattle.session_laws.specs.Sendable.{ChangesFit, FitPlansAreSendable};

/// Where the rows that are new, changed and deleted are of declared tables, each cell of a value that its column may hold or of a part of
/// the key of a new row that is of its kind, under keys that fit, and no column of a key is written late, each statement of their plan
/// fits the schema when it is sent, with the keys that are known then: an INSERT has 1 to 1000 rows that one statement can write, an
/// UPDATE some cells in order, none of the key, and each key is whole.
pub fn fit_plans_are_sendable()
    ensures { FitPlansAreSendable }
{}

/// What the objects of a configured mapping change is such rows, links over foreign keys, pairs of secondary tables, joined tables,
/// discriminators and switched rows among them, where the objects fit and have their own rows.
pub fn changes_fit()
    ensures { ChangesFit }
{}
