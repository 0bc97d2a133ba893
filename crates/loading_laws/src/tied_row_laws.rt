//! The law of what the joined options of a query give of their targets. This function does nothing when it runs.

ghost use Rattle.loading_laws.specs.TiedRows.{OptionsGiveTied};

/// The rows of a query's main select that come of one row of each own source have of each joined option the rows of its target to
/// which the class's row is tied, and no others: for a one-to-many relationship those that refer to the row's key, over a secondary
/// table those to which its pairs lead, for a many-to-one the row to which its foreign key refers. A row where a left join met none
/// has none of them. It holds of any number of options, of classes and targets of every form, and of self-references, for a query
/// whose first sources are the tables of its class, over tables with legal rows.
pub fn options_give_tied()
    ensures { OptionsGiveTied }
{}
