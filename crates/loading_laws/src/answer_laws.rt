//! Laws of what selects of a class's rows answer. Each of these functions does nothing when it runs.

ghost use Rattle.loading_laws.specs.Answers.Answers.{KeyedRowsAreFilters, RowsOfKeysAreFilters};

/// To the select of a class's rows of which some columns hold a key, a store answers all rows of the class that have the key there,
/// in their order.
pub fn keyed_rows_are_filters()
    ensures { KeyedRowsAreFilters }
{}

/// To the select of those of which the columns hold one of several keys, it answers all rows that have one of them there.
pub fn rows_of_keys_are_filters()
    ensures { RowsOfKeysAreFilters }
{}
