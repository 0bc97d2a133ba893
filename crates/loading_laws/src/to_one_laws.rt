//! The law that joined many-to-one options multiply no row. These functions do nothing when they run.

ghost use Rattle.loading_laws.specs.ToOne.{LegalTablesAreInKeyOrder, ToOneOptionsPutOne};

/// A query's main select has one row for each row of the query's own sources, where all joined options are many-to-one: the row of
/// the target to which the foreign key refers, or NULLs. So a limit or an offset of the query cuts its objects alone. Each table has
/// its rows in the order of their keys, each key once.
pub fn to_one_options_put_one()
    ensures { ToOneOptionsPutOne }
{}

/// So have legal tables, which are ascending.
pub fn legal_tables_are_in_key_order()
    ensures { LegalTablesAreInKeyOrder }
{}
