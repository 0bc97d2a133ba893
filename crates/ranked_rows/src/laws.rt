//! Laws of the rows that loads read. Each of these functions does nothing when it runs.

ghost use Rattle.ranked_rows.specs.Loads.{LoadsOverLegalTables};
ghost use Rattle.ranked_rows.specs.Laws.{
  MainSelectsAnswerTableRows,
  OwnSelectsAnswerTableRows,
  SelectsAnswerTableRows,
  SelectsAnswerWideCells,
};

/// Over legal tables each select by which an object's cells, a many-to-one link, a collection or the collections of several owners are
/// loaded answers rows of its class, whose values are of their attributes' kinds and whose key is one of the class that the row names.
/// What a row has for an attribute stands in the attribute's table, under the row's key, whatever form the class has; and what is read
/// of an object's cells stands under the object's key.
pub fn selects_answer_table_rows()
    ensures { SelectsAnswerTableRows }
{}

/// So does a query's own select, if its first sources are the tables of its class and its items are the class's attributes, without
/// groups; with whatever condition, order, `distinct`, limit and further sources.
pub fn own_selects_answer_table_rows()
    ensures { OwnSelectsAnswerTableRows }
{}

/// A row of such a query's main select has first such a row of the class, and from the place of each joined option on, if it has
/// the option's target, such a row of the target.
pub fn main_selects_answer_table_rows()
    ensures { MainSelectsAnswerTableRows }
{}

/// So over legal tables every load, whatever it answers, leaves the store as it was and objects that fit the mapping, of which no two
/// persistent ones have one root class and one key. It names each object that it makes or fills in its notes, and all others are as they
/// were; of those that there were it fills at most expired cells, from their rows, and unloaded links. A query's select has to begin
/// with the tables of its class and to read the class's attributes.
pub fn loads_over_legal_tables()
    ensures { LoadsOverLegalTables }
{}

/// Each row of a select of an object's cells has a value for each attribute that is asked for.
pub fn selects_answer_wide_cells()
    ensures { SelectsAnswerWideCells }
{}
