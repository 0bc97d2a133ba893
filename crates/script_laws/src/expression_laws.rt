//! The trees of expressions in three dialects of SQL.

ghost use Rattle.script_laws.specs.Texts.Expressions.Read.{ExpressionsAreRead, TextsTellTrees};

/// The text of an expression that stands under some sources, and its values in the order of their marks, are read as the
/// expression's tree, in each dialect.
pub fn expressions_are_read()
    ensures { ExpressionsAreRead }
{}

/// Two such expressions of one text and one list of values have one tree in the dialect: the same operators over the same
/// values and the same names of columns.
pub fn texts_tell_trees()
    ensures { TextsTellTrees }
{}
