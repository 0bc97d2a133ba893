//! The grammar of expressions in three dialects of SQL, on whole texts.

ghost use Rattle.script_laws.specs.Texts.Grammar.OneTree.{IsOneTree};

/// A text of a level of expressions is read with its values as one tree at most, in each dialect: parentheses, the levels of
/// operators and the quotes of names leave no choice.
pub fn one_tree()
    ensures { IsOneTree }
{}
