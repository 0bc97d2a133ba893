//! The law of reading, the contract of a function that does nothing: what is answered to a line is what its tokens say in the language, and a fault is told at
//! the token one past the longest prefix of the line with which some line begins.

ghost use Rattle.script_laws.specs.Readings.Language.{AnswersAllThatIsSaid, AnswersWhatIsSaid, RefusesByColumn, SayOneThing};

/// What `read_line` is to answer, in a block or outside: to a line that is neither blank nor a comment the command that the form of the lines there
/// relates to its tokens, which is one at most; and where they say none, the column of a token.
///
/// That token stands one past the longest prefix of the line with which some line of its kind begins: such a line begins with the tokens before it, and none
/// begins with these and the token itself. Where such a line begins with the tokens before an `in` or `exists` alone, and with that word too only one in
/// which 101 of parentheses, `not` and unary minus nest, the fault is behind the word, at the parenthesis there. It is at no `in` or `exists` itself that
/// could stand if one more might nest.
pub fn lines_are_answered_as_the_language_says()
    ensures answers { AnswersWhatIsSaid }
    ensures all { AnswersAllThatIsSaid }
    ensures one { SayOneThing }
    ensures refuses { RefusesByColumn }
{}
