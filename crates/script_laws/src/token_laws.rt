//! Laws of the tokens of a line, each the contract of a function that does nothing: they are what tokens are spelled as.

ghost use Rattle.script_laws.specs.Readings.Tokens.Cutting.{CutsAllTokens, CutsTokens, UndoublingUndoesDoubling};

/// The tokens of a line are the longest prefixes that are spelled as tokens, one behind the other with blanks alone between them, up to the end of the line
/// or the first byte that begins none; and no other tokens are. A quote that is doubled does not close, and undoubling the quotes inside undoes doubling them.
pub fn tokens_are_what_is_spelled()
    ensures cut { CutsTokens }
    ensures all { CutsAllTokens }
    ensures undoubled { UndoublingUndoesDoubling }
{}
