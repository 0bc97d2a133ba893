//! What follows from the definition of lines, as the contract of a function that does nothing.

ghost use Rattle.std.specs.Prelude.{ℕ, List};
ghost use Rattle.byte_streams.specs.Scripts.{IsOfItsLines};

/// The lines of a script, each with its end behind it, are its bytes, and no line holds a newline. Where the script or a line is
/// too long, they are the first bytes.
pub fn a_script_is_its_lines()
    ensures { (bytes : List ℕ) → IsOfItsLines bytes }
{}
