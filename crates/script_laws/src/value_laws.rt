//! Laws of the texts of statements. Each is the contract of a function that does nothing, so there is no body that could be
//! turned into a wrong one.

ghost use Rattle.script_laws.specs.Texts.Values.{ValuesAreInNoText};

/// Two statements that differ only in values have one text in a dialect: in literals, cells, the NULLs of a SET, and the
/// numbers of limit and offset, with as many values in each list and as many rows. A new row whose key is generated differs
/// from one that gives it.
pub fn values_are_in_no_text()
    ensures { ValuesAreInNoText }
{}
