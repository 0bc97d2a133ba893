//! The forms of statements in three dialects of SQL: what their texts and values are read as.

ghost use Rattle.script_laws.specs.Texts.Forms.Read.{BulksAreRead, RowsAreRead, SelectsAreRead, StatementsAreRead};

/// The text of a plain select and its values in the order of their marks are read as the select's form, in each dialect.
pub fn selects_are_read()
    ensures { SelectsAreRead }
{}

/// The same of a plain bulk statement.
pub fn bulks_are_read()
    ensures { BulksAreRead }
{}

/// The same of a well-formed statement on rows.
pub fn rows_are_read()
    ensures { RowsAreRead }
{}

/// The text of a plain statement and its values in the order of their marks are read as the statement, in each dialect.
pub fn statements_are_read()
    ensures { StatementsAreRead }
{}
