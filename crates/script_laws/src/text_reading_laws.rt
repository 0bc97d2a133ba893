//! A text with its values is one statement's form at most, in three dialects of SQL.

ghost use Rattle.script_laws.specs.Texts.Readings.OneForm.{BulkTextsTellForms, IsOneBulkForm, IsOneRowForm, IsOneSelectForm, RowTextsTellForms, SelectTextsTellForms};
ghost use Rattle.script_laws.specs.Texts.Readings.OneReading.{TextsTellExpressions};

/// A text is read with its values as one select at most, in each dialect: its items with their names, its sources and how
/// they are joined, each clause, and the limit and the offset.
pub fn one_select_form()
    ensures { IsOneSelectForm }
{}

/// Two plain selects that have one text and one list of values in a dialect have one form there.
pub fn select_texts_tell_forms()
    ensures { SelectTextsTellForms }
{}

/// A text is read with its values as one bulk statement at most, in each dialect: its kind, its table, the columns with what
/// they are set to, and its filter.
pub fn one_bulk_form()
    ensures { IsOneBulkForm }
{}

/// Two plain bulk statements that have one text and one list of values in a dialect have one form there.
pub fn bulk_texts_tell_forms()
    ensures { BulkTextsTellForms }
{}

/// A text is read with its values as one statement on rows at most, in each dialect: its kind, its table, the columns with
/// their values, the rows, the key, and the columns whose values it tells.
pub fn one_row_form()
    ensures { IsOneRowForm }
{}

/// Two well-formed statements on rows that have one text and one list of values in a dialect have one form there.
pub fn row_texts_tell_forms()
    ensures { RowTextsTellForms }
{}

/// Two expressions that stand under the same sources, of which no two have one name, and that have one text and one list of
/// values in a dialect are one expression, where no two tables of the schema have one name and no two columns of a table.
pub fn texts_tell_expressions()
    ensures { TextsTellExpressions }
{}
