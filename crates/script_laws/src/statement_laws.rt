//! A text with its values is one statement of a kind at most, in three dialects of SQL.

ghost use Rattle.schema_core.specs.Catalog.{Catalog};
ghost use Rattle.sql_semantics.specs.PlainStatement.{IsPlain};
ghost use Rattle.sql_statements.specs.Texts.{HasCuts};
ghost use Rattle.script_laws.specs.Texts.Statements.{DeclaredNamesAreDistinct, IsOneBulk, IsOneRow, IsOneSelect, IsOneStatement, SentIsPlain, TextsTellStatements};

use expr_types::Statement;
use schema_core::Schema;

/// No two tables that were declared have one name, no two columns of a table have one, and each table has a column.
pub fn declared_names_are_distinct()
    ensures { DeclaredNamesAreDistinct }
{}

/// A bulk statement that a keeper may be sent is plain.
pub fn sent_is_plain()
    ensures { SentIsPlain }
{}

/// A statement that is plain under some tables may be compiled. It does nothing when it runs.
pub fn plain_has_cuts(statement: &Statement)
    ensures { (schema : Catalog) → IsPlain schema statement.now → HasCuts statement.now }
{}

/// A text is read with its values as one plain select at most, in each dialect.
pub fn one_select()
    ensures { IsOneSelect }
{}

/// A text is read with its values as one plain bulk statement at most, in each dialect, also where it names a column twice or
/// writes a key.
pub fn one_bulk()
    ensures { IsOneBulk }
{}

/// A text is read with its values as one well-formed statement on rows at most, in each dialect.
pub fn one_row()
    ensures { IsOneRow }
{}

/// A text is read with its values as one plain statement of a kind at most, under the tables of a schema.
pub fn one_statement(schema: &Schema)
    ensures { IsOneStatement schema.now }
{
    schema.declared_one_by_one();
}

/// Two plain statements of one kind over the tables of a schema that have one text and one list of values in a dialect are
/// one statement.
pub fn texts_tell_statements(schema: &Schema)
    ensures { TextsTellStatements schema.now }
{
    schema.declared_one_by_one();
}
