//! What a command answers: the lines that go out once it has ended.

ghost use Rattle.std.specs.Prelude.{◌≡◌, [], ◌++◌, true, OnOk, codes, string_bytes};
ghost use Rattle.std.specs.List.{flat_map};
ghost use Rattle.printing.specs.Texts.{name_with_number, value_text, with_leading_separators};
ghost use Rattle.statement_lines.specs.Echo.{note_alters, sent_lines};
ghost use Rattle.shell_replies.specs.Answers.{line_of};
ghost use Rattle.shell_replies.specs.Notes.{warning_line};
ghost use Rattle.shell_replies.specs.Replies.{answer_line, columns_text, count_line, error_line, row_line, rows_text, table_line, table_text};

use crate::naming::SessionNames;
use base_core::{Dialect, ObjId, Refusal, RowList, RowValues, Value, Warning};
use keeper_core::{Note, Sent};
use printing::{Naming, RefusalText, RowText, ValueText, WarningText};
use schema_core::{ColumnSpec, Schema, TableSpec};
use statement_lines::{put_later_foreigns, put_sent};
use std::alloc::{AllocError, Global};
use std::marker::Model;

/// The bytes of a command's reply.
#[derive(Drop)]
pub struct Reply {
    text: String,
}

impl Model for Reply {
    ghost use Rattle.std.specs.Prelude.{List, ℕ, string_bytes};

    ghost Value = { List ℕ };

    ghost view = { λ r. string_bytes r.text };
}

impl Reply {
    /// No lines.
    pub fn new(alloc: Global) -> Reply
        ensures { result ≡ [] }
    {
        Reply {
            text: String::new(alloc),
        }
    }

    /// These bytes.
    pub fn of_text(text: String) -> Reply
        ensures { result ≡ string_bytes text }
    {
        Reply { text }
    }

    /// The bytes.
    pub fn bytes(&self) -> &[u8]
        ensures { result.now ≡ self.now }
    {
        self.text.as_bytes()
    }

    /// The text goes behind the reply.
    pub(crate) fn put(&mut self, text: &str) -> Result<(), AllocError>
        ensures { OnOk result (self.new ≡ self.old ++ text.now) }
    {
        self.text.push_str(text)
    }

    /// The other reply goes behind this one.
    pub fn put_reply(&mut self, other: &Reply) -> Result<(), AllocError>
        ensures { OnOk result (self.new ≡ self.old ++ other.now) }
    {
        self.put(other.text.as_str())
    }

    /// The lines of a statement that was sent, in a dialect, go behind the reply.
    pub(crate) fn put_sent(
        &mut self,
        alloc: Global,
        dialect: Dialect,
        schema: &Schema,
        sent: &Sent,
    ) -> Result<(), AllocError>
        requires { schema.now.resolved ≡ true }
        ensures { OnOk result
            (self.new ≡ self.old ++ sent_lines dialect schema.now sent.now) }
    {
        put_sent(&mut self.text, alloc, dialect, schema, sent)
    }

    /// The lines that add foreign keys in a dialect, of the tables that were made, go behind the reply.
    pub(crate) fn put_later_foreigns(
        &mut self,
        alloc: Global,
        dialect: Dialect,
        schema: &Schema,
        notes: &[Note],
    ) -> Result<(), AllocError>
        requires { schema.now.resolved ≡ true }
        ensures { OnOk result (self.new ≡ self.old
            ++ flat_map (note_alters dialect schema.now) notes.now) }
    {
        put_later_foreigns(&mut self.text, alloc, dialect, schema, notes)
    }

    /// The line of a warning of the line of a number goes behind the reply.
    pub(crate) fn put_warning(
        &mut self,
        line: u32,
        warning: Warning,
        names: &SessionNames<'_>,
    ) -> Result<(), AllocError>
        ensures { OnOk result (self.new ≡ self.old
            ++ warning_line names.now.mapping.now names.now.arena.now line warning) }
    {
        let warning = WarningText { names, warning };
        write!(self.text, "warning {line}: {warning}\n")
    }

    /// The line that names a table and its columns, and one for each of its rows, go behind the reply.
    pub fn put_table(&mut self, spec: &TableSpec, rows: &RowList) -> Result<(), AllocError>
        ensures { OnOk result (self.new ≡ self.old ++ table_text spec.now rows.now) }
    {
        self.put_head(spec)?;
        self.put_rows(rows.as_slice())
    }

    /// The line that names a table and its columns.
    fn put_head(&mut self, spec: &TableSpec) -> Result<(), AllocError>
        ensures { OnOk result (self.new ≡ self.old ++ table_line spec.now) }
    {
        self.put("table ")?;
        self.put(spec.name.get())?;
        self.put(" (")?;
        self.put_columns(spec.columns.as_slice())?;
        self.put(")\n")
    }

    /// The names of a table's columns, between commas.
    fn put_columns(&mut self, columns: &[ColumnSpec]) -> Result<(), AllocError>
        ensures { OnOk result (self.new ≡ self.old ++ columns_text columns.now) }
    {
        match columns.split_first() {
            Some((first, rest)) => {
                self.put(first.name.get())?;
                self.put_led(rest)
            }
            None => Ok(()),
        }
    }

    /// The names of columns, each behind a comma.
    fn put_led(&mut self, columns: &[ColumnSpec]) -> Result<(), AllocError>
        ensures { OnOk result
            (self.new ≡ self.old ++ with_leading_separators (codes ", ") (λ column. column.name) columns.now) }
    {
        for column in columns {
            self.put_one_led(column)?;
        }
        Ok(())
    }

    /// The name of a column, behind a comma.
    fn put_one_led(&mut self, column: &ColumnSpec) -> Result<(), AllocError>
        ensures { OnOk result (self.new ≡ self.old ++ (codes ", " ++ column.now.name)) }
    {
        self.put(", ")?;
        self.put(column.name.get())
    }

    /// The lines of rows.
    fn put_rows(&mut self, rows: &[RowValues]) -> Result<(), AllocError>
        ensures { OnOk result (self.new ≡ self.old ++ flat_map row_line rows.now) }
    {
        for row in rows {
            self.put_row(row)?;
        }
        Ok(())
    }

    /// The line of a row.
    fn put_row(&mut self, row: &RowValues) -> Result<(), AllocError>
        ensures { OnOk result (self.new ≡ self.old ++ row_line row.now) }
    {
        let row = RowText(row);
        write!(self.text, "  {row}\n")
    }

    /// The rows of a select, each on a line of its own, and the line that says how many they are, go behind the reply.
    pub fn put_answers(&mut self, rows: &RowList) -> Result<(), AllocError>
        ensures { OnOk result (self.new ≡ self.old ++ rows_text rows.now) }
    {
        self.put_each(rows.as_slice())?;
        self.put_count(rows.len() as u64)
    }

    /// Rows of a select, each on a line of its own.
    fn put_each(&mut self, rows: &[RowValues]) -> Result<(), AllocError>
        ensures { OnOk result (self.new ≡ self.old ++ flat_map answer_line rows.now) }
    {
        for row in rows {
            self.put_answer(row)?;
        }
        Ok(())
    }

    /// A row of a select on a line of its own.
    fn put_answer(&mut self, row: &RowValues) -> Result<(), AllocError>
        ensures { OnOk result (self.new ≡ self.old ++ answer_line row.now) }
    {
        let row = RowText(row);
        write!(self.text, "{row}\n")
    }

    /// The line that says how many rows there are goes behind the reply.
    pub fn put_count(&mut self, count: u64) -> Result<(), AllocError>
        ensures { OnOk result (self.new ≡ self.old ++ count_line count) }
    {
        write!(self.text, "rows {count}\n")
    }

    /// A line with the value goes behind the reply.
    pub fn put_value(&mut self, value: &Value) -> Result<(), AllocError>
        ensures { OnOk result (self.new ≡ self.old ++ line_of (value_text value.now)) }
    {
        let value = ValueText(value);
        write!(self.text, "{value}\n")
    }

    /// A line with this text goes behind the reply.
    pub fn put_line(&mut self, text: &str) -> Result<(), AllocError>
        ensures { OnOk result (self.new ≡ self.old ++ line_of text.now) }
    {
        self.put(text)?;
        self.put("\n")
    }

    /// The object, by the name of its class and its number, goes behind the reply.
    pub fn put_object(&mut self, class: &str, object: ObjId) -> Result<(), AllocError>
        ensures { OnOk result (self.new ≡ self.old ++ name_with_number class.now object) }
    {
        let number = object.0;
        write!(self.text, "{class}@{number}")
    }

    /// The line that says why the line of this number is refused, in place of what the reply had.
    pub fn put_error<N: Naming>(
        &mut self,
        line: u32,
        refusal: &Refusal,
        names: &N,
    ) -> Result<(), AllocError>
        ensures { OnOk result (self.new ≡ error_line (N.names names.now) line refusal.now) }
    {
        self.text.clear();
        let refusal = RefusalText { names, refusal };
        write!(self.text, "error {line}: {refusal}\n")
    }
}
