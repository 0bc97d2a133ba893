//! A statement's text, and the line of its values.

ghost use Rattle.std.specs.Prelude.{◌≡◌, Some, codes};
ghost use Rattle.std.specs.List.{zip};
ghost use Rattle.std.specs.Fmt.{DisplaysOnOk};
ghost use Rattle.printing.specs.Texts.{with_leading_separators, with_separators};
ghost use Rattle.statement_lines.specs.StatementLines as spec;

use base_core::{Dialect, ListOf, Name, RowValues, Value};
use printing::{RowText, ValueText};
use sql_text::Compiled;
use std::fmt;

/// Writes a mark's name, `=` and its value.
fn write_named_value<W: fmt::Write>(
    f: &mut fmt::Formatter<W>,
    name: &Name,
    value: &Value,
) -> fmt::Result
    ensures { DisplaysOnOk W.write_str_gives f.old result
        (Some (spec.named_value (name.now, value.now))) f.new }
{
    let name = name.get();
    let shown = ValueText(value);
    write!(f, "{name}={shown}")
}

/// Writes each value behind its mark's name, with a comma before it.
fn write_led<W: fmt::Write>(
    f: &mut fmt::Formatter<W>,
    names: &[Name],
    values: &[Value],
) -> fmt::Result
    ensures { DisplaysOnOk W.write_str_gives f.old result
        (Some (with_leading_separators (codes ", ") spec.named_value (zip names.now values.now))) f.new }
{
    let mut place = 0;
    while place < names.len() && place < values.len() {
        f.write_str(", ")?;
        write_named_value(f, &names[place], &values[place])?;
        place += 1;
    }
    Ok(())
}

/// Writes each value behind its mark's name, with a comma between each two.
fn write_named_values<W: fmt::Write>(
    f: &mut fmt::Formatter<W>,
    names: &[Name],
    values: &[Value],
) -> fmt::Result
    ensures { DisplaysOnOk W.write_str_gives f.old result
        (Some (with_separators (codes ", ") spec.named_value (zip names.now values.now))) f.new }
{
    let Some((name, names)) = names.split_first() else {
        return Ok(());
    };
    let Some((value, values)) = values.split_first() else {
        return Ok(());
    };
    write_named_value(f, name, value)?;
    write_led(f, names, values)
}

/// Writes values in parentheses, each behind the name of its mark.
#[derive(Drop)]
struct NamedValuesText<'a> {
    names: &'a ListOf<Name>,
    values: &'a RowValues,
}

impl<'a> fmt::Display for NamedValuesText<'a> {
    ghost output = { λ v. Some (spec.named_values v.names.now v.values.now) };

    fn fmt<W: fmt::Write>(&self, f: &mut fmt::Formatter<W>) -> fmt::Result {
        f.write_str("(")?;
        write_named_values(f, self.names.as_slice(), self.values.as_slice())?;
        f.write_str(")")
    }
}

/// Writes the values of a text's marks in parentheses.
#[derive(Drop)]
struct ValuesText<'a> {
    dialect: Dialect,
    compiled: &'a Compiled,
}

impl<'a> fmt::Display for ValuesText<'a> {
    ghost output = { λ v. Some (spec.values_text v.dialect v.compiled.now) };

    fn fmt<W: fmt::Write>(&self, f: &mut fmt::Formatter<W>) -> fmt::Result {
        let values = &self.compiled.values;
        match self.dialect {
            Dialect::Postgresql => {
                let names = &self.compiled.names;
                let named = NamedValuesText { names, values };
                write!(f, "{named}")
            }
            Dialect::Sqlite | Dialect::Mysql => {
                let row = RowText(values);
                write!(f, "{row}")
            }
        }
    }
}

/// Writes a statement's text, and where it has marks their values in a second line behind `par>`. PostgreSQL's marks have names,
/// which are written before the values.
#[derive(Drop)]
pub(crate) struct StatementText<'a> {
    pub dialect: Dialect,
    pub compiled: &'a Compiled,
}

impl<'a> fmt::Display for StatementText<'a> {
    ghost output = { λ s. Some (spec.statement_text s.dialect s.compiled.now) };

    fn fmt<W: fmt::Write>(&self, f: &mut fmt::Formatter<W>) -> fmt::Result {
        let dialect = self.dialect;
        let compiled = self.compiled;
        f.write_str(compiled.text.get())?;
        if compiled.values.as_slice().is_empty() {
            return Ok(());
        }
        let values = ValuesText { dialect, compiled };
        write!(f, "\npar> {values}")
    }
}
