//! The texts of rows.

ghost use Rattle.std.specs.Prelude.{◌≡◌, Some, codes};
ghost use Rattle.std.specs.Fmt.{DisplaysOnOk};
ghost use Rattle.printing.specs.Texts.{row_text, value_text, with_leading_separators, with_separators};

use base_core::{RowValues, Value};
use std::fmt;
use value_texts::ValueText;

/// Writes each value with a comma before it.
fn write_led<W: fmt::Write>(f: &mut fmt::Formatter<W>, values: &[Value]) -> fmt::Result
    ensures { DisplaysOnOk W.write_str_gives f.old result
        (Some (with_leading_separators (codes ", ") value_text values.now)) f.new }
{
    for value in values {
        let shown = ValueText(value);
        write!(f, ", {shown}")?;
    }
    Ok(())
}

/// Writes the values with a comma between each two.
fn write_values<W: fmt::Write>(f: &mut fmt::Formatter<W>, values: &[Value]) -> fmt::Result
    ensures { DisplaysOnOk W.write_str_gives f.old result
        (Some (with_separators (codes ", ") value_text values.now)) f.new }
{
    match values.split_first() {
        Some((first, rest)) => {
            let shown = ValueText(first);
            write!(f, "{shown}")?;
            write_led(f, rest)
        }
        None => Ok(()),
    }
}

/// Writes a row: its values in parentheses.
#[derive(Drop)]
pub struct RowText<'a>(pub &'a RowValues);

impl<'a> fmt::Display for RowText<'a> {
    ghost output = { λ r. Some (row_text r.0.now) };

    fn fmt<W: fmt::Write>(&self, f: &mut fmt::Formatter<W>) -> fmt::Result {
        f.write_str("(")?;
        write_values(f, self.0.as_slice())?;
        f.write_str(")")
    }
}
