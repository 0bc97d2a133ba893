//! The texts of objects, of rows by table and object, and of lists of them.

ghost use Rattle.std.specs.Prelude.{Some, codes};
ghost use Rattle.std.specs.Fmt.{DisplaysOnOk};
ghost use Rattle.printing.specs.Texts.{with_leading_separators, with_separators, object_text, objects_text, row_name_text};

use crate::Naming;
use base_core::{ListOf, ObjId, RowName};
use std::fmt;

/// Writes an object: the name of its class, `@`, and its number.
#[derive(Drop)]
pub struct ObjectText<'a, N> {
    pub names: &'a N,
    pub object: ObjId,
}

impl<'a, N: Naming> fmt::Display for ObjectText<'a, N> {
    ghost output = { λ o. Some (object_text (N.names o.names.now) o.object) };

    fn fmt<W: fmt::Write>(&self, f: &mut fmt::Formatter<W>) -> fmt::Result {
        let name = self.names.class_of(self.object);
        let number = self.object.0;
        write!(f, "{name}@{number}")
    }
}

/// Writes each object with a comma before it.
fn write_led<W: fmt::Write, N: Naming>(
    f: &mut fmt::Formatter<W>,
    names: &N,
    objects: &[ObjId],
) -> fmt::Result
    ensures { DisplaysOnOk W.write_str_gives f.old result
        (Some (with_leading_separators (codes ", ") (object_text (N.names names.now)) objects.now)) f.new }
{
    for object in objects {
        let shown = ObjectText {
            names,
            object: *object,
        };
        write!(f, ", {shown}")?;
    }
    Ok(())
}

/// Writes the objects with a comma between each two.
fn write_objects<W: fmt::Write, N: Naming>(
    f: &mut fmt::Formatter<W>,
    names: &N,
    objects: &[ObjId],
) -> fmt::Result
    ensures { DisplaysOnOk W.write_str_gives f.old result
        (Some (with_separators (codes ", ") (object_text (N.names names.now)) objects.now)) f.new }
{
    match objects.split_first() {
        Some((first, rest)) => {
            let shown = ObjectText {
                names,
                object: *first,
            };
            write!(f, "{shown}")?;
            write_led(f, names, rest)
        }
        None => Ok(()),
    }
}

/// Writes a list of objects in brackets.
#[derive(Drop)]
pub struct ObjectsText<'a, N> {
    pub names: &'a N,
    pub objects: &'a ListOf<ObjId>,
}

impl<'a, N: Naming> fmt::Display for ObjectsText<'a, N> {
    ghost output = { λ o. Some (objects_text (N.names o.names.now) o.objects.now) };

    fn fmt<W: fmt::Write>(&self, f: &mut fmt::Formatter<W>) -> fmt::Result {
        f.write_str("[")?;
        write_objects(f, self.names, self.objects.as_slice())?;
        f.write_str("]")
    }
}

/// Writes a row of a cycle: its table's name, `@`, and its object's number.
#[derive(Drop)]
pub struct RowNameText<'a, N> {
    pub names: &'a N,
    pub row: RowName,
}

impl<'a, N: Naming> fmt::Display for RowNameText<'a, N> {
    ghost output = { λ r. Some (row_name_text (N.names r.names.now) r.row) };

    fn fmt<W: fmt::Write>(&self, f: &mut fmt::Formatter<W>) -> fmt::Result {
        let name = self.names.table_name(self.row.table);
        let number = self.row.object.0;
        write!(f, "{name}@{number}")
    }
}

/// Writes each row of a cycle with an arrow before it.
fn write_led_rows<W: fmt::Write, N: Naming>(
    f: &mut fmt::Formatter<W>,
    names: &N,
    rows: &[RowName],
) -> fmt::Result
    ensures { DisplaysOnOk W.write_str_gives f.old result
        (Some (with_leading_separators (codes " -> ") (row_name_text (N.names names.now)) rows.now)) f.new }
{
    for row in rows {
        let shown = RowNameText { names, row: *row };
        write!(f, " -> {shown}")?;
    }
    Ok(())
}

/// Writes the rows of a cycle with an arrow between each two.
pub fn write_cycle<W: fmt::Write, N: Naming>(
    f: &mut fmt::Formatter<W>,
    names: &N,
    rows: &[RowName],
) -> fmt::Result
    ensures { DisplaysOnOk W.write_str_gives f.old result
        (Some (with_separators (codes " -> ") (row_name_text (N.names names.now)) rows.now)) f.new }
{
    match rows.split_first() {
        Some((first, rest)) => {
            let shown = RowNameText { names, row: *first };
            write!(f, "{shown}")?;
            write_led_rows(f, names, rest)
        }
        None => Ok(()),
    }
}
