//! Places in the lines of classes.

ghost use Rattle.std.specs.Prelude.{◌≡◌};
ghost use Rattle.class_mapping.specs.Mapped.{before_last, class_or, table_or_none};

use base_core::{ClassId, TableId};

pub(crate) fn class_or(found: Option<ClassId>, class: ClassId) -> ClassId
    ensures { result ≡ class_or found class }
{
    match found {
        Some(found) => found,
        None => class,
    }
}

pub(crate) fn table_or_none(found: Option<TableId>) -> TableId
    ensures { result ≡ table_or_none found }
{
    match found {
        Some(table) => table,
        None => TableId(0),
    }
}

/// The class before the last of a line.
pub(crate) fn before_last(line: &[ClassId]) -> Option<ClassId>
    ensures { result ≡ before_last line.now }
{
    if line.len() < 2 {
        return None;
    }
    line.get(line.len() - 2).copied()
}
