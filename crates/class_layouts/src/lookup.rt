//! Lines of classes, and which class owns a column.

ghost use Rattle.std.specs.Prelude.{◌≡◌, ◌<◌, length, IfSome};
ghost use Rattle.std.specs.List.{enumerate_from, position};
ghost use Rattle.schema_core.specs.Catalog.{same_name};
ghost use Rattle.class_layouts.specs.Hierarchy.{line_at, line_of, place_named, place_of, relations_at, root_in, same_root};
ghost use Rattle.class_layouts.specs.Columns.{is_owner, is_shown, is_table, owner_of};

use crate::Classes;
use crate::columns::lives_in;
use base_core::{ClassId, Name, TableId};
use class_blocks::{has_name, is_above};
use class_types::{ClassSpec, RelationSpec};
use schema_core::Schema;

/// The place of the class of a name.
pub fn place_of(specs: &[ClassSpec], name: &Name) -> Option<usize>
    ensures place { result ≡ place_of specs.now name.now }
    ensures inside { IfSome result (λ place. place < length specs.now) }
{
    specs.iter().position(|spec| spec.name == *name)
}

/// The place of the class that is named.
pub fn place_named(specs: &[ClassSpec], name: &Option<Name>) -> Option<usize>
    ensures place { result ≡ place_named specs.now name.now }
    ensures inside { IfSome result (λ place. place < length specs.now) }
{
    match name {
        Some(name) => place_of(specs, name),
        None => None,
    }
}

/// The line of a class: its root, and so on down to the class itself.
pub fn line_of(classes: &Classes, class: usize) -> &[ClassId]
    ensures { result.now ≡ line_of classes.now class }
{
    match classes.lines.get(class) {
        Some(line) => line.as_slice(),
        None => &[],
    }
}

/// The line of the class at a place, if there is one.
pub(crate) fn line_at(classes: &Classes, class: Option<usize>) -> &[ClassId]
    ensures { result.now ≡ line_at classes.now class }
{
    match class {
        Some(class) => line_of(classes, class),
        None => &[],
    }
}

/// The relationships of a class's own block.
pub fn relations_at(classes: &Classes, class: usize) -> &[RelationSpec]
    ensures { result.now ≡ relations_at classes.now class }
{
    match classes.specs.get(class) {
        Some(spec) => spec.relations.as_slice(),
        None => &[],
    }
}

/// The root of a line.
pub fn root_in(line: &[ClassId]) -> Option<ClassId>
    ensures { result ≡ root_in line.now }
{
    line.get(0).copied()
}

pub(crate) fn same_root(one: Option<ClassId>, other: Option<ClassId>) -> bool
    ensures { result ≡ same_root one other }
{
    match (one, other) {
        (Some(one), Some(other)) => one.0 == other.0,
        _ => false,
    }
}

/// Whether a table is the one that was found.
pub fn is_table(found: Option<TableId>, table: TableId) -> bool
    ensures { result ≡ is_table found table }
{
    match found {
        Some(found) => found.0 == table.0,
        None => false,
    }
}

/// Whether a class is of the hierarchy of this root, lives in the table and owns the column of this name.
fn is_owner(
    schema: &Schema,
    classes: &Classes,
    root: Option<ClassId>,
    table: TableId,
    name: &Name,
    class: usize,
    spec: &ClassSpec,
) -> bool
    ensures { result ≡ is_owner schema.now.tables classes.now root table name.now
        (class, spec.now) }
{
    let line = line_of(classes, class);
    has_name(spec.owned.as_slice(), name)
        && same_root(root, root_in(line))
        && is_table(lives_in(schema, classes, line), table)
}

/// The class that owns a column of a hierarchy's table.
pub fn owner_of(
    schema: &Schema,
    classes: &Classes,
    root: Option<ClassId>,
    table: TableId,
    name: &Name,
) -> Option<usize>
    ensures { result ≡ owner_of schema.now.tables classes.now root table name.now }
{
    classes.specs.as_slice().iter().enumerate().position(|(class, spec)| is_owner(
        schema, classes, root, table, name, class, spec,
    ))
}

/// Whether no class owns a column, or one does that stands in the line.
pub fn is_shown(
    schema: &Schema,
    classes: &Classes,
    line: &[ClassId],
    table: TableId,
    name: &Name,
) -> bool
    ensures { result ≡ is_shown schema.now.tables classes.now line.now table name.now }
{
    is_above(owner_of(schema, classes, root_in(line), table, name), line)
}
