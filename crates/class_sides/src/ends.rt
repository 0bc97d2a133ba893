//! The two keys of a secondary table.

ghost use Rattle.std.specs.Prelude.{◌≡◌, ◌&&◌, [], ◌∷◌};
ghost use Rattle.std.specs.List.{list_all, list_any};
ghost use Rattle.schema_core.specs.Catalog.{has_name};
ghost use Rattle.class_sides.specs.Sides.{ends_among, ends_by, ends_in, ends_of, is_all_keys, layout_at};

use crate::candidates::layout_at;
use crate::keys::refers_into;
use base_core::{ClassId, Name, TableId};
use class_blocks::{Ends, has_name};
use class_layouts::{Layout, columns_of, foreigns_of, maps_name, named_table};
use class_types::ClassSpec;
use schema_core::{ColumnSpec, ForeignSpec, Schema};

/// Whether a foreign key has the column.
fn some_foreign_has(foreigns: &[ForeignSpec], name: &Name) -> bool
    ensures { result ≡ list_any (λ foreign. has_name foreign.columns name.now) foreigns.now }
{
    let Some((foreign, foreigns)) = foreigns.split_first() else {
        return false;
    };
    has_name(foreign.columns.as_slice(), name) || some_foreign_has(foreigns, name)
}

/// Whether each column of a table is of its key and of one of its foreign keys.
fn is_all_keys(columns: &[ColumnSpec], foreigns: &[ForeignSpec]) -> bool
    ensures { result ≡ is_all_keys columns.now foreigns.now }
{
    let Some((column, columns)) = columns.split_first() else {
        return true;
    };
    column.key && some_foreign_has(foreigns, &column.name) && is_all_keys(columns, foreigns)
}

/// Which of two foreign keys refers to which side; the first to the near one, where both ways fit.
fn ends_by(
    schema: &Schema,
    table: TableId,
    first: &ForeignSpec,
    second: &ForeignSpec,
    near: &[TableId],
    far: &[TableId],
) -> Option<Ends>
    ensures { result ≡ ends_by schema.now.tables table first.now second.now near.now far.now }
{
    if refers_into(schema, first, near) && refers_into(schema, second, far) {
        return Some(((table, 0), (table, 1)));
    }
    if refers_into(schema, second, near) && refers_into(schema, first, far) {
        return Some(((table, 1), (table, 0)));
    }
    None
}

/// The keys of a table that has two foreign keys to two tables, which are all its columns and its whole key.
fn ends_among(
    schema: &Schema,
    table: TableId,
    foreigns: &[ForeignSpec],
    near: &[TableId],
    far: &[TableId],
) -> Option<Ends>
    ensures { result ≡ ends_among schema.now.tables table foreigns.now near.now far.now }
{
    let [first, second] = foreigns else {
        return None;
    };
    if is_all_keys(columns_of(schema, table), foreigns) && first.target != second.target {
        return ends_by(schema, table, first, second, near, far);
    }
    None
}

/// The two keys of the secondary table that is found, where both sides are known.
fn ends_in(
    schema: &Schema,
    layouts: &[Layout],
    table: Option<TableId>,
    near: Option<ClassId>,
    far: Option<ClassId>,
) -> Option<Ends>
    ensures { result ≡ ends_in schema.now.tables table (layout_at layouts.now near)
        (layout_at layouts.now far) }
{
    let near = layout_at(layouts, near);
    let (Some(table), Some(near), Some(far)) = (table, near, layout_at(layouts, far)) else {
        return None;
    };
    ends_among(
        schema,
        table,
        foreigns_of(schema, table),
        near.tables.as_slice(),
        far.tables.as_slice(),
    )
}

/// The two keys of the secondary table that is named, which no class maps.
pub(crate) fn ends_of(
    schema: &Schema,
    specs: &[ClassSpec],
    layouts: &[Layout],
    secondary: &Option<Name>,
    near: Option<ClassId>,
    far: Option<ClassId>,
) -> Option<Ends>
    ensures { result ≡ ends_of schema.now.tables specs.now secondary.now
        (layout_at layouts.now near) (layout_at layouts.now far) }
{
    if maps_name(specs, secondary) {
        return None;
    }
    ends_in(schema, layouts, named_table(schema, secondary), near, far)
}
