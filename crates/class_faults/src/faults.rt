//! Why the declarations of relationships and hierarchies are refused.

ghost use Rattle.std.specs.Prelude.{◌≡◌, ◌&&◌, find, not, slice_get, Some};
ghost use Rattle.std.specs.List.{enumerate_from, list_any};
ghost use Rattle.schema_core.specs.Catalog.{has_name, is_required, same_name};
ghost use Rattle.schema_core.specs.Declaration.{some_two};
ghost use Rattle.class_sides.specs.Pairs.{differs, has_two_joins, lacks_join, overlaps};
ghost use Rattle.class_faults.specs.Faults.{fault_among, fault_of_keys, fault_of_pairs, has_fixed, inherits_badly, is_bad_secondary, is_discriminator, is_fixed, is_free_column, is_key_named, is_of_key, is_place, is_unique_name, keeps_no_orphans, key_of, may_own, misses_delete, misses_table, misses_target, misses_tie_in, owns_rightly, posts_badly};
ghost use Rattle.class_layouts.specs.Columns.{columns_in};
ghost use Rattle.class_sides.specs.Keys.{is_tied, names_of};

use base_core::{ArgumentKind, ClassId, ListOf, Name, TableId};
use class_layouts::{
    Classes, Layout, column_of, columns_of, discriminator_is, is_table, line_of, lives_in,
    owner_of, repeats, root_in, root_table_on, table_at,
};
use class_sides::{
    Side, TableKey, differs, has_name, has_two_joins, is_plain, is_tied, join_of, lacks_join,
    many_cascade, names_of, some_overlap,
};
use class_types::{Cascade, ClassSpec};
use schema_core::{ColumnSpec, Schema, is_required};

// ---- BadTarget

fn misses_table(schema: &Schema, name: &Option<Name>) -> bool
    ensures { result ≡ misses_table schema.now.tables name.now }
{
    match name {
        Some(name) => schema.find(name).is_none(),
        None => false,
    }
}

/// Whether the target class or the secondary table is not declared.
fn misses_target(schema: &Schema, side: &Side) -> bool
    ensures { result ≡ misses_target schema.now.tables side.now }
{
    side.target.is_none() || misses_table(schema, &side.spec.secondary)
}

fn some_misses_target(schema: &Schema, sides: &[Side]) -> bool
    ensures { result ≡ list_any (misses_target schema.now.tables) sides.now }
{
    sides.iter().any(|side| misses_target(schema, side))
}

// ---- BadInheritance

/// Whether a column of the name is there, and no key.
fn is_free_name(columns: &[ColumnSpec], name: &Name) -> bool
    ensures { result ≡ is_free_column
        (find (λ column. same_name column.name name.now) columns.now) }
{
    match column_of(columns, name) {
        Some(column) => !column.key,
        None => false,
    }
}

fn is_place(found: Option<usize>, class: usize) -> bool
    ensures { result ≡ is_place found class }
{
    match found {
        Some(found) => found == class,
        None => false,
    }
}

/// Whether a table is the root's, and a column its discriminator.
fn is_discriminator(
    schema: &Schema,
    classes: &Classes,
    root: Option<ClassId>,
    table: TableId,
    name: &Name,
) -> bool
    ensures { result ≡ is_discriminator schema.now.tables classes.now root table name.now }
{
    is_table(root_table_on(schema, classes, root), table) && discriminator_is(classes, root, name)
}

/// Whether a column of the name is in the table, and no key.
fn is_free_at(schema: &Schema, table: TableId, name: &Name) -> bool
    ensures { result ≡ is_free_column (find (λ column. same_name column.name name.now)
        (columns_in schema.now.tables table)) }
{
    is_free_name(columns_of(schema, table), name)
}

/// Whether a class may own a column of a table.
fn may_own_at(
    schema: &Schema,
    classes: &Classes,
    class: usize,
    root: Option<ClassId>,
    name: &Name,
    table: TableId,
) -> bool
    ensures { result ≡ may_own schema.now.tables classes.now class root name.now (Some table) }
{
    if !is_free_at(schema, table, name) {
        return false;
    }
    if is_discriminator(schema, classes, root, table, name) {
        return false;
    }
    is_place(owner_of(schema, classes, root, table, name), class)
}

/// Whether a class may own a column of the table in which it lives.
fn may_own(
    schema: &Schema,
    classes: &Classes,
    class: usize,
    root: Option<ClassId>,
    name: &Name,
    table: Option<TableId>,
) -> bool
    ensures { result ≡ may_own schema.now.tables classes.now class root name.now table }
{
    match table {
        Some(table) => may_own_at(schema, classes, class, root, name, table),
        None => false,
    }
}

/// Whether a column is one of the table in which the class lives, no key and no discriminator, and no other class owns it.
fn owns_rightly(schema: &Schema, classes: &Classes, class: usize, name: &Name) -> bool
    ensures { result ≡ owns_rightly schema.now.tables classes.now class name.now }
{
    let line = line_of(classes, class);
    may_own(
        schema,
        classes,
        class,
        root_in(line),
        name,
        lives_in(schema, classes, line),
    )
}

/// Whether a class owns a column that it may not own.
fn some_owned_badly(schema: &Schema, classes: &Classes, class: usize, owned: &[Name]) -> bool
    ensures { result ≡ list_any (λ name. not
        (owns_rightly schema.now.tables classes.now class name)) owned.now }
{
    owned
        .iter()
        .any(|name| !owns_rightly(schema, classes, class, name))
}

/// Whether a table behind the root's has no foreign key to the one before.
fn some_untied(schema: &Schema, found: &[TableId]) -> bool
    ensures { result ≡ list_any (λ ranked. not (is_tied schema.now.tables found.now ranked))
        (enumerate_from 0 found.now) }
{
    found
        .iter()
        .enumerate()
        .any(|(rank, table)| !is_tied(schema, found, rank, *table))
}

/// Whether a table of a class, behind its root's, has no foreign key to the one before.
fn misses_tie_in(schema: &Schema, layouts: &[Layout], class: usize) -> bool
    ensures { result ≡ misses_tie_in schema.now.tables (slice_get layouts.now class) }
{
    match layouts.get(class) {
        Some(layout) => some_untied(schema, layout.tables.as_slice()),
        None => false,
    }
}

/// Whether a class is too deep, its table's key is no foreign key to its parent's table, or it owns what it may not own.
fn inherits_badly(
    schema: &Schema,
    classes: &Classes,
    layouts: &[Layout],
    class: usize,
    spec: &ClassSpec,
) -> bool
    ensures { result ≡ inherits_badly schema.now.tables classes.now layouts.now (class, spec.now) }
{
    let owned = spec.owned.as_slice();
    16 < line_of(classes, class).len()
        || misses_tie_in(schema, layouts, class)
        || repeats(owned)
        || some_owned_badly(schema, classes, class, owned)
}

fn some_inherits_badly(schema: &Schema, classes: &Classes, layouts: &[Layout]) -> bool
    ensures { result ≡ list_any (inherits_badly schema.now.tables classes.now layouts.now)
        (enumerate_from 0 classes.now.specs) }
{
    classes.specs.as_slice().iter().enumerate().any(|(class, spec)| inherits_badly(
        schema, classes, layouts, class, spec,
    ))
}

// ---- BadSecondary

/// Whether a link names a secondary table, or a collection names one whose columns, key or foreign keys are not right.
fn is_bad_secondary(side: &Side) -> bool
    ensures { result ≡ is_bad_secondary side.now }
{
    side.spec.secondary.is_some() && (!side.spec.many || side.ends.is_none())
}

// ---- NoJoin, TwoJoins and PartnerDiffers

fn some_lacks_join(schema: &Schema, classes: &Classes, sides: &[Side]) -> bool
    ensures { result ≡ list_any (lacks_join schema.now.tables classes.now sides.now) sides.now }
{
    sides
        .iter()
        .any(|side| lacks_join(schema, classes, sides, side))
}

fn some_has_two_joins(schema: &Schema, classes: &Classes, sides: &[Side]) -> bool
    ensures { result ≡ list_any (has_two_joins schema.now.tables classes.now sides.now) sides.now }
{
    sides
        .iter()
        .any(|side| has_two_joins(schema, classes, sides, side))
}

fn some_differs(classes: &Classes, layouts: &[Layout], sides: &[Side]) -> bool
    ensures { result ≡ list_any (differs classes.now layouts.now sides.now) sides.now }
{
    sides
        .iter()
        .any(|side| differs(classes, layouts, sides, side))
}

// ---- KeyForeign

fn is_key_named(columns: &[ColumnSpec], name: &Name) -> bool
    ensures { result ≡ is_key_named columns.now name.now }
{
    columns
        .iter()
        .any(|column| column.key && column.name == *name)
}

/// Whether a name is that of a key column.
fn some_key_named(columns: &[ColumnSpec], names: &[Name]) -> bool
    ensures { result ≡ list_any (is_key_named columns.now) names.now }
{
    names.iter().any(|name| is_key_named(columns, name))
}

/// Whether a column of a foreign key is one of its table's key.
fn is_of_key_at(schema: &Schema, key: TableKey) -> bool
    ensures { result ≡ is_of_key schema.now.tables (Some key) }
{
    let columns = columns_of(schema, key.0);
    some_key_named(columns, names_of(schema, key))
}

/// Whether a column of the foreign key is one of its table's key.
fn is_of_key(schema: &Schema, key: Option<TableKey>) -> bool
    ensures { result ≡ is_of_key schema.now.tables key }
{
    match key {
        Some(key) => is_of_key_at(schema, key),
        None => false,
    }
}

fn keeps_no_orphans(cascade: Cascade) -> bool
    ensures { result ≡ keeps_no_orphans cascade }
{
    cascade.delete && cascade.delete_orphan
}

/// Whether a foreign key has a key column, and the many side lacks delete or delete-orphan.
fn misses_delete(schema: &Schema, classes: &Classes, sides: &[Side], side: &Side) -> bool
    ensures { result ≡ misses_delete schema.now.tables classes.now sides.now side.now }
{
    is_plain(side)
        && is_of_key(schema, join_of(schema, classes, sides, side))
        && !keeps_no_orphans(many_cascade(sides, side))
}

fn some_misses_delete(schema: &Schema, classes: &Classes, sides: &[Side]) -> bool
    ensures { result ≡ list_any (misses_delete schema.now.tables classes.now sides.now) sides.now }
{
    sides
        .iter()
        .any(|side| misses_delete(schema, classes, sides, side))
}

// ---- BadPostUpdate

/// The foreign key behind a side; of a secondary table the one to the side.
fn key_of(schema: &Schema, classes: &Classes, sides: &[Side], side: &Side) -> Option<TableKey>
    ensures { result ≡ key_of schema.now.tables classes.now sides.now side.now }
{
    if is_plain(side) {
        return join_of(schema, classes, sides, side);
    }
    match side.ends {
        Some(ends) => Some(ends.0),
        None => None,
    }
}

/// Whether a column is in a unique constraint.
fn is_unique_name(schema: &Schema, table: TableId, name: &Name) -> bool
    ensures { result ≡ is_unique_name (slice_get schema.now.tables table.0) name.now }
{
    match table_at(schema, table) {
        Some(spec) => some_unique_has(spec.uniques.as_slice(), name),
        None => false,
    }
}

fn some_unique_has(uniques: &[ListOf<Name>], name: &Name) -> bool
    ensures { result ≡ list_any (λ unique. has_name unique name.now) uniques.now }
{
    uniques
        .iter()
        .any(|unique| has_name(unique.as_slice(), name))
}

fn is_required_name(columns: &[ColumnSpec], name: &Name) -> bool
    ensures { result ≡ list_any (λ column. is_required column
        && same_name column.name name.now) columns.now }
{
    columns
        .iter()
        .any(|column| is_required(column) && column.name == *name)
}

/// Whether a column takes no NULL, or is in a unique constraint.
fn is_fixed(schema: &Schema, table: TableId, name: &Name) -> bool
    ensures { result ≡ is_fixed schema.now.tables table name.now }
{
    is_required_name(columns_of(schema, table), name) || is_unique_name(schema, table, name)
}

/// Whether a column of these names takes no NULL, or is in a unique constraint.
fn some_fixed(schema: &Schema, table: TableId, names: &[Name]) -> bool
    ensures { result ≡ list_any (is_fixed schema.now.tables table) names.now }
{
    names.iter().any(|name| is_fixed(schema, table, name))
}

fn has_fixed(schema: &Schema, key: Option<TableKey>) -> bool
    ensures { result ≡ has_fixed schema.now.tables key }
{
    match key {
        Some(key) => some_fixed(schema, key.0, names_of(schema, key)),
        None => false,
    }
}

/// Whether a foreign key that is to be written late has a column that takes no NULL or is in a unique constraint.
fn posts_badly(schema: &Schema, classes: &Classes, sides: &[Side], side: &Side) -> bool
    ensures { result ≡ posts_badly schema.now.tables classes.now sides.now side.now }
{
    side.spec.post_update
        && (!side.spec.many || side.spec.secondary.is_some())
        && has_fixed(schema, key_of(schema, classes, sides, side))
}

fn some_posts_badly(schema: &Schema, classes: &Classes, sides: &[Side]) -> bool
    ensures { result ≡ list_any (posts_badly schema.now.tables classes.now sides.now) sides.now }
{
    sides
        .iter()
        .any(|side| posts_badly(schema, classes, sides, side))
}

// ---- the first fault

#[tactic(auto, unfolding(crate::specs::Faults::fault_of_pairs))]
/// The first fault of pairs.
fn fault_of_pairs(
    schema: &Schema,
    classes: &Classes,
    layouts: &[Layout],
    sides: &[Side],
) -> Option<ArgumentKind>
    ensures { result ≡ fault_of_pairs schema.now.tables classes.now layouts.now sides.now }
{
    if some_overlap(schema, classes, sides) {
        return Some(ArgumentKind::Overlap);
    }
    if some_differs(classes, layouts, sides) {
        return Some(ArgumentKind::PartnerDiffers);
    }
    if some_misses_delete(schema, classes, sides) {
        return Some(ArgumentKind::KeyForeign);
    }
    if some_posts_badly(schema, classes, sides) {
        return Some(ArgumentKind::BadPostUpdate);
    }
    None
}

fn some_bad_secondary(sides: &[Side]) -> bool
    ensures { result ≡ list_any is_bad_secondary sides.now }
{
    sides.iter().any(is_bad_secondary)
}

#[tactic(auto, unfolding(crate::specs::Faults::fault_of_keys))]
/// The first fault of the keys of relationships, and then of pairs.
fn fault_of_keys(
    schema: &Schema,
    classes: &Classes,
    layouts: &[Layout],
    sides: &[Side],
) -> Option<ArgumentKind>
    ensures { result ≡ fault_of_keys schema.now.tables classes.now layouts.now sides.now }
{
    if some_bad_secondary(sides) {
        return Some(ArgumentKind::BadSecondary);
    }
    if some_lacks_join(schema, classes, sides) {
        return Some(ArgumentKind::NoJoin);
    }
    if some_has_two_joins(schema, classes, sides) {
        return Some(ArgumentKind::TwoJoins);
    }
    fault_of_pairs(schema, classes, layouts, sides)
}

#[tactic(auto, unfolding(crate::specs::Faults::fault_among))]
/// The first fault of all declarations, where what the classes have and the declared relationships are known.
pub fn fault_among(
    schema: &Schema,
    classes: &Classes,
    layouts: &[Layout],
    sides: &[Side],
) -> Option<ArgumentKind>
    ensures { result ≡ fault_among schema.now.tables classes.now layouts.now sides.now }
{
    if !schema.has_targets() || some_misses_target(schema, sides) {
        return Some(ArgumentKind::BadTarget);
    }
    if some_inherits_badly(schema, classes, layouts) {
        return Some(ArgumentKind::BadInheritance);
    }
    fault_of_keys(schema, classes, layouts, sides)
}
