//! Which foreign keys can serve a relationship without a secondary table.

ghost use Rattle.std.specs.Prelude.{◌≡◌, ◌&&◌, ◌==◌, ◌++◌, IfOk, OnOk, slice_get};
ghost use Rattle.std.specs.Option.{option_copied};
ghost use Rattle.std.specs.List.{enumerate_from, flat_map, list_all, list_any};
ghost use Rattle.schema_core.specs.Catalog.{same_name};
ghost use Rattle.class_sides.specs.Sides.{candidates, candidates_of, has_attribute, layout_at, serves, table_candidates};

use crate::keys::{is_inherited, refers_into};
use base_core::{ClassId, ListOf, Name, TableId};
use class_blocks::{TableKey, allows};
use class_layouts::{Layout, foreigns_of, number_of};
use class_types::{Attribute, RelationSpec};
use schema_core::{ForeignSpec, Schema};
use std::alloc::{AllocError, Global};

/// What a class has.
pub(crate) fn layout_at(layouts: &[Layout], class: Option<ClassId>) -> Option<&Layout>
    ensures { option_copied result ≡ layout_at layouts.now class }
{
    match class {
        Some(class) => layouts.get(class.0 as usize),
        None => None,
    }
}

/// Whether the column of a table is an attribute.
fn has_attribute(attributes: &[Attribute], table: TableId, name: &Name) -> bool
    ensures { result ≡ has_attribute attributes.now table name.now }
{
    let Some((attribute, attributes)) = attributes.split_first() else {
        return false;
    };
    (attribute.table.0 == table.0 && attribute.name == *name)
        || has_attribute(attributes, table, name)
}

/// Whether the columns of a table are attributes.
fn has_attributes(attributes: &[Attribute], table: TableId, names: &[Name]) -> bool
    ensures { result ≡ list_all (has_attribute attributes.now table) names.now }
{
    let Some((name, names)) = names.split_first() else {
        return true;
    };
    has_attribute(attributes, table, name) && has_attributes(attributes, table, names)
}

/// Whether a foreign key of a table of the many side can serve.
fn serves(
    schema: &Schema,
    child: &Layout,
    owners: &[TableId],
    named: &[Name],
    rank: usize,
    table: TableId,
    foreign: &ForeignSpec,
) -> bool
    ensures { result
        ≡ serves schema.now.tables child.now owners.now named.now rank table foreign.now }
{
    let columns = foreign.columns.as_slice();
    refers_into(schema, foreign, owners)
        && !is_inherited(schema, child.tables.as_slice(), rank, table, foreign)
        && has_attributes(child.attributes.as_slice(), table, columns)
        && allows(named, columns)
}

#[tactic(auto, using(class_layouts::proofs::Steps::steps))]
/// The keys of a table of the many side that can serve go behind others.
fn push_candidates(
    all: &mut ListOf<TableKey>,
    schema: &Schema,
    child: &Layout,
    owners: &[TableId],
    named: &[Name],
    rank: usize,
    table: TableId,
) -> Result<(), AllocError>
    ensures { OnOk result (all.new
        ≡ all.old ++ table_candidates schema.now.tables child.now owners.now named.now
        (rank, table)) }
{
    let foreigns = foreigns_of(schema, table);
    for (place, foreign) in foreigns.iter().enumerate() {
        if serves(schema, child, owners, named, rank, table, foreign) {
            all.push((table, number_of(place)?))?;
        }
    }
    Ok(())
}

#[tactic(auto, using(class_layouts::proofs::Steps::steps))]
/// The keys of the tables of the many side that can serve.
fn candidates_among(
    alloc: Global,
    schema: &Schema,
    child: &Layout,
    owners: &[TableId],
    named: &[Name],
) -> Result<ListOf<TableKey>, AllocError>
    ensures { IfOk result (λ all. all
        ≡ flat_map (table_candidates schema.now.tables child.now owners.now named.now)
        (enumerate_from 0 child.now.tables)) }
{
    let tables = child.tables.as_slice();
    let mut all = ListOf::new(alloc);
    for (rank, table) in tables.iter().enumerate() {
        push_candidates(&mut all, schema, child, owners, named, rank, *table)?;
    }
    Ok(all)
}

/// The keys of the many side that can serve, where both sides are known.
fn candidates(
    alloc: Global,
    schema: &Schema,
    layouts: &[Layout],
    named: &[Name],
    child: Option<ClassId>,
    owner: Option<ClassId>,
) -> Result<ListOf<TableKey>, AllocError>
    ensures { IfOk result (λ all. all
        ≡ candidates schema.now.tables named.now (layout_at layouts.now child)
        (layout_at layouts.now owner)) }
{
    let Some(child) = layout_at(layouts, child) else {
        return Ok(ListOf::new(alloc));
    };
    match layout_at(layouts, owner) {
        Some(owner) => candidates_among(alloc, schema, child, owner.tables.as_slice(), named),
        None => Ok(ListOf::new(alloc)),
    }
}

/// The keys that can serve a relationship from a class to its target.
pub(crate) fn candidates_of(
    alloc: Global,
    schema: &Schema,
    layouts: &[Layout],
    relation: &RelationSpec,
    own: Option<ClassId>,
    target: Option<ClassId>,
) -> Result<ListOf<TableKey>, AllocError>
    ensures { IfOk result (λ all. all
        ≡ candidates_of schema.now.tables relation.now (layout_at layouts.now own)
        (layout_at layouts.now target)) }
{
    let named = relation.using.as_slice();
    if relation.many {
        return candidates(alloc, schema, layouts, named, target, own);
    }
    candidates(alloc, schema, layouts, named, own, target)
}
