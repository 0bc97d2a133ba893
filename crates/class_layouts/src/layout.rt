//! The attributes of a class.

ghost use Rattle.std.specs.Prelude.{◌≡◌, ◌++◌, IfOk, OnOk};
ghost use Rattle.std.specs.List.{enumerate_from, flat_map};
ghost use Rattle.class_layouts.specs.Columns.{attribute_at, is_attribute, is_key, keys_among, layout_of, layouts_of, table_attributes};

use crate::Classes;
use crate::columns::tables_on;
use crate::lookup::is_shown;
use base_core::{AttrNo, ClassId, ColumnNo, Copied, ListOf, TableId};
use class_blocks::columns_of;
use class_types::Attribute;
use schema_core::{ColumnSpec, Schema, kind_of};
use std::alloc::{AllocError, Global};

/// What a class has: its tables, its root's first, its attributes, and which of them are those of the key.
#[derive(Drop)]
pub struct Layout {
    pub tables: ListOf<TableId>,
    pub attributes: ListOf<Attribute>,
    pub keys: ListOf<AttrNo>,
}

/// A place as a number; places past 32 bits have no memory.
pub fn number_of(place: usize) -> Result<u32, AllocError>
    ensures { IfOk result (λ number. number ≡ place) }
{
    match u32::try_from(place) {
        Ok(number) => Ok(number),
        Err(_) => Err(AllocError),
    }
}

/// The column at a place of a table, as an attribute.
fn attribute_of(table: TableId, place: usize, column: &ColumnSpec) -> Result<Attribute, AllocError>
    ensures { IfOk result (λ attribute. attribute ≡ attribute_at table (place, column.now)) }
{
    Ok(Attribute {
        name: column.name.copied()?,
        table,
        column: ColumnNo(number_of(place)?),
        kind: kind_of(column.kind),
    })
}

/// Whether a column is an attribute of the class of a line. The key of a table behind the root's is none.
fn is_attribute(
    schema: &Schema,
    classes: &Classes,
    line: &[ClassId],
    rank: usize,
    table: TableId,
    column: &ColumnSpec,
) -> bool
    ensures { result ≡ is_attribute schema.now.tables classes.now line.now rank table column.now }
{
    (rank == 0 || !column.key) && is_shown(schema, classes, line, table, &column.name)
}

#[tactic(auto, using(crate::proofs::Steps::steps))]
/// The attributes that a table gives, which has this rank among the tables of the class of a line, go behind others.
fn push_attributes(
    all: &mut ListOf<Attribute>,
    schema: &Schema,
    classes: &Classes,
    line: &[ClassId],
    rank: usize,
    table: TableId,
) -> Result<(), AllocError>
    ensures { OnOk result (all.new
        ≡ all.old ++ table_attributes schema.now.tables classes.now line.now (rank, table)) }
{
    let columns = columns_of(schema, table);
    for (place, column) in columns.iter().enumerate() {
        if is_attribute(schema, classes, line, rank, table, column) {
            all.push(attribute_of(table, place, column)?)?;
        }
    }
    Ok(())
}

#[tactic(auto, using(crate::proofs::Steps::steps))]
/// The attributes of the class of a line: the columns of its tables in order.
pub(crate) fn attributes_on(
    alloc: Global,
    schema: &Schema,
    classes: &Classes,
    line: &[ClassId],
    tables: &[TableId],
) -> Result<ListOf<Attribute>, AllocError>
    ensures { IfOk result (λ all. all
        ≡ flat_map (table_attributes schema.now.tables classes.now line.now)
        (enumerate_from 0 tables.now)) }
{
    let mut all = ListOf::new(alloc);
    for (rank, table) in tables.iter().enumerate() {
        push_attributes(&mut all, schema, classes, line, rank, *table)?;
    }
    Ok(all)
}

/// Whether an attribute is a column of a key.
fn is_key(schema: &Schema, attribute: &Attribute) -> bool
    ensures { result ≡ is_key schema.now.tables attribute.now }
{
    match columns_of(schema, attribute.table).get(attribute.column.0 as usize) {
        Some(column) => column.key,
        None => false,
    }
}

#[tactic(auto, using(crate::proofs::Steps::steps))]
/// Which attributes are those of the key, in order.
fn keys_among(
    alloc: Global,
    schema: &Schema,
    attributes: &[Attribute],
) -> Result<ListOf<AttrNo>, AllocError>
    ensures { IfOk result (λ keys. keys ≡ keys_among schema.now.tables attributes.now) }
{
    let mut keys = ListOf::new(alloc);
    for (place, attribute) in attributes.iter().enumerate() {
        if is_key(schema, attribute) {
            keys.push(AttrNo(number_of(place)?))?;
        }
    }
    Ok(keys)
}

/// What the class of a line has.
fn layout_of(
    alloc: Global,
    schema: &Schema,
    classes: &Classes,
    line: &[ClassId],
) -> Result<Layout, AllocError>
    ensures { IfOk result (λ layout. layout ≡ layout_of schema.now.tables classes.now line.now) }
{
    let tables = tables_on(alloc, schema, classes, line)?;
    let attributes = attributes_on(alloc, schema, classes, line, tables.as_slice())?;
    let keys = keys_among(alloc, schema, attributes.as_slice())?;
    Ok(Layout {
        tables,
        attributes,
        keys,
    })
}

#[tactic(auto, using(crate::proofs::Steps::steps))]
/// What each class has.
pub fn layouts_of(
    alloc: Global,
    schema: &Schema,
    classes: &Classes,
) -> Result<ListOf<Layout>, AllocError>
    ensures { IfOk result (λ layouts. layouts ≡ layouts_of schema.now.tables classes.now) }
{
    let mut layouts = ListOf::new(alloc);
    for line in classes.lines.as_slice() {
        layouts.push(layout_of(alloc, schema, classes, line.as_slice())?)?;
    }
    Ok(layouts)
}
