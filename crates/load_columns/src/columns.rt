//! Columns of tables and of sources.

ghost use Rattle.std.specs.Prelude.{◌≡◌, ◌++◌, Some, IfOk, OnOk};
ghost use Rattle.std.specs.List.{position};
ghost use Rattle.std.specs.Option.{option_copied};
ghost use Rattle.schema_core.specs.Catalog.{same_name};
ghost use Rattle.class_layouts.specs.Columns.{columns_in};
ghost use Rattle.class_sides.specs.Keys.{foreign_at, names_of};
ghost use Rattle.class_mapping.specs.Mapped.{IsClass};
ghost use Rattle.load_columns.specs.Placing as spec;

use crate::placing::{Placement, SourceColumn, place_at_rank, place_of_table, table_at_rank};
use base_core::{ClassId, ColumnNo, ListOf, Name, TableId};
use class_layouts::{columns_of, foreigns_of, number_of};
use class_mapping::{Attribute, Mapping};
use class_sides::{TableKey, names_of};
use schema_core::{ColumnSpec, ForeignSpec};
use std::alloc::{AllocError, Global};

/// The columns of a table.
fn table_columns(mapping: &Mapping, table: TableId) -> &[ColumnSpec]
    ensures { result.now ≡ columns_in mapping.now.schema.tables table }
{
    columns_of(mapping.schema(), table)
}

/// The names of the columns of a foreign key.
fn foreign_names(mapping: &Mapping, key: TableKey) -> &[Name]
    ensures { result.now ≡ names_of mapping.now.schema.tables key }
{
    names_of(mapping.schema(), key)
}

/// A foreign key, if there is one of this number.
fn foreign_at(mapping: &Mapping, key: TableKey) -> Option<&ForeignSpec>
    ensures { option_copied result ≡ foreign_at mapping.now.schema.tables key }
{
    foreigns_of(mapping.schema(), key.0).get(key.1 as usize)
}

/// The table of a name, or the first.
fn table_named(mapping: &Mapping, foreign: &ForeignSpec) -> TableId
    ensures { result ≡ spec.target_in mapping.now.schema.tables (Some foreign.now) }
{
    match mapping.schema().find(&foreign.target) {
        Some(table) => table,
        None => TableId(0),
    }
}

/// The table to which a foreign key refers.
pub fn referred_table(mapping: &Mapping, key: TableKey) -> TableId
    ensures { result ≡ spec.referred_table mapping.now key }
{
    match foreign_at(mapping, key) {
        Some(foreign) => table_named(mapping, foreign),
        None => TableId(0),
    }
}

/// The columns of the primary key of a table.
#[tactic(auto, using(class_layouts::proofs::Steps::steps))]
pub fn key_numbers(
    alloc: Global,
    mapping: &Mapping,
    table: TableId,
) -> Result<ListOf<ColumnNo>, AllocError>
    ensures { IfOk result (λ numbers. numbers ≡ spec.key_numbers mapping.now table) }
{
    let mut numbers = ListOf::new(alloc);
    let columns = table_columns(mapping, table);
    for (place, column) in columns.iter().enumerate() {
        if column.key {
            numbers.push(ColumnNo(number_of(place)?))?;
        }
    }
    Ok(numbers)
}

/// The place of the column of a name.
fn place_named(columns: &[ColumnSpec], name: &Name) -> Option<usize>
    ensures { result ≡ position (λ column. same_name column.name name.now) columns.now }
{
    columns.iter().position(|column| column.name == *name)
}

/// The column of a name.
pub fn column_named(mapping: &Mapping, table: TableId, name: &Name) -> Result<ColumnNo, AllocError>
    ensures { IfOk result
        (λ column. column ≡ spec.column_named mapping.now table name.now) }
{
    match place_named(table_columns(mapping, table), name) {
        Some(place) => Ok(ColumnNo(number_of(place)?)),
        None => Ok(ColumnNo(0)),
    }
}

/// The columns of a foreign key.
pub fn foreign_numbers(
    alloc: Global,
    mapping: &Mapping,
    key: TableKey,
) -> Result<ListOf<ColumnNo>, AllocError>
    ensures { IfOk result (λ numbers. numbers ≡ spec.foreign_numbers mapping.now key) }
{
    let mut numbers = ListOf::new(alloc);
    let names = foreign_names(mapping, key);
    for name in names {
        numbers.push(column_named(mapping, key.0, name)?)?;
    }
    Ok(numbers)
}

/// Columns of one source.
pub fn columns_at(
    alloc: Global,
    source: u32,
    numbers: &[ColumnNo],
) -> Result<ListOf<SourceColumn>, AllocError>
    ensures { IfOk result (λ columns. columns ≡ spec.columns_at source numbers.now) }
{
    let mut columns = ListOf::new(alloc);
    for number in numbers {
        columns.push(SourceColumn {
            source,
            column: *number,
        })?;
    }
    Ok(columns)
}

/// The column of an attribute.
pub fn attribute_column(
    mapping: &Mapping,
    class: ClassId,
    placement: Placement,
    attribute: &Attribute,
) -> Result<SourceColumn, AllocError>
    requires class { IsClass mapping.now class }
    ensures { IfOk result
        (λ column. column ≡ spec.attribute_column mapping.now class placement attribute.now) }
{
    Ok(SourceColumn {
        source: place_of_table(mapping, class, placement, attribute.table)?,
        column: attribute.column,
    })
}

/// The columns of the attributes of a class, in their order.
pub fn attribute_columns(
    alloc: Global,
    mapping: &Mapping,
    class: ClassId,
    placement: Placement,
) -> Result<ListOf<SourceColumn>, AllocError>
    requires class { IsClass mapping.now class }
    ensures { IfOk result
        (λ columns. columns ≡ spec.attribute_columns mapping.now class placement) }
{
    let mut columns = ListOf::new(alloc);
    let attributes = mapping.attributes(class);
    for attribute in attributes {
        columns.push(attribute_column(mapping, class, placement, attribute)?)?;
    }
    Ok(columns)
}

/// The primary key of a class's table of a rank.
pub fn key_at_rank(
    alloc: Global,
    mapping: &Mapping,
    class: ClassId,
    placement: Placement,
    rank: u32,
) -> Result<ListOf<SourceColumn>, AllocError>
    requires class { IsClass mapping.now class }
    ensures { IfOk result
        (λ columns. columns ≡ spec.key_at_rank mapping.now class placement rank) }
{
    let place = place_at_rank(placement, rank)?;
    let numbers = key_numbers(alloc, mapping, table_at_rank(mapping, class, rank))?;
    columns_at(alloc, place, numbers.as_slice())
}

/// The primary key of the table of the class's root.
pub fn root_key(
    alloc: Global,
    mapping: &Mapping,
    class: ClassId,
    placement: Placement,
) -> Result<ListOf<SourceColumn>, AllocError>
    requires class { IsClass mapping.now class }
    ensures { IfOk result
        (λ columns. columns ≡ spec.root_key mapping.now class placement) }
{
    let place = place_at_rank(placement, 0)?;
    let numbers = key_numbers(alloc, mapping, mapping.root_table(class))?;
    columns_at(alloc, place, numbers.as_slice())
}

/// Columns go behind others.
pub fn push_columns(
    out: &mut ListOf<SourceColumn>,
    columns: &[SourceColumn],
) -> Result<(), AllocError>
    ensures { OnOk result (out.new ≡ out.old ++ columns.now) }
{
    for column in columns {
        out.push(*column)?;
    }
    Ok(())
}
