//! The tables of a class.

ghost use Rattle.std.specs.Prelude.{◌≡◌, IfOk, None, fold};
ghost use Rattle.class_layouts.specs.Columns.{later_of, lives_in, own_table, tables_on};
ghost use Rattle.class_layouts.specs.Faults.{foreigns_in, root_table_on};

use crate::Classes;
use base_core::{ClassId, ListOf, TableId};
use class_blocks::{named_table, table_at};
use schema_core::{ForeignSpec, Schema};
use std::alloc::{AllocError, Global};

/// The foreign keys of a table.
pub fn foreigns_of(schema: &Schema, table: TableId) -> &[ForeignSpec]
    ensures { result.now ≡ foreigns_in schema.now.tables table }
{
    match table_at(schema, table) {
        Some(spec) => spec.foreigns.as_slice(),
        None => &[],
    }
}

/// The table that a class's own block names, if it is declared.
pub fn own_table(schema: &Schema, classes: &Classes, class: usize) -> Option<TableId>
    ensures { result ≡ own_table schema.now.tables classes.now class }
{
    match classes.specs.get(class) {
        Some(spec) => named_table(schema, &spec.table),
        None => None,
    }
}

/// The table of the root of a hierarchy.
pub fn root_table_on(schema: &Schema, classes: &Classes, root: Option<ClassId>) -> Option<TableId>
    ensures { result ≡ root_table_on schema.now.tables classes.now root }
{
    match root {
        Some(root) => own_table(schema, classes, root.0 as usize),
        None => None,
    }
}

fn later_of(found: Option<TableId>, own: Option<TableId>) -> Option<TableId>
    ensures { result ≡ later_of found own }
{
    match own {
        Some(table) => Some(table),
        None => found,
    }
}

/// The table in which the class of a line lives: the last of its tables.
pub fn lives_in(schema: &Schema, classes: &Classes, line: &[ClassId]) -> Option<TableId>
    ensures { result ≡ lives_in schema.now.tables classes.now line.now }
{
    line.iter().fold(None, |found, class| {
        later_of(found, own_table(schema, classes, class.0 as usize))
    })
}

#[tactic(auto, using(crate::proofs::Steps::steps))]
/// The tables of the class of a line, its root's first.
pub fn tables_on(
    alloc: Global,
    schema: &Schema,
    classes: &Classes,
    line: &[ClassId],
) -> Result<ListOf<TableId>, AllocError>
    ensures { IfOk result (λ tables. tables ≡ tables_on schema.now.tables classes.now line.now) }
{
    let mut tables = ListOf::new(alloc);
    for class in line {
        if let Some(table) = own_table(schema, classes, class.0 as usize) {
            tables.push(table)?;
        }
    }
    Ok(tables)
}
