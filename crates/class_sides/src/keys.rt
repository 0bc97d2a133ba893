//! The foreign keys of tables.

ghost use Rattle.std.specs.Prelude.{◌≡◌, ◌&&◌, filter};
ghost use Rattle.std.specs.List.{list_any};
ghost use Rattle.std.specs.Cmp.Lexicographic.{pointwise};
ghost use Rattle.schema_core.specs.Catalog.{same_name};
ghost use Rattle.class_sides.specs.Keys.{before_rank, is_inherited, is_tied, is_whole_key, names_of, refers_into, refers_to, same_key, ties, ties_to};

use base_core::{Name, TableId};
use class_blocks::TableKey;
use class_layouts::{columns_of, foreigns_of, is_table};
use schema_core::{ColumnSpec, ForeignSpec, Schema};

pub fn same_key(one: TableKey, other: TableKey) -> bool
    ensures { result ≡ same_key one other }
{
    one.0.0 == other.0.0 && one.1 == other.1
}

/// The names of the columns of a foreign key.
pub fn names_of(schema: &Schema, key: TableKey) -> &[Name]
    ensures { result.now ≡ names_of schema.now.tables key }
{
    match foreigns_of(schema, key.0).get(key.1 as usize) {
        Some(foreign) => foreign.columns.as_slice(),
        None => &[],
    }
}

/// Whether a foreign key refers to the table.
pub fn refers_to(schema: &Schema, foreign: &ForeignSpec, table: TableId) -> bool
    ensures { result ≡ refers_to schema.now.tables foreign.now table }
{
    is_table(schema.find(&foreign.target), table)
}

/// Whether a foreign key refers to one of the tables.
pub fn refers_into(schema: &Schema, foreign: &ForeignSpec, found: &[TableId]) -> bool
    ensures { result ≡ refers_into schema.now.tables foreign.now found.now }
{
    let Some((table, found)) = found.split_first() else {
        return false;
    };
    refers_to(schema, foreign, *table) || refers_into(schema, foreign, found)
}

#[tactic(auto, using(schema_core::proofs::Steps::key_steps))]
/// Whether the columns of these names are the primary key, in its order.
fn is_whole_key(columns: &[ColumnSpec], names: &[Name]) -> bool
    ensures { result ≡ is_whole_key columns.now names.now }
{
    let mut place = 0;
    for column in columns {
        if column.key {
            if place >= names.len() || names[place] != column.name {
                return false;
            }
            place += 1;
        }
    }
    place == names.len()
}

/// Whether a foreign key of a table ties it to its parent's: its columns are the table's key.
fn ties(schema: &Schema, parent: TableId, table: TableId, foreign: &ForeignSpec) -> bool
    ensures { result ≡ ties schema.now.tables parent table foreign.now }
{
    is_whole_key(columns_of(schema, table), foreign.columns.as_slice())
        && refers_to(schema, foreign, parent)
}

/// The table before a rank.
fn before_rank(found: &[TableId], rank: usize) -> Option<TableId>
    ensures { result ≡ before_rank found.now rank }
{
    if rank == 0 {
        return None;
    }
    found.get(rank - 1).copied()
}

/// Whether a foreign key of the table at a rank among a class's tables is the one that ties it to the table before.
pub fn is_inherited(
    schema: &Schema,
    found: &[TableId],
    rank: usize,
    table: TableId,
    foreign: &ForeignSpec,
) -> bool
    ensures { result ≡ is_inherited schema.now.tables found.now rank table foreign.now }
{
    match before_rank(found, rank) {
        Some(parent) => ties(schema, parent, table, foreign),
        None => false,
    }
}

/// Whether one of the foreign keys of the table at a rank ties it to the table before.
fn some_inherited(
    schema: &Schema,
    found: &[TableId],
    rank: usize,
    table: TableId,
    foreigns: &[ForeignSpec],
) -> bool
    ensures { result ≡ list_any (is_inherited schema.now.tables found.now rank table) foreigns.now }
{
    let Some((foreign, foreigns)) = foreigns.split_first() else {
        return false;
    };
    is_inherited(schema, found, rank, table, foreign)
        || some_inherited(schema, found, rank, table, foreigns)
}

/// Whether the table at a rank among a class's tables is the root's, or has a foreign key that ties it to the one before.
pub fn is_tied(schema: &Schema, found: &[TableId], rank: usize, table: TableId) -> bool
    ensures { result ≡ is_tied schema.now.tables found.now (rank, table) }
{
    rank == 0 || some_inherited(schema, found, rank, table, foreigns_of(schema, table))
}
