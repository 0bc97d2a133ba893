//! Where the tables of a class stand among the sources of a select.

ghost use Rattle.std.specs.Prelude.{◌≡◌, ◌==◌, IfOk};
ghost use Rattle.std.specs.List.{position};
ghost use Rattle.class_mapping.specs.Mapped.{IsClass};
ghost use Rattle.load_columns.specs.Placing as spec;

use base_core::{ClassId, ColumnNo, TableId};
use class_layouts::number_of;
use class_mapping::Mapping;
use std::alloc::AllocError;

/// Where the tables of a class stand among the sources of a select, one behind the other: at the place `first` the one that
/// leads, which has the rank `leading` among them, and behind it the others from the root's on.
#[derive(Clone, Copy)]
pub struct Placement {
    pub leading: u32,
    pub first: u32,
}

/// A column of a source, which is named by its place among the sources.
#[derive(Clone, Copy)]
pub struct SourceColumn {
    pub source: u32,
    pub column: ColumnNo,
}

/// All tables of a class from the root's on.
pub fn from_root(first: u32) -> Placement
    ensures { result ≡ spec.from_root first }
{
    Placement { leading: 0, first }
}

/// The place of the table of a rank.
pub fn place_at_rank(placement: Placement, rank: u32) -> Result<u32, AllocError>
    ensures { IfOk result (λ place. place ≡ spec.place_at_rank placement rank) }
{
    if rank == placement.leading {
        return Ok(placement.first);
    }
    if rank < placement.leading {
        return number_of(placement.first as usize + 1 + rank as usize);
    }
    number_of(placement.first as usize + rank as usize)
}

/// The place of a table among others.
fn place_among(tables: &[TableId], table: TableId) -> Option<usize>
    ensures { result ≡ position (λ other. other.0 == table.0) tables.now }
{
    tables.iter().position(|other| other.0 == table.0)
}

/// The rank of a table among those of a class; the root's is 0.
pub fn rank_of(mapping: &Mapping, class: ClassId, table: TableId) -> Result<u32, AllocError>
    requires class { IsClass mapping.now class }
    ensures { IfOk result (λ rank. rank ≡ spec.rank_of mapping.now class table) }
{
    match place_among(mapping.tables_of(class), table) {
        Some(rank) => number_of(rank),
        None => Ok(0),
    }
}

/// The table of a rank among those of a class.
pub(crate) fn table_at_rank(mapping: &Mapping, class: ClassId, rank: u32) -> TableId
    requires class { IsClass mapping.now class }
    ensures { result ≡ spec.table_at_rank mapping.now class rank }
{
    match mapping.tables_of(class).get(rank as usize).copied() {
        Some(table) => table,
        None => TableId(0),
    }
}

/// The place of a table of a class.
pub fn place_of_table(
    mapping: &Mapping,
    class: ClassId,
    placement: Placement,
    table: TableId,
) -> Result<u32, AllocError>
    requires class { IsClass mapping.now class }
    ensures { IfOk result
        (λ place. place ≡ spec.place_of_table mapping.now class placement table) }
{
    let rank = rank_of(mapping, class, table)?;
    place_at_rank(placement, rank)
}
