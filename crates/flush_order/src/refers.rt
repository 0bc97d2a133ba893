//! Which new rows wait for which.

ghost use Rattle.std.specs.Prelude.{◌≡◌, ◌≤◌, ◌<◌, length, map, ℕ};
ghost use Rattle.std.specs.List.{list_any, range_with_len};
ghost use Rattle.schema_core.specs.Catalog.{IsTable, target_of, spec_of};
ghost use Rattle.flush_order.specs.Refers.{comes_from, is_table, names, new_refers, refers_to};
ghost use Rattle.flush_order.specs.Orders.{gone_at, gone_rows};
ghost use Rattle.flush_order.specs.Ready.{AreReady, AreReadyGone, ready_gone, ready_row};

use crate::blockers::{gone_lists, new_lists};
use crate::cells::{are_cells, has_null_in, some_comes_from};
use base_core::{Key, ListOf, RowName, RowValues, TableId, Value};
use row_order::Waits;
use schema_core::{ForeignSpec, RowCell, RowChanges, Schema, TableSpec};
use std::alloc::{AllocError, Global};

/// Whether a foreign key refers to this table.
fn is_target(schema: &Schema, foreign: &ForeignSpec, table: TableId) -> bool
    ensures { result ≡ is_table table (target_of schema.now foreign.now) }
{
    match schema.find(&foreign.target) {
        Some(target) => target.0 == table.0,
        None => false,
    }
}

/// Whether a foreign key of a row has no NULL and names this key of this table.
fn names(
    schema: &Schema,
    row: &[Value],
    table: TableId,
    target: TableId,
    key: &[Value],
    foreign: &ForeignSpec,
) -> bool
    requires { IsTable schema.now table }
    ensures { result ≡ names schema.now row.now table target key.now foreign.now }
{
    let columns = schema.spec(table).columns.as_slice();
    is_target(schema, foreign, target)
        && !has_null_in(columns, row, foreign.columns.as_slice())
        && are_cells(columns, row, foreign.columns.as_slice(), key)
}

/// Whether one of these foreign keys of a row does.
fn some_names(
    schema: &Schema,
    row: &[Value],
    table: TableId,
    target: TableId,
    key: &[Value],
    foreigns: &[ForeignSpec],
) -> bool
    requires { IsTable schema.now table }
    ensures { result ≡ list_any (names schema.now row.now table target key.now) foreigns.now }
{
    let Some((foreign, foreigns)) = foreigns.split_first() else {
        return false;
    };
    names(schema, row, table, target, key, foreign)
        || some_names(schema, row, table, target, key, foreigns)
}

/// Whether some foreign key of a row does.
pub fn refers_to(
    schema: &Schema,
    row: &[Value],
    table: TableId,
    target: TableId,
    key: &[Value],
) -> bool
    requires { IsTable schema.now table }
    ensures { result ≡ refers_to schema.now row.now table target key.now }
{
    let foreigns = schema.spec(table).foreigns.as_slice();
    some_names(schema, row, table, target, key, foreigns)
}

/// A new row made ready: the cells that its INSERT writes, and the row and its key as far as they are known.
#[derive(Drop)]
pub struct ReadyRow {
    pub table: TableId,
    pub first: ListOf<RowCell>,
    pub known: RowValues,
    pub key: Key,
}

/// The new rows, of which some wait for others.
#[derive(Drop)]
pub struct NewRows<'a> {
    pub schema: &'a Schema,
    pub changes: &'a RowChanges,
    pub rows: &'a [ReadyRow],
}

impl<'a> NewRows<'a> {
    #[tactic(auto, using(crate::proofs::ReadyLemmas::ready_at))]
    /// The new row of a place, made ready.
    pub fn at(&self, place: u32) -> &ReadyRow
        requires ready { AreReady self.now.schema.now self.now.changes.now self.now.rows.now }
        requires within { place < length self.now.rows.now }
        ensures { result.now ≡ ready_row self.now.schema.now self.now.changes.now place }
    {
        &self.rows[place as usize]
    }
}

impl<'a> Waits for NewRows<'a> {
    ghost use Rattle.std.specs.Prelude.{length};
    ghost use Rattle.flush_order.specs.Refers.{new_refers};
    ghost use Rattle.flush_order.specs.Ready.{AreReady};

    ghost size = { λ rows. length rows.changes.now.fresh };

    ghost waits = { λ rows. new_refers rows.schema.now rows.changes.now };

    ghost holds = { λ rows. AreReady rows.schema.now rows.changes.now rows.rows.now };

    fn size(&self) -> u32 {
        self.rows.len() as u32
    }

    fn waits(&self, row: u32, other: u32) -> bool {
        let one = self.at(row);
        let two = self.at(other);
        some_comes_from(other, one.first.as_slice())
            || refers_to(
                self.schema,
                one.known.as_slice(),
                one.table,
                two.table,
                two.key.as_slice(),
            )
    }

    fn lists(&self, alloc: Global) -> Result<Vec<ListOf<u32>>, AllocError> {
        new_lists(alloc, self)
    }
}

/// A deleted row made ready: its key, and its base without what is cleared before it is deleted.
#[derive(Drop)]
pub struct ReadyGone {
    pub name: RowName,
    pub last: RowValues,
    pub key: Key,
}

/// The deleted rows by table and key, of which some wait for others.
#[derive(Drop)]
pub struct GoneRows<'a> {
    pub schema: &'a Schema,
    pub changes: &'a RowChanges,
    pub rows: &'a [ReadyGone],
}

impl<'a> GoneRows<'a> {
    #[tactic(auto, using(crate::proofs::GoneLemmas::ready_steps))]
    /// The deleted row of a place, made ready.
    pub fn at(&self, place: u32) -> &ReadyGone
        requires ready { AreReadyGone self.now.schema.now self.now.changes.now self.now.rows.now }
        requires within { place < length self.now.rows.now }
        ensures ready { result.now ≡ ready_gone self.now.schema.now self.now.changes.now
            (gone_at (gone_rows self.now.schema.now self.now.changes.now) place) }
        ensures declared { IsTable self.now.schema.now result.now.name.table }
    {
        &self.rows[place as usize]
    }
}

impl<'a> Waits for GoneRows<'a> {
    ghost use Rattle.std.specs.Prelude.{length};
    ghost use Rattle.flush_order.specs.Orders.{gone_at, gone_rows};
    ghost use Rattle.flush_order.specs.Refers.{gone_refers};
    ghost use Rattle.flush_order.specs.Ready.{AreReadyGone};

    ghost size = { λ rows. length (gone_rows rows.schema.now rows.changes.now) };

    ghost waits = { λ rows. λ place other. gone_refers rows.schema.now rows.changes.now
        (gone_at (gone_rows rows.schema.now rows.changes.now) place)
        (gone_at (gone_rows rows.schema.now rows.changes.now) other) };

    ghost holds = { λ rows. AreReadyGone rows.schema.now rows.changes.now rows.rows.now };

    #[tactic(auto, using(crate::proofs::GoneLemmas::gone_size))]
    fn size(&self) -> u32 {
        self.rows.len() as u32
    }

    #[tactic(auto, using(crate::proofs::GoneLemmas::gone_size))]
    fn waits(&self, row: u32, other: u32) -> bool {
        let one = self.at(row);
        let two = self.at(other);
        refers_to(
            self.schema,
            two.last.as_slice(),
            two.name.table,
            one.name.table,
            one.key.as_slice(),
        )
    }

    fn lists(&self, alloc: Global) -> Result<Vec<ListOf<u32>>, AllocError> {
        gone_lists(alloc, self)
    }
}
