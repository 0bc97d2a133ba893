//! The created tables.

ghost use Rattle.std.specs.Prelude.{◌≡◌, [], true, is_some, IfOk, IfSome, OnOk, OnErr};
ghost use Rattle.std.specs.Option.{option_copied, option_map};
ghost use Rattle.keeper_core.specs.Store.{with_empty_table, without_table};
ghost use Rattle.schema_core.specs.Tables.{rows_in, row_under, with_row, with_rows, without_row};
ghost use Rattle.table_rows.specs.Rows.{AreSorted, IsPlaced, KeepsAllPlaces, rows_present, with_former_row, rows_at, tables_present};

use crate::rows::TableRows;
use crate::table::IndexedRows;
use base_core::{Key, Name, RowValues, TableId};
use schema_core::ColumnSpec;
use std::alloc::{AllocError, Global};
use std::collections::BTreeMap;
use std::marker::Model;

/// The created tables, by number, each with its rows in their places.
#[derive(Drop)]
pub struct TableMap {
    tables: BTreeMap<TableId, IndexedRows>,
}

impl Model for TableMap {
    ghost use Rattle.std.specs.Map.{keys_of};
    ghost use Rattle.std.specs.List.Sorted.{IsStrictlySortedBy};
    ghost use Rattle.schema_core.specs.Tables.{table_cmp};
    ghost use Rattle.table_rows.specs.Rows.{Held};

    ghost Value = { Held };

    ghost view = { λ t. t.tables.entries };

    ghost invariant = { λ t. IsStrictlySortedBy table_cmp (keys_of t.tables.entries) };
}

impl TableMap {
    /// No tables.
    pub fn new(alloc: Global) -> TableMap
        ensures { result ≡ [] }
    {
        TableMap {
            tables: BTreeMap::new(alloc),
        }
    }

    /// The rows of a table, with its indexes.
    pub fn find(&self, table: TableId) -> Option<&IndexedRows>
        ensures { option_map rows_present (option_copied result) ≡ rows_in (tables_present self.now) table }
    {
        self.tables.get(&table)
    }

    /// The rows of a table.
    pub fn get(&self, table: TableId) -> Option<&TableRows>
        ensures { option_map rows_present (option_copied result) ≡ rows_in (tables_present self.now) table }
    {
        match self.find(table) {
            Some(rows) => Some(rows.rows()),
            None => None,
        }
    }

    #[tactic(auto, using(crate::proofs::Seen::seeing))]
    /// Makes an index on columns of these names of a table, where the table has them and there is none. No table changes.
    pub fn index_columns(
        &mut self,
        alloc: Global,
        table: TableId,
        columns: &[ColumnSpec],
        names: &[Name],
    ) -> Result<(), AllocError>
        ensures { self.new ≡ self.old }
    {
        let Some(rows) = self.tables.get_mut(&table) else {
            return Ok(());
        };
        rows.index_columns(alloc, columns, names)
    }

    /// Each table's rows with its number, lent.
    pub fn entries(&self) -> &BTreeMap<TableId, IndexedRows>
        ensures { result.now.entries ≡ self.now }
    {
        &self.tables
    }

    #[tactic(auto, using(crate::proofs::Seen::seeing))]
    /// Makes a table that has no rows. At an error nothing changes.
    pub fn create(&mut self, alloc: Global, table: TableId) -> Result<(), AllocError>
        ensures ok { OnOk result (tables_present self.new ≡ with_empty_table (tables_present self.old) table) }
        ensures err { OnErr result (self.new ≡ self.old) }
    {
        self.tables.insert(table, IndexedRows::new(alloc))?;
        Ok(())
    }

    #[tactic(auto, using(crate::proofs::Seen::seeing))]
    /// Drops a table.
    pub fn drop_table(&mut self, table: TableId)
        ensures { tables_present self.new ≡ without_table (tables_present self.old) table }
    {
        self.tables.remove(&table);
    }

    #[tactic(auto, using(crate::proofs::Seen::seeing))]
    /// Puts a row under a key of a created table, and gives what stood there. At an error nothing changes.
    pub fn put(
        &mut self,
        table: TableId,
        key: Key,
        row: RowValues,
    ) -> Result<Option<RowValues>, AllocError>
        requires { is_some (rows_in (tables_present self.old) table) ≡ true }
        ensures ok { OnOk result (tables_present self.new
            ≡ with_rows (tables_present self.old) table (with_row (rows_at (tables_present self.old) table) key row)) }
        ensures before { IfOk result (λ before. before
            ≡ row_under (rows_at (tables_present self.old) table) key) }
        ensures place { OnOk result (IsPlaced self.new table key) }
        ensures places { KeepsAllPlaces self.old self.new }
        ensures err { OnErr result (self.new ≡ self.old) }
        ensures sorted { AreSorted (tables_present self.old) table }
    {
        let Some(rows) = self.tables.get_mut(&table) else {
            return Ok(None);
        };
        rows.put(key, row)
    }

    #[tactic(auto, using(crate::proofs::Seen::seeing))]
    /// Takes out the row of a key of a created table. Its place stays.
    pub fn take(&mut self, table: TableId, key: &Key) -> Option<RowValues>
        requires { is_some (rows_in (tables_present self.old) table) ≡ true }
        ensures rows { tables_present self.new ≡ with_rows
            (tables_present self.old) table (without_row (rows_at (tables_present self.old) table) key.now) }
        ensures place { IfSome result (λ _. IsPlaced self.new table key.now) }
        ensures taken { result ≡ row_under (rows_at (tables_present self.old) table) key.now }
        ensures places { KeepsAllPlaces self.old self.new }
        ensures sorted { AreSorted (tables_present self.old) table }
    {
        let Some(rows) = self.tables.get_mut(&table) else {
            return None;
        };
        rows.take(key)
    }

    #[tactic(auto, using(crate::proofs::Seen::seeing))]
    /// Brings back what stood in a place, and gives what stands in it now.
    pub fn restore(
        &mut self,
        table: TableId,
        key: &Key,
        before: Option<RowValues>,
    ) -> Option<RowValues>
        requires { IsPlaced self.old table key.now }
        ensures rows { tables_present self.new ≡ with_rows
            (tables_present self.old) table (with_former_row (rows_at (tables_present self.old) table) key.now before) }
        ensures places { KeepsAllPlaces self.old self.new }
    {
        let Some(rows) = self.tables.get_mut(&table) else {
            return None;
        };
        rows.restore(key, before)
    }

    #[tactic(auto, using(crate::proofs::Seen::seeing))]
    /// Gives a place up, where no row stands in it, and what the row had entered that stood there before.
    pub fn sweep(&mut self, table: TableId, key: &Key, former: Option<&RowValues>)
        ensures { tables_present self.new ≡ tables_present self.old }
    {
        let Some(rows) = self.tables.get_mut(&table) else {
            return;
        };
        rows.sweep(key, former);
    }
}
