//! The rows of a created table with the indexes on them.

ghost use Rattle.std.specs.Prelude.{◌≡◌, true, [], IfOk, IfSome, OnOk, OnErr};
ghost use Rattle.std.specs.Map.{keys_of};
ghost use Rattle.std.specs.List.Sorted.{IsStrictlySortedBy};
ghost use Rattle.base_core.specs.Order.{values_cmp};
ghost use Rattle.schema_core.specs.Tables.{row_under, with_row, without_row};
ghost use Rattle.table_index.specs.Indexed.{IsComplete};
ghost use Rattle.table_rows.specs.Rows.{KeepsPlaces, is_placed, rows_present, with_former_row};

use crate::rows::TableRows;
use base_core::{Key, Name, RowValues};
use schema_core::ColumnSpec;
use std::alloc::{AllocError, Global};
use std::marker::Model;
use table_index::{Indexes, ValueIndex, column_places};

/// The rows of a table in their places, with indexes on some of its columns, in which each row is entered.
#[derive(Drop)]
pub struct IndexedRows {
    rows: TableRows,
    indexes: Indexes,
}

impl Model for IndexedRows {
    ghost use Rattle.schema_core.specs.Tables.{row_under};
    ghost use Rattle.table_index.specs.Indexed.{AreComplete};
    ghost use Rattle.table_rows.specs.Rows.{Places, rows_present};

    ghost Value = { Places };

    ghost view = { λ t. t.rows };

    ghost invariant = { λ t. AreComplete (row_under (rows_present t.rows)) t.indexes };
}

#[tactic(auto, using(crate::proofs::IndexSteps::entering))]
/// An index of all rows on columns of these places.
fn index_of(alloc: Global, rows: &TableRows, columns: Vec<usize>) -> Result<ValueIndex, AllocError>
    ensures { IfOk result (IsComplete (row_under (rows_present rows.now))) }
{
    let mut index = ValueIndex::new(alloc, columns);
    for (key, place) in rows.places() {
        let Some(row) = place else {
            continue;
        };
        index = index.with_row(alloc, key, row.as_slice())?;
    }
    Ok(index)
}

impl IndexedRows {
    /// No rows and no indexes.
    pub fn new(alloc: Global) -> IndexedRows
        ensures { result ≡ [] }
    {
        IndexedRows {
            rows: TableRows::new(alloc),
            indexes: Indexes::new(alloc),
        }
    }

    /// The rows, lent.
    pub fn rows(&self) -> &TableRows
        ensures rows { result.now ≡ self.now }
        ensures sorted { IsStrictlySortedBy values_cmp (keys_of (rows_present self.now)) }
    {
        self.rows.are_sorted();
        &self.rows
    }

    /// The index on columns of these places, if there is one.
    pub fn index_on(&self, columns: &[usize]) -> Option<&ValueIndex>
        ensures complete { IfSome result
            (λ index. IsComplete (row_under (rows_present self.now)) index.now) }
        ensures columns { IfSome result (λ index. index.now.columns.items ≡ columns.now) }
    {
        self.indexes.find(columns)
    }

    /// Makes an index on columns of these places, where there is none.
    fn make_index(&mut self, alloc: Global, columns: Vec<usize>) -> Result<(), AllocError>
        ensures { self.new ≡ self.old }
    {
        if self.indexes.find(columns.as_slice()).is_some() {
            return Ok(());
        }
        let index = index_of(alloc, &self.rows, columns)?;
        self.indexes.add(index)
    }

    /// Makes an index on columns of these names, where the table has them and there is none. No row changes.
    pub fn index_columns(
        &mut self,
        alloc: Global,
        columns: &[ColumnSpec],
        names: &[Name],
    ) -> Result<(), AllocError>
        ensures { self.new ≡ self.old }
    {
        match column_places(alloc, columns, names)? {
            Some(places) => self.make_index(alloc, places),
            None => Ok(()),
        }
    }

    /// Puts a row under a key, and gives what stood there. At an error the rows are as they were.
    pub fn put(&mut self, key: Key, row: RowValues) -> Result<Option<RowValues>, AllocError>
        ensures before { IfOk result (λ before. before ≡ row_under (rows_present self.old) key) }
        ensures ok { OnOk result (rows_present self.new ≡ with_row (rows_present self.old) key row) }
        ensures err { OnErr result (self.new ≡ self.old) }
        ensures place { OnOk result (is_placed self.new key ≡ true) }
        ensures places { KeepsPlaces self.old self.new }
        ensures sorted { IsStrictlySortedBy values_cmp (keys_of (rows_present self.old)) }
    {
        self.indexes.put(&key, &row);
        match self.rows.put(key, row) {
            Ok(before) => Ok(before),
            Err(e) => {
                self.indexes.clear();
                Err(e)
            }
        }
    }

    /// Takes out the row of a key, whose place stays, and so does what it had entered.
    pub fn take(&mut self, key: &Key) -> Option<RowValues>
        ensures taken { result ≡ row_under (rows_present self.old) key.now }
        ensures rows { rows_present self.new ≡ without_row (rows_present self.old) key.now }
        ensures place { IfSome result (λ _. is_placed self.new key.now ≡ true) }
        ensures places { KeepsPlaces self.old self.new }
        ensures sorted { IsStrictlySortedBy values_cmp (keys_of (rows_present self.old)) }
    {
        self.rows.take(key)
    }

    /// Brings back what stood in a place, and gives what stands in it now. Needs no memory: where an index lacks the row that
    /// comes back, or there is no memory to see that it has it, the indexes are given up.
    pub fn restore(&mut self, key: &Key, before: Option<RowValues>) -> Option<RowValues>
        requires { is_placed self.old key.now ≡ true }
        ensures replaced { result ≡ row_under (rows_present self.old) key.now }
        ensures places { KeepsPlaces self.old self.new }
        ensures rows { rows_present self.new ≡ with_former_row (rows_present self.old) key.now before }
    {
        self.rows.are_sorted();
        let Some(row) = before else {
            return self.rows.restore(key, None);
        };
        self.indexes.bring_back(key, &row);
        self.rows.restore(key, Some(row))
    }

    /// Gives a place up, where it stands empty, and what the row had entered that stood there before.
    pub fn sweep(&mut self, key: &Key, former: Option<&RowValues>)
        ensures { rows_present self.new ≡ rows_present self.old }
    {
        let Some(former) = former else {
            self.rows.sweep(key);
            return;
        };
        self.indexes.sweep(key, former, self.rows.get(key));
        self.rows.sweep(key);
    }
}
