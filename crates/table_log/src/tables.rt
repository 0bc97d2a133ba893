//! Tables with scopes.

ghost use Rattle.std.specs.Prelude.{◌≡◌, ◌-◌, ◌<◌, [], true, is_some, length, drop, slice_index_or, OnOk, OnErr};
ghost use Rattle.std.specs.Option.{option_copied, option_map};
ghost use Rattle.keeper_core.specs.Store.{committed_of, with_empty_table, without_table};
ghost use Rattle.schema_core.specs.Tables.{is_created, row_under, rows_in, with_row, with_rows, without_row};
ghost use Rattle.table_log.specs.Marks.{Notes, last_cut, log_cut, no_marks, place_added, place_dropped, rows_there, unscoped};
ghost use Rattle.table_log.specs.Scopes.{scope_ended, scope_started, scope_undone, with_tables};
ghost use Rattle.table_log.specs.Undone.{AreMarks};
ghost use Rattle.table_rows.specs.Rows.{AreSorted, rows_at, rows_present, tables_present};

use crate::undoing::{LogEntry, forget, make_room, undo_from};
use base_core::{Copied, Key, Name, RowValues, TableId};
use schema_core::ColumnSpec;
use std::alloc::{AllocError, Global};
use std::marker::Model;
use table_rows::{TableMap, TableRows};

/// Tables, with one log of what was replaced since the outermost scope started, the oldest first, and for each scope its
/// first place in the log, the outermost first. The tables at a scope's start are the tables now with the changes behind
/// its place undone. Outside all scopes both lists are empty.
pub struct TableLog {
    tables: TableMap,
    log: Vec<LogEntry>,
    places: Vec<u64>,
    /// Entries whose keys' places are given up, where they stand empty, at the end of the outermost scope. There is room for
    /// all of the log too.
    entries_undone: Vec<LogEntry>,
}

impl Drop for TableLog {
    fn drop(self) {
        let TableLog {
            tables: _,
            log: _,
            places: _,
            entries_undone: _,
        } = self;
    }
}

impl Model for TableLog {
    ghost use Rattle.std.specs.Prelude.{◌+◌, ◌≤◌, length, vec_len, vec_capacity};
    ghost use Rattle.table_log.specs.Marks.{Marked};
    ghost use Rattle.table_log.specs.Undone.{ArePlaced, AreWithin, marked_at};
    ghost use Rattle.table_rows.specs.Rows.{tables_present};

    ghost Value = { Marked };

    ghost view = { λ t. marked_at (tables_present t.tables) t.log.items t.places.items };

    ghost invariant = { λ t. ArePlaced t.tables t.log.items × AreWithin (length t.log.items) t.places.items × (vec_len t.entries_undone + vec_len t.log ≤ vec_capacity t.entries_undone) };
}

impl TableLog {
    /// No tables and no scope.
    pub fn new(alloc: Global) -> TableLog
        ensures { result ≡ unscoped [] }
    {
        TableLog {
            tables: TableMap::new(alloc),
            log: Vec::new(alloc),
            places: Vec::new(alloc),
            entries_undone: Vec::new(alloc),
        }
    }

    /// The tables now.
    pub fn tables(&self) -> &TableMap
        ensures { tables_present result.now ≡ self.now.seen.tables }
    {
        &self.tables
    }

    /// Whether a table is created.
    pub fn has(&self, table: TableId) -> bool
        ensures { result ≡ is_created self.now.seen.tables table }
    {
        match self.tables.get(table) {
            Some(_) => true,
            None => false,
        }
    }

    /// The rows of a table.
    pub fn get(&self, table: TableId) -> Option<&TableRows>
        ensures { option_map rows_present (option_copied result) ≡ rows_in self.now.seen.tables table }
    {
        self.tables.get(table)
    }

    /// Makes an index on columns of these names of a table, where the table has them and there is none. No table changes.
    pub fn index_columns(
        &mut self,
        alloc: Global,
        table: TableId,
        columns: &[ColumnSpec],
        index_names: &[Name],
    ) -> Result<(), AllocError>
        ensures { self.new ≡ self.old }
    {
        self.tables
            .index_columns(alloc, table, columns, index_names)
    }

    /// What was replaced, the oldest first, and each scope's first place in it, the outermost first.
    pub fn log(&self) -> (&[LogEntry], &[u64])
        ensures log { result.0.now ≡ self.now.marks.log }
        ensures places { result.1.now ≡ self.now.marks.places }
        ensures marks { AreMarks self.now.seen self.now.marks }
    {
        (self.log.as_slice(), self.places.as_slice())
    }

    #[tactic(auto, using(crate::proofs::WayBack::counting))]
    /// How many scopes there are.
    pub fn depth(&self) -> usize
        ensures scopes { result ≡ length self.now.seen.scopes }
        ensures places { result ≡ length self.now.marks.places }
    {
        self.places.len()
    }

    #[tactic(auto, using(crate::proofs::WayBack::outside))]
    /// Makes a table that has no rows. At an error nothing changes.
    pub fn create(&mut self, alloc: Global, table: TableId) -> Result<(), AllocError>
        requires outside { length self.old.seen.scopes ≡ 0 }
        ensures ok { OnOk result
            (self.new.seen ≡ with_tables self.old.seen (with_empty_table self.old.seen.tables table)) }
        ensures marks { OnOk result (self.new.marks ≡ self.old.marks) }
        ensures err { OnErr result (self.new ≡ self.old) }
    {
        self.tables.create(alloc, table)
    }

    #[tactic(auto, using(crate::proofs::WayBack::outside))]
    /// Drops a table.
    pub fn drop_table(&mut self, table: TableId)
        requires outside { length self.old.seen.scopes ≡ 0 }
        ensures tables { self.new.seen ≡ with_tables self.old.seen (without_table self.old.seen.tables table) }
        ensures marks { self.new.marks ≡ self.old.marks }
    {
        self.tables.drop_table(table);
    }

    #[tactic(auto, using(crate::proofs::Marking::writing))]
    /// Puts a row under a key of a created table. At an error nothing changes.
    pub fn put(&mut self, table: TableId, key: Key, row: RowValues) -> Result<(), AllocError>
        requires { is_some (rows_in self.old.seen.tables table) ≡ true }
        ensures ok { OnOk result
            (self.new.seen ≡ with_tables self.old.seen
            (with_rows self.old.seen.tables table
            (with_row (rows_at self.old.seen.tables table) key row))) }
        ensures noted { Notes (λ _. 1) result self.old self.new }
        ensures err { OnErr result (self.new ≡ self.old) }
    {
        if self.places.len() == 0 {
            self.tables.put(table, key, row)?;
            return Ok(());
        }
        let noted = key.copied()?;
        make_room(&mut self.log, &mut self.entries_undone)?;
        let before = self.tables.put(table, key, row)?;
        self.log.push_reserved(LogEntry {
            table,
            key: noted,
            before,
        });
        Ok(())
    }

    #[tactic(auto, using(crate::proofs::Marking::writing))]
    /// Takes out the row of a key of a created table, if there is one. At an error nothing changes.
    pub fn take(&mut self, table: TableId, key: &Key) -> Result<(), AllocError>
        requires { is_some (rows_in self.old.seen.tables table) ≡ true }
        ensures ok { OnOk result
            (self.new.seen ≡ with_tables self.old.seen
            (with_rows self.old.seen.tables table
            (without_row (rows_at self.old.seen.tables table) key.now))) }
        ensures noted { Notes (λ _. rows_there
            (row_under (rows_at self.old.seen.tables table) key.now)) result self.old self.new }
        ensures sorted { OnOk result (AreSorted self.old.seen.tables table) }
        ensures err { OnErr result (self.new ≡ self.old) }
    {
        if self.places.len() == 0 {
            let taken = self.tables.take(table, key);
            self.tables.sweep(table, key, taken.as_ref());
            return Ok(());
        }
        let noted = key.copied()?;
        make_room(&mut self.log, &mut self.entries_undone)?;
        let Some(row) = self.tables.take(table, key) else {
            return Ok(());
        };
        self.log.push_reserved(LogEntry {
            table,
            key: noted,
            before: Some(row),
        });
        Ok(())
    }

    #[tactic(auto, using(crate::proofs::Marking::starting))]
    /// Starts a scope. At an error nothing changes.
    pub fn start(&mut self) -> Result<(), AllocError>
        ensures ok { OnOk result (self.new.seen ≡ scope_started self.old.seen) }
        ensures marks { OnOk result (self.new.marks ≡ place_added self.old.marks) }
        ensures err { OnErr result (self.new ≡ self.old) }
    {
        self.places.push(self.log.len() as u64)?;
        Ok(())
    }

    #[tactic(auto, using(crate::proofs::Marking::ending))]
    /// Ends the innermost scope, and keeps the tables.
    pub fn end(&mut self)
        requires { 0 < length self.old.seen.scopes }
        ensures scopes { self.new.seen ≡ scope_ended self.old.seen }
        ensures marks { 1 < length self.old.seen.scopes
            → self.new.marks ≡ place_dropped self.old.marks }
    {
        if self.depth() == 1 {
            self.keep();
            return;
        }
        self.places.take_last();
    }

    #[tactic(auto, using(crate::proofs::WayBack::emptying))]
    /// Ends all scopes, and keeps the tables.
    pub fn keep(&mut self)
        ensures { self.new ≡ unscoped self.old.seen.tables }
    {
        self.places.clear();
        forget(&mut self.tables, &mut self.log, &mut self.entries_undone);
    }

    #[tactic(auto, using(crate::proofs::Marking::undoing_all))]
    /// Ends all scopes, and goes back to the tables at the start of the outermost.
    pub fn go_back(&mut self)
        ensures scopes { self.new.seen ≡ record { tables = committed_of self.old.seen; scopes = [] } }
        ensures marks { self.new.marks ≡ no_marks }
        ensures start { slice_index_or self.old.marks.places 0 0 ≡ 0 }
    {
        self.places.clear();
        undo_from(&mut self.tables, &mut self.log, &mut self.entries_undone, 0);
        forget(&mut self.tables, &mut self.log, &mut self.entries_undone);
    }

    #[tactic(auto, using(crate::proofs::Marking::undoing_some))]
    /// Goes back to the tables at the start of the scope of this number, counted from the outermost, which is 0,
    /// and ends it and all inside it.
    pub fn go_back_to(&mut self, number: usize)
        requires { number < length self.old.seen.scopes }
        ensures scopes { self.new.seen ≡ record {
          tables = slice_index_or self.old.seen.scopes
              (length self.old.seen.scopes - number - 1) self.old.seen.tables;
          scopes = drop (length self.old.seen.scopes - number) self.old.seen.scopes;
        } }
        ensures marks { self.new.marks ≡ log_cut number self.old.marks }
    {
        if number == 0 {
            self.go_back();
            return;
        }
        let place = self.places[number];
        self.places.truncate(number);
        undo_from(
            &mut self.tables,
            &mut self.log,
            &mut self.entries_undone,
            place as usize,
        );
    }

    #[tactic(auto, using(crate::proofs::Marking::undoing_one))]
    /// Ends the innermost scope, and goes back to the tables at its start.
    pub fn undo(&mut self)
        requires { 0 < length self.old.seen.scopes }
        ensures scopes { self.new.seen ≡ scope_undone self.old.seen }
        ensures marks { self.new.marks ≡ last_cut self.old.marks }
    {
        let number = self.depth() - 1;
        self.go_back_to(number);
    }

    /// Ends the innermost scope: an answer keeps the tables, and a refusal goes back to those at its start.
    pub fn close<T: Drop, E: Drop>(&mut self, answer: Result<T, E>) -> Result<T, E>
        requires { 0 < length self.old.seen.scopes }
        ensures answer { result ≡ answer }
        ensures ok { OnOk answer (self.new.seen ≡ scope_ended self.old.seen) }
        ensures dropped { OnOk answer (1 < length self.old.seen.scopes
            → self.new.marks ≡ place_dropped self.old.marks) }
        ensures err { OnErr answer (self.new.seen ≡ scope_undone self.old.seen) }
        ensures undone { OnErr answer (self.new.marks ≡ last_cut self.old.marks) }
    {
        match &answer {
            Ok(_) => self.end(),
            Err(_) => self.undo(),
        }
        answer
    }
}
