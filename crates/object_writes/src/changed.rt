//! The rows that objects change.

ghost use Rattle.std.specs.Prelude.{◌≡◌, ◌++◌, ◌∷◌, [], true, filter, map, IfOk, OnOk};
ghost use Rattle.std.specs.List.{All, filter_map};
ghost use Rattle.object_arena.specs.Graph.{IsObject};
ghost use Rattle.object_rows.specs.Cells.{linked_cell};
ghost use Rattle.object_rows.specs.Rows as spec;
ghost use Rattle.object_writes.specs.Ready.{IsReady};

use crate::cells::Projection;
use crate::columns::{cell_for, columns_at};
use base_core::{ColumnNo, Copied, Key, ListOf, ObjId, RowName, TableId};
use class_layouts::number_of;
use object_arena::Cell;
use object_rows::{kept_objects, linked_change, own_change};
use schema_core::{ChangedRow, ColumnSpec, RowCell};
use std::alloc::{AllocError, Global};

/// Cells, each with its column.
type Cells = ListOf<(ColumnNo, RowCell)>;

/// The key of an identity, or an empty one.
fn key_or_none(alloc: Global, identity: &Option<Key>) -> Result<Key, AllocError>
    ensures { IfOk result (λ key. key ≡ spec.key_or_none identity.now) }
{
    match identity {
        Some(key) => Ok(key.copied()?),
        None => Ok(ListOf::new(alloc)),
    }
}

impl<'a> Projection<'a> {
    /// What is changed by a cell, or by what a changed link gives in its place.
    fn cell_change(
        &self,
        object: ObjId,
        table: TableId,
        column: &ColumnSpec,
        own: &Cell,
    ) -> Result<Option<RowCell>, AllocError>
        requires ready { IsReady self.now }
        requires object { IsObject self.now.arena.now object }
        ensures { IfOk result (λ change. change ≡ spec.cell_change
            (linked_cell self.now.mapping.now self.now.arena.now self.now.prepared.now
            self.now.names.now object table column.now.name) own.now) }
    {
        match self.linked_cell(object, table, &column.name)? {
            Some(cell) => linked_change(&own.base, &cell),
            None => own_change(own),
        }
    }

    #[tactic(auto, using(object_arena::proofs::FitLemmas::fit_class))]
    /// What is changed in a column of a table.
    fn change_in(
        &self,
        object: ObjId,
        table: TableId,
        number: usize,
        column: &ColumnSpec,
    ) -> Result<Option<RowCell>, AllocError>
        requires ready { IsReady self.now }
        requires object { IsObject self.now.arena.now object }
        ensures { IfOk result (λ change. change ≡ spec.change_at self.now.mapping.now
            self.now.arena.now self.now.prepared.now self.now.names.now object table
            (number, column.now)) }
    {
        let record = self.arena.object(object);
        match cell_for(self.mapping, record, table, number) {
            Some(own) => self.cell_change(object, table, column, own),
            None => Ok(None),
        }
    }

    /// The change in a column of a table goes behind others, where there is one outside the key.
    fn push_change(
        &self,
        out: &mut Cells,
        object: ObjId,
        table: TableId,
        number: usize,
        column: &ColumnSpec,
    ) -> Result<(), AllocError>
        requires ready { IsReady self.now }
        requires object { IsObject self.now.arena.now object }
        ensures { OnOk result (out.new ≡ out.old ++ filter_map
            (spec.changed_cell self.now.mapping.now self.now.arena.now self.now.prepared.now
            self.now.names.now object table) ((number, column.now) ∷ [])) }
    {
        if column.key {
            return Ok(());
        }
        let place = ColumnNo(number_of(number)?);
        match self.change_in(object, table, number, column)? {
            Some(cell) => out.push((place, cell)),
            None => Ok(()),
        }
    }

    #[tactic(auto, using(class_layouts::proofs::Steps::steps))]
    /// The cells that change of an object's row in a table. Takes no memory where there are none.
    fn changed_cells(
        &self,
        alloc: Global,
        object: ObjId,
        table: TableId,
    ) -> Result<Cells, AllocError>
        requires ready { IsReady self.now }
        requires object { IsObject self.now.arena.now object }
        ensures { IfOk result (λ cells. cells ≡ spec.changed_cells self.now.mapping.now
            self.now.arena.now self.now.prepared.now self.now.names.now object table) }
    {
        let columns = columns_at(self.mapping, table);
        let mut cells = ListOf::new(alloc);
        for (number, column) in columns.iter().enumerate() {
            self.push_change(&mut cells, object, table, number, column)?;
        }
        Ok(cells)
    }

    /// The row of an object in a table goes behind others, where some cell of it changes.
    fn push_changed(
        &self,
        alloc: Global,
        out: &mut ListOf<ChangedRow>,
        object: ObjId,
        table: TableId,
    ) -> Result<(), AllocError>
        requires ready { IsReady self.now }
        requires object { IsObject self.now.arena.now object }
        ensures { OnOk result (out.new ≡ out.old ++ filter spec.has_cells
            (map (spec.changed_row self.now.mapping.now self.now.arena.now
            self.now.prepared.now self.now.names.now object) (table ∷ []))) }
    {
        let cells = self.changed_cells(alloc, object, table)?;
        if cells.is_empty() {
            return Ok(());
        }
        let key = key_or_none(alloc, &self.arena.object(object).identity)?;
        out.push(ChangedRow {
            name: RowName { table, object },
            key,
            cells,
        })
    }

    #[tactic(auto, using(class_layouts::proofs::Steps::steps, object_arena::proofs::FitLemmas::fit_class))]
    /// The rows of an object that change go behind others.
    fn push_rows_changed(
        &self,
        alloc: Global,
        out: &mut ListOf<ChangedRow>,
        object: ObjId,
    ) -> Result<(), AllocError>
        requires ready { IsReady self.now }
        requires object { IsObject self.now.arena.now object }
        ensures { OnOk result (out.new ≡ out.old ++ spec.rows_changed self.now.mapping.now
            self.now.arena.now self.now.prepared.now self.now.names.now object) }
    {
        for table in self.mapping.tables_of(self.arena.object(object).class) {
            self.push_changed(alloc, out, object, *table)?;
        }
        Ok(())
    }

    #[tactic(auto, using(class_layouts::proofs::Steps::steps), unfolding(object_rows::specs::Rows::changed_rows))]
    /// The rows with changed cells of each object that keeps its rows.
    pub fn changed_rows(&self, alloc: Global) -> Result<ListOf<ChangedRow>, AllocError>
        requires ready { IsReady self.now }
        ensures { IfOk result (λ rows. rows
            ≡ spec.changed_rows self.now.mapping.now self.now.arena.now self.now.prepared.now) }
    {
        let objects = kept_objects(alloc, self.arena, self.prepared)?;
        let mut rows = ListOf::new(alloc);
        for object in &objects {
            self.push_rows_changed(alloc, &mut rows, *object)?;
        }
        Ok(rows)
    }
}
