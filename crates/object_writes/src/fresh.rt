//! The rows that new objects make.

ghost use Rattle.std.specs.Prelude.{◌≡◌, ◌<◌, true, length, map, slice_get, Some, IfOk};
ghost use Rattle.std.specs.List.{All, enumerate_from};
ghost use Rattle.object_arena.specs.Graph.{IsObject};
ghost use Rattle.object_rows.specs.Rows as spec;
ghost use Rattle.object_writes.specs.Ready.{IsReady};

use crate::cells::Projection;
use crate::columns::{
    class_identity, columns_at, is_discriminator, is_joined, key_part, value_now,
};
use base_core::{ListOf, RowName};
use class_layouts::number_of;
use schema_core::{ColumnSpec, NewRow, RowCell};
use std::alloc::{AllocError, Global};

impl<'a> Projection<'a> {
    #[tactic(auto, using(object_arena::proofs::FitLemmas::fit_class))]
    /// What a column of a new row holds that is no part of the key of a row before it.
    fn own_cell(
        &self,
        row: RowName,
        number: usize,
        column: &ColumnSpec,
    ) -> Result<RowCell, AllocError>
        requires ready { IsReady self.now }
        requires object { IsObject self.now.arena.now row.object }
        ensures { IfOk result (λ cell. cell ≡ spec.own_cell self.now.mapping.now
            self.now.arena.now self.now.prepared.now self.now.names.now row
            (number, column.now)) }
    {
        let object = self.arena.object(row.object);
        if is_discriminator(self.mapping, object.class, row.table, &column.name) {
            let identity = class_identity(self.mapping, object.class)?;
            return Ok(RowCell::Given(identity));
        }
        match self.linked_cell(row.object, row.table, &column.name)? {
            Some(cell) => Ok(cell),
            None => Ok(RowCell::Given(value_now(self.mapping, object, row.table, number)?)),
        }
    }

    #[tactic(auto, using(object_arena::proofs::FitLemmas::fit_class))]
    /// The cell of a column of the new row at a place.
    fn new_cell(
        &self,
        place: usize,
        row: RowName,
        columns: &[ColumnSpec],
        number: usize,
        column: &ColumnSpec,
    ) -> Result<RowCell, AllocError>
        requires ready { IsReady self.now }
        requires object { IsObject self.now.arena.now row.object }
        requires columns { columns.now ≡ spec.columns_at self.now.mapping.now row.table }
        requires inside { number < length columns.now }
        ensures { IfOk result (λ cell. cell ≡ spec.new_cell self.now.mapping.now
            self.now.arena.now self.now.prepared.now self.now.names.now (place, row)
            (number, column.now)) }
    {
        let class = self.arena.object(row.object).class;
        if is_joined(self.mapping, class, row.table) && column.key {
            let part = number_of(key_part(columns, number))?;
            return Ok(RowCell::KeyOf(number_of(place.saturating_sub(1))?, part));
        }
        self.own_cell(row, number, column)
    }

    #[tactic(auto, using(class_layouts::proofs::Steps::steps))]
    /// The new row at a place.
    fn new_row(&self, alloc: Global, place: usize, row: RowName) -> Result<NewRow, AllocError>
        requires ready { IsReady self.now }
        requires object { IsObject self.now.arena.now row.object }
        ensures { IfOk result (λ new. new ≡ spec.new_row self.now.mapping.now
            self.now.arena.now self.now.prepared.now self.now.names.now (place, row)) }
    {
        let columns = columns_at(self.mapping, row.table);
        let mut cells = ListOf::new(alloc);
        for (number, column) in columns.iter().enumerate() {
            cells.push(self.new_cell(place, row, columns, number, column)?)?;
        }
        Ok(NewRow { name: row, cells })
    }

    #[tactic(auto, using(class_layouts::proofs::Steps::steps), unfolding(object_rows::specs::Rows::new_rows))]
    /// A row for each table of each new object.
    pub fn new_rows(&self, alloc: Global) -> Result<ListOf<NewRow>, AllocError>
        requires ready { IsReady self.now }
        requires made { All (λ row. IsObject self.now.arena.now row.object) self.now.names.now }
        ensures { IfOk result (λ rows. rows
            ≡ spec.new_rows self.now.mapping.now self.now.arena.now self.now.prepared.now) }
    {
        let names = self.names.as_slice();
        let mut rows = ListOf::new(alloc);
        for (place, row) in names.iter().enumerate() {
            rows.push(self.new_row(alloc, place, *row)?)?;
        }
        Ok(rows)
    }
}
