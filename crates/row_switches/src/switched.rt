//! The rows that are switched.

ghost use Rattle.std.specs.Prelude.{◌≡◌, ◌++◌, ◌∷◌, ◌<◌, [], length, slice_index_or, Some, IfOk, OnOk};
ghost use Rattle.std.specs.List.{filter_map};
ghost use Rattle.base_core.specs.declared.value.Value.TheVariants.{Null};
ghost use Rattle.schema_core.specs.DependencyOrder.{is_among};
ghost use Rattle.schema_core.specs.declared.changes.RowCell.TheVariants.{Given};
ghost use Rattle.flush_order.specs.Orders.{gone_at};
ghost use Rattle.object_rows.specs.Rows.{linked_change};
ghost use Rattle.row_switches.specs.Ready.{IsSwitch};
ghost use Rattle.row_switches.specs.Switch as spec;

use crate::cells::Switch;
use crate::staying::Cells;
use base_core::{ColumnNo, Copied, ListOf, TableId, Value};
use class_layouts::number_of;
use object_rows::{linked_change, part_of_key};
use object_writes::{cell_for, columns_at};
use schema_core::{ChangedRow, ColumnSpec, GoneRow, NewRow, RowCell};
use std::alloc::{AllocError, Global};

/// Whether a table is one of these.
fn is_among(tables: &[TableId], table: TableId) -> bool
    ensures { result ≡ is_among tables.now table }
{
    let Some((first, tables)) = tables.split_first() else {
        return false;
    };
    first.0 == table.0 || is_among(tables, table)
}

impl<'a> Switch<'a> {
    /// Whether a column of a deleted row is of a table of its object's class, and no attribute of the object.
    fn is_unread(&self, row: &GoneRow, column: usize) -> bool
        requires { IsSwitch self.now }
        ensures { result ≡ spec.is_unread self.now.mapping.now row.now.name.table column
            (spec.object_if self.now.arena.now row.now.name.object) }
    {
        let table = row.name.table;
        match self.object_if(row.name.object) {
            Some(object) => {
                is_among(self.mapping.tables_of(object.class), table)
                    && cell_for(self.mapping, object, table, column).is_none()
            }
            None => false,
        }
    }

    /// What a deleted row is known to hold in a column.
    fn value_gone(&self, row: &GoneRow, column: usize) -> Result<Option<Value>, AllocError>
        requires { IsSwitch self.now }
        ensures { IfOk result (λ value. value ≡ spec.value_gone self.now.mapping.now
            self.now.arena.now row.now column) }
    {
        if self.is_unread(row, column) {
            return Ok(None);
        }
        let column = number_of(column)?;
        Ok(Some(part_of_key(&row.base, column)?))
    }

    /// The cell of a new row in a column, after the switches; NULL where it has none.
    fn new_cell_at(&self, row: &NewRow, column: usize) -> Result<RowCell, AllocError>
        requires { IsSwitch self.now }
        ensures { IfOk result (λ cell. cell ≡ spec.cell_after_switch self.now.new.now.schema.now
            self.now.new.now.changes.now self.now.partners.now
            (slice_index_or row.now.cells column (Given Null))) }
    {
        match row.cells.get(column) {
            Some(cell) => self.cell_after_switch(cell),
            None => Ok(RowCell::Given(Value::Null)),
        }
    }

    /// The cell of a new row in a column, unless the deleted row is known to hold it.
    fn change_switched(
        &self,
        row: &NewRow,
        gone: &GoneRow,
        number: usize,
    ) -> Result<Option<RowCell>, AllocError>
        requires { IsSwitch self.now }
        ensures { IfOk result (λ change. change ≡ linked_change
            (spec.value_gone self.now.mapping.now self.now.arena.now gone.now number)
            (spec.cell_after_switch self.now.new.now.schema.now self.now.new.now.changes.now
            self.now.partners.now (slice_index_or row.now.cells number (Given Null)))) }
    {
        let cell = self.new_cell_at(row, number)?;
        let base = self.value_gone(gone, number)?;
        linked_change(&base, &cell)
    }

    /// The cell of a column outside the key of a new row goes behind others, unless the deleted row is known to hold it.
    fn push_switched(
        &self,
        out: &mut Cells,
        row: &NewRow,
        gone: &GoneRow,
        number: usize,
        column: &ColumnSpec,
    ) -> Result<(), AllocError>
        requires { IsSwitch self.now }
        ensures { OnOk result (out.new ≡ out.old ++ filter_map (spec.cell_switched
            self.now.mapping.now self.now.arena.now self.now.new.now.changes.now
            self.now.partners.now row.now gone.now) ((number, column.now) ∷ [])) }
    {
        if column.key {
            return Ok(());
        }
        let place = ColumnNo(number_of(number)?);
        match self.change_switched(row, gone, number)? {
            Some(change) => out.push((place, change)),
            None => Ok(()),
        }
    }

    #[tactic(auto, using(class_layouts::proofs::Steps::steps))]
    /// The changed row in place of the new row at a place and a deleted one.
    fn row_switched(
        &self,
        alloc: Global,
        place: usize,
        row: &NewRow,
        gone: &GoneRow,
    ) -> Result<ChangedRow, AllocError>
        requires switch { IsSwitch self.now }
        requires within { place < length self.now.new.now.rows.now }
        ensures { IfOk result (λ switched. switched ≡ spec.row_switched self.now.mapping.now
            self.now.arena.now self.now.new.now.changes.now self.now.partners.now
            (place, row.now) gone.now) }
    {
        let columns = columns_at(self.mapping, row.name.table);
        let mut cells = ListOf::new(alloc);
        for (number, column) in columns.iter().enumerate() {
            self.push_switched(&mut cells, row, gone, number, column)?;
        }
        let key = self.new.at(number_of(place)?).key.copied()?;
        Ok(ChangedRow {
            name: row.name,
            key,
            cells,
        })
    }

    #[tactic(auto, using(crate::proofs::SwitchSteps::within_steps))]
    /// The changed row in place of the new row at a place goes behind others, where it is switched.
    fn push_switch_of(
        &self,
        out: &mut ListOf<ChangedRow>,
        alloc: Global,
        place: usize,
        row: &NewRow,
    ) -> Result<(), AllocError>
        requires { IsSwitch self.now }
        ensures { OnOk result (out.new ≡ out.old ++ filter_map (spec.switch_of
            self.now.mapping.now self.now.arena.now self.now.new.now.changes.now
            self.now.partners.now) ((place, row.now) ∷ [])) }
    {
        match self.partner_of(place) {
            None => Ok(()),
            Some(number) => {
                let gone = self.new.changes.gone.at(number);
                out.push(self.row_switched(alloc, place, row, gone)?)
            }
        }
    }

    #[tactic(auto, using(class_layouts::proofs::Steps::steps))]
    /// A changed row for each new row that is switched, perhaps without cells.
    pub(crate) fn push_rows_switched(
        &self,
        out: &mut ListOf<ChangedRow>,
        alloc: Global,
    ) -> Result<(), AllocError>
        requires { IsSwitch self.now }
        ensures { OnOk result (out.new ≡ out.old ++ spec.rows_switched self.now.mapping.now
            self.now.arena.now self.now.new.now.changes.now self.now.partners.now) }
    {
        let fresh = self.new.changes.fresh.as_slice();
        for (place, row) in fresh.iter().enumerate() {
            self.push_switch_of(out, alloc, place, row)?;
        }
        Ok(())
    }
}
