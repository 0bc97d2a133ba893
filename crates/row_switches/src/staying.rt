//! The new, changed and deleted rows that are not switched.

ghost use Rattle.std.specs.Prelude.{◌≡◌, ◌<◌, ◌++◌, ◌∷◌, ◌||◌, ℕ, [], false, filter, length, map, slice_index_or, IfOk, IfSome, OnOk, if◌then◌else◌};
ghost use Rattle.std.specs.List.{filter_map, list_any};
ghost use Rattle.std.specs.Option.{option_copied};
ghost use Rattle.class_mapping.specs.Mapped.{IsClass};
ghost use Rattle.object_rows.specs.Rows.{has_cells, linked_change};
ghost use Rattle.row_switches.specs.Ready.{IsSwitch};
ghost use Rattle.row_switches.specs.Switch as spec;

use crate::cells::Switch;
use base_core::{ColumnNo, Copied, ListOf, ObjId, TableId};
use object_arena::{Cell, Object};
use object_rows::linked_change;
use object_writes::cell_for;
use schema_core::{ChangedRow, GoneRow, NewRow, RowCell, RowChanges};
use std::alloc::{AllocError, Global};

/// Cells, each with its column.
pub(crate) type Cells = ListOf<(ColumnNo, RowCell)>;

impl<'a> Switch<'a> {
    /// The new row at a place goes behind others, unless it is switched.
    fn push_staying(
        &self,
        out: &mut ListOf<NewRow>,
        alloc: Global,
        place: usize,
        row: &NewRow,
    ) -> Result<(), AllocError>
        requires { IsSwitch self.now }
        ensures { OnOk result (out.new ≡ out.old ++ filter_map (spec.row_staying
            self.now.new.now.schema.now self.now.new.now.changes.now self.now.partners.now)
            ((place, row.now) ∷ [])) }
    {
        if self.partner_of(place).is_some() {
            return Ok(());
        }
        let cells = self.cells_after_switch(alloc, row.cells.as_slice())?;
        out.push(NewRow {
            name: row.name,
            cells,
        })
    }

    #[tactic(auto, using(class_layouts::proofs::Steps::steps))]
    /// The new rows that are not switched.
    pub(crate) fn rows_staying(&self, alloc: Global) -> Result<ListOf<NewRow>, AllocError>
        requires { IsSwitch self.now }
        ensures { IfOk result (λ rows. rows ≡ spec.rows_staying self.now.new.now.schema.now
            self.now.new.now.changes.now self.now.partners.now) }
    {
        let fresh = self.new.changes.fresh.as_slice();
        let mut rows = ListOf::new(alloc);
        for (place, row) in fresh.iter().enumerate() {
            self.push_staying(&mut rows, alloc, place, row)?;
        }
        Ok(rows)
    }

    #[tactic(auto, using(object_arena::proofs::FitLemmas::fit_class))]
    /// The record of an object, if it has been made.
    pub(crate) fn object_if(&self, object: ObjId) -> Option<&Object>
        requires { IsSwitch self.now }
        ensures object { option_copied result ≡ spec.object_if self.now.arena.now object }
        ensures class { IfSome result (λ object. IsClass self.now.mapping.now object.now.class) }
    {
        let place = object.0.saturating_sub(1);
        if place < self.arena.count() {
            return Some(self.arena.object(ObjId(place + 1)));
        }
        None
    }

    /// The cell of an object in a column of a table, if it has been made and has it.
    pub(crate) fn cell_in(&self, object: ObjId, table: TableId, column: usize) -> Option<&Cell>
        requires { IsSwitch self.now }
        ensures { spec.base_of (option_copied result) ≡ spec.base_in self.now.mapping.now
            table column (spec.object_if self.now.arena.now object) }
    {
        match self.object_if(object) {
            Some(object) => cell_for(self.mapping, object, table, column),
            None => None,
        }
    }

    /// A cell after the switches, unless a cell of an object is known to be so already.
    fn change_from(&self, own: Option<&Cell>, cell: &RowCell) -> Result<Option<RowCell>, AllocError>
        requires { IsSwitch self.now }
        ensures { IfOk result (λ change. change ≡ linked_change
            (spec.base_of (option_copied own.entry)) (spec.cell_after_switch self.now.new.now.schema.now
            self.now.new.now.changes.now self.now.partners.now cell.now)) }
    {
        let after = self.cell_after_switch(cell)?;
        match own {
            Some(own) => linked_change(&own.base, &after),
            None => linked_change(&None, &after),
        }
    }

    /// A cell of a changed row goes behind others, unless the row holds it already.
    fn push_kept(
        &self,
        out: &mut Cells,
        row: &ChangedRow,
        cell: &(ColumnNo, RowCell),
    ) -> Result<(), AllocError>
        requires { IsSwitch self.now }
        ensures { OnOk result (out.new ≡ out.old ++ filter_map (spec.cell_kept
            self.now.mapping.now self.now.arena.now self.now.new.now.changes.now
            self.now.partners.now row.now) (cell.now ∷ [])) }
    {
        let own = self.cell_in(row.name.object, row.name.table, cell.0.0 as usize);
        match self.change_from(own, &cell.1)? {
            Some(change) => out.push((cell.0, change)),
            None => Ok(()),
        }
    }

    /// A changed row with the cells that it does not hold already.
    fn row_kept(&self, alloc: Global, row: &ChangedRow) -> Result<ChangedRow, AllocError>
        requires { IsSwitch self.now }
        ensures { IfOk result (λ kept. kept ≡ spec.row_kept self.now.mapping.now
            self.now.arena.now self.now.new.now.changes.now self.now.partners.now row.now) }
    {
        let mut cells = ListOf::new(alloc);
        for cell in row.cells.as_slice() {
            self.push_kept(&mut cells, row, cell)?;
        }
        Ok(ChangedRow {
            name: row.name,
            key: row.key.copied()?,
            cells,
        })
    }

    /// A changed row goes behind others, where a cell of it is left.
    fn push_row_kept(
        &self,
        out: &mut ListOf<ChangedRow>,
        alloc: Global,
        row: &ChangedRow,
    ) -> Result<(), AllocError>
        requires { IsSwitch self.now }
        ensures { OnOk result (out.new ≡ out.old ++ filter has_cells (map (spec.row_kept
            self.now.mapping.now self.now.arena.now self.now.new.now.changes.now
            self.now.partners.now) (row.now ∷ []))) }
    {
        let kept = self.row_kept(alloc, row)?;
        if kept.cells.is_empty() {
            return Ok(());
        }
        out.push(kept)
    }

    /// The changed rows of which a cell is left.
    pub(crate) fn rows_kept(&self, alloc: Global) -> Result<ListOf<ChangedRow>, AllocError>
        requires { IsSwitch self.now }
        ensures { IfOk result (λ rows. rows ≡ spec.rows_kept self.now.mapping.now
            self.now.arena.now self.now.new.now.changes.now self.now.partners.now) }
    {
        let mut rows = ListOf::new(alloc);
        for row in self.new.changes.changed.as_slice() {
            self.push_row_kept(&mut rows, alloc, row)?;
        }
        Ok(rows)
    }
}

/// For each deleted row of these whether it is switched.
fn marks_of(
    alloc: Global,
    count: usize,
    partners: &[Option<usize>],
) -> Result<Vec<bool>, AllocError>
    ensures long { IfOk result (λ marks. length marks.items ≡ count) }
    ensures marks { IfOk result (λ marks. (number : ℕ) → number < count
        → slice_index_or marks.items number false ≡ list_any (spec.is_number number) partners.now) }
{
    let mut marks = Vec::new(alloc);
    for _number in 0..count {
        marks.push(false)?;
    }
    for partner in partners {
        mark(&mut marks, *partner);
    }
    Ok(marks)
}

/// The deleted row of this number is marked.
fn mark(marks: &mut Vec<bool>, partner: Option<usize>)
    ensures long { length marks.new.items ≡ length marks.old.items }
    ensures marks { (number : ℕ) → number < length marks.old.items
        → slice_index_or marks.new.items number false
        ≡ (spec.is_number number partner || slice_index_or marks.old.items number false) }
{
    if let Some(number) = partner {
        if number < marks.len() {
            marks[number] = true;
        }
    }
}

/// A deleted row goes behind others, unless it is switched.
fn push_left(out: &mut ListOf<GoneRow>, is_switched: bool, row: &GoneRow) -> Result<(), AllocError>
    ensures { OnOk result (out.new ≡ out.old ++ (if is_switched then [] else row.now ∷ [])) }
{
    if is_switched {
        return Ok(());
    }
    out.push(row.copied()?)
}

/// The deleted rows that are not switched.
pub(crate) fn rows_left(
    alloc: Global,
    changes: &RowChanges,
    partners: &[Option<usize>],
) -> Result<ListOf<GoneRow>, AllocError>
    ensures { IfOk result (λ rows. rows ≡ spec.rows_left changes.now partners.now) }
{
    let gone = changes.gone.as_slice();
    let marks = marks_of(alloc, gone.len(), partners)?;
    let mut rows = ListOf::new(alloc);
    for (number, row) in gone.iter().enumerate() {
        push_left(&mut rows, marks[number], row)?;
    }
    Ok(rows)
}
