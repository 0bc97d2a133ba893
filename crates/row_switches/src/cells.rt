//! What becomes of cells that name the keys of new rows.

ghost use Rattle.std.specs.Prelude.{◌≡◌, ◌++◌, ◌∷◌, [], true, slice_index_or, map, None, IfOk, OnOk};
ghost use Rattle.row_switches.specs.Ready.{IsSwitch};
ghost use Rattle.row_switches.specs.Switch as spec;

use base_core::{Copied, ListOf};
use class_layouts::number_of;
use class_mapping::Mapping;
use flush_order::NewRows;
use object_arena::Arena;
use object_rows::part_of_key;
use schema_core::RowCell;
use std::alloc::{AllocError, Global};

/// Changes of which it is known which rows are switched.
#[derive(Drop)]
pub(crate) struct Switch<'a> {
    pub mapping: &'a Mapping,
    pub arena: &'a Arena,
    pub new: &'a NewRows<'a>,
    /// For each new row the number of the deleted one with which it is switched.
    pub partners: &'a [Option<usize>],
    /// For each new row how many before it stay new.
    pub numbers: &'a [u32],
}

/// For each new row how many before it stay new.
pub(crate) fn numbers_among(
    alloc: Global,
    partners: &[Option<usize>],
) -> Result<Vec<u32>, AllocError>
    ensures { IfOk result (λ numbers. numbers.items ≡ spec.numbers_from 0 partners.now) }
{
    let mut numbers = Vec::new(alloc);
    let mut count = 0;
    for partner in partners {
        numbers.push(number_of(count)?)?;
        if partner.is_none() {
            count += 1;
        }
    }
    Ok(numbers)
}

impl<'a> Switch<'a> {
    /// The number of the deleted row with which the new row at a place is switched, if it is.
    pub(crate) fn partner_of(&self, place: usize) -> Option<usize>
        ensures { result ≡ slice_index_or self.now.partners.now place None }
    {
        match self.partners.get(place) {
            Some(partner) => *partner,
            None => None,
        }
    }

    /// The number that the row at a place has among those that stay new.
    fn number_at(&self, place: u32) -> u32
        ensures { result ≡ slice_index_or self.now.numbers.now place place }
    {
        match self.numbers.get(place as usize) {
            Some(number) => *number,
            None => place,
        }
    }

    #[tactic(auto, using(crate::proofs::SwitchSteps::within_steps))]
    /// A part of the key of the new row at a place: the value, where it is switched.
    fn key_cell(&self, place: u32, part: u32) -> Result<RowCell, AllocError>
        requires { IsSwitch self.now }
        ensures { IfOk result (λ cell. cell ≡ spec.key_cell self.now.new.now.schema.now
            self.now.new.now.changes.now self.now.partners.now place part
            (slice_index_or self.now.partners.now place None)) }
    {
        match self.partner_of(place as usize) {
            Some(_gone) => Ok(RowCell::Given(part_of_key(&self.new.at(place).key, part)?)),
            None => Ok(RowCell::KeyOf(self.number_at(place), part)),
        }
    }

    /// A cell, where the key of a switched row is a value and rows that stay new are counted alone.
    pub(crate) fn cell_after_switch(&self, cell: &RowCell) -> Result<RowCell, AllocError>
        requires { IsSwitch self.now }
        ensures { IfOk result (λ after. after ≡ spec.cell_after_switch
            self.now.new.now.schema.now self.now.new.now.changes.now self.now.partners.now cell.now) }
    {
        match cell {
            RowCell::Given(value) => Ok(RowCell::Given(value.copied()?)),
            RowCell::KeyOf(place, part) => self.key_cell(*place, *part),
        }
    }

    /// The cells of a new row, each after the switches.
    pub(crate) fn cells_after_switch(
        &self,
        alloc: Global,
        cells: &[RowCell],
    ) -> Result<ListOf<RowCell>, AllocError>
        requires { IsSwitch self.now }
        ensures { IfOk result (λ after. after ≡ map (spec.cell_after_switch
            self.now.new.now.schema.now self.now.new.now.changes.now self.now.partners.now) cells.now) }
    {
        let mut after = ListOf::new(alloc);
        for cell in cells {
            after.push(self.cell_after_switch(cell)?)?;
        }
        Ok(after)
    }
}
