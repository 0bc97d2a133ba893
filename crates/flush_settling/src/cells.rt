//! The cells of objects after success.

ghost use Rattle.std.specs.Prelude.{◌≡◌, ◌==◌, ◌<◌, length, map, IfOk, IsTrue};
ghost use Rattle.std.specs.List.{enumerate_from, list_any, position};
ghost use Rattle.class_mapping.specs.Mapped.{IsClass, attributes_of};
ghost use Rattle.object_arena.specs.Graph.{IsObject};
ghost use Rattle.graph_flushed.specs.Flushed as spec;
ghost use Rattle.flush_settling.specs.Ready.{IsFlushing, written_of};

use crate::flushing::Flushing;
use base_core::{AttrNo, ClassId, Key, ListOf, ObjId, Value};
use class_layouts::number_of;
use graph_flushed::{held_cell, is_kept, kept_cell};
use object_arena::Cell;
use object_rows::part_of_key;
use std::alloc::{AllocError, Global};

/// The place of an attribute among those of the key.
fn place_among(keys: &[AttrNo], place: usize) -> Option<usize>
    ensures { result ≡ position (λ attr. attr.0 == place) keys.now }
{
    keys.iter().position(|attr| attr.0 as usize == place)
}

/// Whether an attribute is one of the key.
fn is_among(keys: &[AttrNo], place: usize) -> bool
    ensures { result ≡ list_any (λ key. key.0 == place) keys.now }
{
    for key in keys {
        if key.0 as usize == place {
            return true;
        }
    }
    false
}

impl<'a> Flushing<'a> {
    /// What a new row holds for the attribute at a place.
    fn new_value(
        &self,
        object: ObjId,
        class: ClassId,
        key: &Key,
        place: usize,
        cell: &Cell,
    ) -> Result<Value, AllocError>
        requires flushing { IsFlushing self.now }
        requires object { IsObject self.now.projection.now.arena.now object }
        requires class { IsClass self.now.projection.now.mapping.now class }
        requires place { place < length (attributes_of self.now.projection.now.mapping.now class) }
        ensures { IfOk result (λ value. value
            ≡ spec.new_value (written_of self.now) object class key.now (place, cell.now)) }
    {
        let mapping = self.projection.mapping;
        match place_among(mapping.key_attributes(class), place) {
            Some(part) => part_of_key(key, number_of(part)?),
            None => self.own_value(object, class, &mapping.attributes(class)[place], cell),
        }
    }

    /// The cells of a new object.
    #[tactic(auto, using(class_layouts::proofs::Steps::steps))]
    pub(crate) fn new_cells(
        &self,
        alloc: Global,
        object: ObjId,
        class: ClassId,
        key: &Key,
        cells: &[Cell],
    ) -> Result<ListOf<Cell>, AllocError>
        requires flushing { IsFlushing self.now }
        requires object { IsObject self.now.projection.now.arena.now object }
        requires class { IsClass self.now.projection.now.mapping.now class }
        requires long { length cells.now
            ≡ length (attributes_of self.now.projection.now.mapping.now class) }
        ensures { IfOk result (λ new. new ≡ map
            (spec.new_cell (written_of self.now) object class key.now)
            (enumerate_from 0 cells.now)) }
    {
        let mut new = ListOf::new(alloc);
        for (place, cell) in cells.iter().enumerate() {
            let value = self.new_value(object, class, key, place, cell)?;
            new.push(held_cell(value)?)?;
        }
        Ok(new)
    }

    /// A cell of an object that keeps its rows.
    fn staying_cell(
        &self,
        object: ObjId,
        class: ClassId,
        place: usize,
        cell: &Cell,
    ) -> Result<Cell, AllocError>
        requires flushing { IsFlushing self.now }
        requires object { IsObject self.now.projection.now.arena.now object }
        requires class { IsClass self.now.projection.now.mapping.now class }
        requires place { place < length (attributes_of self.now.projection.now.mapping.now class) }
        ensures { IfOk result (λ staying. staying
            ≡ spec.staying_cell (written_of self.now) object class (place, cell.now)) }
    {
        let mapping = self.projection.mapping;
        if is_among(mapping.key_attributes(class), place) {
            return kept_cell(cell);
        }
        match self.value_come(object, &mapping.attributes(class)[place])? {
            Some(value) => held_cell(value),
            None => kept_cell(cell),
        }
    }

    /// Whether a cell of an object that keeps its rows stays as it is.
    fn keeps_cell(
        &self,
        object: ObjId,
        class: ClassId,
        place: usize,
        cell: &Cell,
    ) -> Result<bool, AllocError>
        requires flushing { IsFlushing self.now }
        requires object { IsObject self.now.projection.now.arena.now object }
        requires class { IsClass self.now.projection.now.mapping.now class }
        requires place { place < length (attributes_of self.now.projection.now.mapping.now class) }
        ensures { IfOk result (λ kept. IsTrue kept
            → spec.staying_cell (written_of self.now) object class (place, cell.now) ≡ cell.now) }
    {
        if !is_kept(cell) {
            return Ok(false);
        }
        let mapping = self.projection.mapping;
        if is_among(mapping.key_attributes(class), place) {
            return Ok(true);
        }
        let come = self.value_come(object, &mapping.attributes(class)[place])?;
        Ok(come.is_none())
    }

    /// Whether the cells of an object that keeps its rows stay as they are. Takes no memory, where nothing comes through a link.
    pub(crate) fn keeps_cells(
        &self,
        object: ObjId,
        class: ClassId,
        cells: &[Cell],
    ) -> Result<bool, AllocError>
        requires flushing { IsFlushing self.now }
        requires object { IsObject self.now.projection.now.arena.now object }
        requires class { IsClass self.now.projection.now.mapping.now class }
        requires long { length cells.now
            ≡ length (attributes_of self.now.projection.now.mapping.now class) }
        ensures { IfOk result (λ kept. IsTrue kept → map
            (spec.staying_cell (written_of self.now) object class) (enumerate_from 0 cells.now)
            ≡ cells.now) }
    {
        for (place, cell) in cells.iter().enumerate() {
            if !self.keeps_cell(object, class, place, cell)? {
                return Ok(false);
            }
        }
        Ok(true)
    }

    /// The cells of an object that keeps its rows.
    #[tactic(auto, using(class_layouts::proofs::Steps::steps))]
    pub(crate) fn staying_cells(
        &self,
        alloc: Global,
        object: ObjId,
        class: ClassId,
        cells: &[Cell],
    ) -> Result<ListOf<Cell>, AllocError>
        requires flushing { IsFlushing self.now }
        requires object { IsObject self.now.projection.now.arena.now object }
        requires class { IsClass self.now.projection.now.mapping.now class }
        requires long { length cells.now
            ≡ length (attributes_of self.now.projection.now.mapping.now class) }
        ensures { IfOk result (λ staying. staying ≡ map
            (spec.staying_cell (written_of self.now) object class) (enumerate_from 0 cells.now)) }
    {
        let mut staying = ListOf::new(alloc);
        for (place, cell) in cells.iter().enumerate() {
            staying.push(self.staying_cell(object, class, place, cell)?)?;
        }
        Ok(staying)
    }
}
