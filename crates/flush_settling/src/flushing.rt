//! What a flush wrote, and the values of cells that come of it.

ghost use Rattle.std.specs.Prelude.{◌≡◌, slice_get, slice_index_or, IfOk};
ghost use Rattle.class_mapping.specs.Mapped.{IsClass};
ghost use Rattle.object_arena.specs.Graph.{IsObject};
ghost use Rattle.class_layouts.specs.Faults.{foreigns_in};
ghost use Rattle.object_rows.specs.Cells.{key_value, linked_cell, put_cell, relation_cell};
ghost use Rattle.object_rows.specs.Seen.{is_kept_end};
ghost use Rattle.graph_flushed.specs.Flushed as spec;
ghost use Rattle.flush_settling.specs.Ready.{IsFlushing, written_of};

use base_core::{ClassId, Copied, Key, Name, ObjId, RelNo, TableId, Value};
use class_layouts::number_of;
use class_mapping::{Attribute, Relation};
use graph_flushed::{is_telling, known_value, part_or_null};
use object_arena::{Cell, IdentityMap};
use object_rows::{end_put, is_in_session};
use object_writes::Projection;
use schema_core::RowCell;
use std::alloc::AllocError;

/// A prepared graph whose changes were written, with the keys of its new objects, each at its object's place, and these
/// objects by their keys.
#[derive(Drop)]
pub(crate) struct Flushing<'a> {
    pub(crate) projection: &'a Projection<'a>,
    pub(crate) keys: &'a [Option<Key>],
    pub(crate) holders: &'a IdentityMap,
}

impl<'a> Flushing<'a> {
    /// A part of the key of a new object, or NULL.
    fn part_of_new(&self, object: ObjId, part: u32) -> Result<Value, AllocError>
        ensures { IfOk result
            (λ value. value ≡ key_value (spec.key_of (written_of self.now) object) part) }
    {
        match self.keys.get(object.0.saturating_sub(1) as usize) {
            Some(key) => part_or_null(key, part),
            None => Ok(Value::Null),
        }
    }

    /// What a cell of a row holds.
    fn value_put(&self, cell: &RowCell) -> Result<Value, AllocError>
        ensures { IfOk result
            (λ value. value ≡ spec.value_put (written_of self.now) cell.now) }
    {
        match cell {
            RowCell::Given(value) => Ok(value.copied()?),
            RowCell::KeyOf(place, part) => self.part_of_row(*place, *part),
        }
    }

    /// A part of the key of a new row.
    fn part_of_row(&self, place: u32, part: u32) -> Result<Value, AllocError>
        ensures { IfOk result (λ value. value ≡ key_value (spec.key_of (written_of self.now)
            (slice_index_or self.now.projection.now.names.now place spec.no_row).object) part) }
    {
        match self.projection.names.as_slice().get(place as usize) {
            Some(row) => self.part_of_new(row.object, part),
            None => self.part_of_new(ObjId(0), part),
        }
    }

    /// Whether the end of a link is none, or in the session.
    fn keeps_end(&self, end: Option<ObjId>) -> bool
        ensures { result ≡ is_kept_end self.now.projection.now.arena.now
            self.now.projection.now.prepared.now end }
    {
        match end {
            Some(end) => is_in_session(self.projection.arena, self.projection.prepared, end),
            None => true,
        }
    }

    /// What a link by a foreign key that has this end, if it was changed, gives the column of a name in a table.
    fn cell_put(
        &self,
        table: TableId,
        number: u32,
        name: &Name,
        put: Option<Option<ObjId>>,
    ) -> Result<Option<RowCell>, AllocError>
        ensures { IfOk result (λ cell. cell
            ≡ put_cell self.now.projection.now.mapping.now.schema
            self.now.projection.now.arena.now self.now.projection.now.prepared.now
            self.now.projection.now.names.now name.now
            (slice_get (foreigns_in self.now.projection.now.mapping.now.schema.tables table) number)
            put) }
    {
        let Some(end) = put else {
            return Ok(None);
        };
        if !self.keeps_end(end) {
            return Ok(None);
        }
        self.projection.foreign_cell(table, number, name, end)
    }

    /// What a changed link of an object gives the column of a name in a table.
    fn relation_cell(
        &self,
        number: usize,
        relation: &Relation,
        object: ObjId,
        table: TableId,
        name: &Name,
    ) -> Result<Option<RowCell>, AllocError>
        ensures { IfOk result (λ cell. cell ≡ relation_cell
            self.now.projection.now.mapping.now self.now.projection.now.arena.now
            self.now.projection.now.prepared.now self.now.projection.now.names.now
            object table name.now (number, relation.now)) }
    {
        if relation.many || relation.foreign.0.0 != table.0 {
            return Ok(None);
        }
        let number = RelNo(number_of(number)?);
        let put = end_put(
            self.projection.arena,
            self.projection.prepared,
            object,
            number,
        );
        self.cell_put(table, relation.foreign.1, name, put)
    }

    #[tactic(auto, using(class_layouts::proofs::Steps::steps, object_arena::proofs::FitLemmas::fit_class))]
    /// What the changed links of an object give the column of a name in a table.
    fn linked_cell(
        &self,
        object: ObjId,
        table: TableId,
        name: &Name,
    ) -> Result<Option<RowCell>, AllocError>
        requires flushing { IsFlushing self.now }
        requires object { IsObject self.now.projection.now.arena.now object }
        ensures { IfOk result (λ cell. cell ≡ linked_cell
            self.now.projection.now.mapping.now self.now.projection.now.arena.now
            self.now.projection.now.prepared.now self.now.projection.now.names.now
            object table name.now) }
    {
        let class = self.projection.arena.class_of(object);
        let relations = self.projection.mapping.relations(class);
        for (number, relation) in relations.iter().enumerate() {
            if let Some(cell) = self.relation_cell(number, relation, object, table, name)? {
                return Ok(Some(cell));
            }
        }
        Ok(None)
    }

    /// What came through a changed link of an object into an attribute.
    pub(crate) fn value_come(
        &self,
        object: ObjId,
        attribute: &Attribute,
    ) -> Result<Option<Value>, AllocError>
        requires flushing { IsFlushing self.now }
        requires object { IsObject self.now.projection.now.arena.now object }
        ensures { IfOk result (λ value. value
            ≡ spec.value_come (written_of self.now) object attribute.now) }
    {
        match self.linked_cell(object, attribute.table, &attribute.name)? {
            Some(cell) => Ok(Some(self.value_put(&cell)?)),
            None => Ok(None),
        }
    }

    /// What a new row holds for an attribute outside the key.
    pub(crate) fn own_value(
        &self,
        object: ObjId,
        class: ClassId,
        attribute: &Attribute,
        cell: &Cell,
    ) -> Result<Value, AllocError>
        requires flushing { IsFlushing self.now }
        requires object { IsObject self.now.projection.now.arena.now object }
        requires class { IsClass self.now.projection.now.mapping.now class }
        ensures { IfOk result (λ value. value
            ≡ spec.own_value (written_of self.now) object class attribute.now cell.now) }
    {
        let mapping = self.projection.mapping;
        if is_telling(mapping, class, attribute.table, &attribute.name) {
            return known_value(&mapping.spec_of(class).identity);
        }
        match self.value_come(object, attribute)? {
            Some(value) => Ok(value),
            None => known_value(&cell.value),
        }
    }
}
