//! What the changed links of an object give the columns of its foreign keys.

ghost use Rattle.std.specs.Prelude.{◌≡◌, true, slice_get, Some, IfOk};
ghost use Rattle.std.specs.List.{All, position};
ghost use Rattle.std.specs.Option.{option_copied};
ghost use Rattle.schema_core.specs.Catalog.{same_name, target_of};
ghost use Rattle.class_layouts.specs.Faults.{foreigns_in};
ghost use Rattle.object_arena.specs.Fit.{IsFit};
ghost use Rattle.object_arena.specs.Graph.{IsObject, object_at};
ghost use Rattle.object_rows.specs.Cells as spec;
ghost use Rattle.object_writes.specs.Ready.{IsReady};

use base_core::{Name, ObjId, RelNo, TableId, Value};
use class_layouts::{foreigns_of, number_of};
use class_mapping::{Mapping, Relation};
use object_arena::Arena;
use object_rows::{Prepared, RowNames, end_put, identity_value, is_kept_end};
use schema_core::{ForeignSpec, RowCell, Schema};
use std::alloc::AllocError;

/// A prepared graph, with the names of its new rows in their order.
#[derive(Drop)]
pub struct Projection<'a> {
    pub mapping: &'a Mapping,
    pub arena: &'a Arena,
    pub prepared: &'a Prepared,
    pub names: &'a RowNames,
}

/// The place of an object's row in a table among the new rows.
fn place_among(rows: &RowNames, table: Option<TableId>, object: ObjId) -> Option<usize>
    ensures { result ≡ spec.place_among rows.now table object }
{
    match table {
        Some(table) => rows.place_of(table, object),
        None => None,
    }
}

/// A part of an object's key: that of the new row at a place, or of its identity.
fn key_cell(
    arena: &Arena,
    place: Option<usize>,
    object: ObjId,
    part: u32,
) -> Result<RowCell, AllocError>
    ensures { IfOk result
        (λ cell. cell ≡ spec.key_cell place (object_at arena.now object).identity part) }
{
    match place {
        Some(place) => Ok(RowCell::KeyOf(number_of(place)?, part)),
        None => Ok(RowCell::Given(identity_value(arena, object, part)?)),
    }
}

/// The place of a name among others.
fn place_of(names: &[Name], name: &Name) -> Option<usize>
    ensures { result ≡ position (λ own. same_name own name.now) names.now }
{
    names.iter().position(|own| *own == *name)
}

/// The foreign key of a number, if the table has it.
fn foreign_at(schema: &Schema, table: TableId, number: u32) -> Option<&ForeignSpec>
    ensures { option_copied result ≡ slice_get (foreigns_in schema.now.tables table) number }
{
    foreigns_of(schema, table).get(number as usize)
}

impl<'a> Projection<'a> {
    /// What a link gives a column of its foreign key, which refers to a part of the key of a table.
    fn end_cell(
        &self,
        table: Option<TableId>,
        part: u32,
        end: Option<ObjId>,
    ) -> Result<RowCell, AllocError>
        ensures { IfOk result (λ cell. cell
            ≡ spec.end_cell self.now.arena.now self.now.names.now table part end) }
    {
        match end {
            Some(end) => {
                let place = place_among(self.names, table, end);
                key_cell(self.arena, place, end, part)
            }
            None => Ok(RowCell::Given(Value::Null)),
        }
    }

    /// What a link to an end gives the column at a place of its foreign key.
    fn column_cell(
        &self,
        foreign: &ForeignSpec,
        end: Option<ObjId>,
        part: usize,
    ) -> Result<RowCell, AllocError>
        ensures { IfOk result (λ cell. cell ≡ spec.end_cell self.now.arena.now
            self.now.names.now (target_of self.now.mapping.now.schema foreign.now) part end) }
    {
        let target = self.mapping.schema().find(&foreign.target);
        self.end_cell(target, number_of(part)?, end)
    }

    /// What a link to an end gives a column, which has this place in its foreign key, if any.
    fn part_cell(
        &self,
        foreign: &ForeignSpec,
        end: Option<ObjId>,
        part: Option<usize>,
    ) -> Result<Option<RowCell>, AllocError>
        ensures { IfOk result (λ cell. cell ≡ spec.part_cell self.now.mapping.now.schema
            self.now.arena.now self.now.names.now foreign.now end part) }
    {
        match part {
            Some(part) => Ok(Some(self.column_cell(foreign, end, part)?)),
            None => Ok(None),
        }
    }

    /// What a link to an end by a foreign key gives the column of a name.
    fn named_cell(
        &self,
        foreign: &ForeignSpec,
        name: &Name,
        end: Option<ObjId>,
    ) -> Result<Option<RowCell>, AllocError>
        ensures { IfOk result (λ cell. cell ≡ spec.foreign_cell self.now.mapping.now.schema
            self.now.arena.now self.now.names.now name.now end (Some foreign.now)) }
    {
        let part = place_of(foreign.columns.as_slice(), name);
        self.part_cell(foreign, end, part)
    }

    /// What a link to an end gives the column of a name, where a foreign key of this number is the table's and has it.
    pub fn foreign_cell(
        &self,
        table: TableId,
        number: u32,
        name: &Name,
        end: Option<ObjId>,
    ) -> Result<Option<RowCell>, AllocError>
        ensures { IfOk result (λ cell. cell ≡ spec.foreign_cell self.now.mapping.now.schema
            self.now.arena.now self.now.names.now name.now end
            (slice_get (foreigns_in self.now.mapping.now.schema.tables table) number)) }
    {
        match foreign_at(self.mapping.schema(), table, number) {
            Some(foreign) => self.named_cell(foreign, name, end),
            None => Ok(None),
        }
    }

    /// What a link with this end, if it was changed, gives the column of a name. An end outside the session gives nothing.
    fn put_cell(
        &self,
        table: TableId,
        number: u32,
        name: &Name,
        put: Option<Option<ObjId>>,
    ) -> Result<Option<RowCell>, AllocError>
        ensures { IfOk result (λ cell. cell ≡ spec.put_cell self.now.mapping.now.schema
            self.now.arena.now self.now.prepared.now self.now.names.now name.now
            (slice_get (foreigns_in self.now.mapping.now.schema.tables table) number) put) }
    {
        match put {
            Some(end) => {
                if is_kept_end(self.arena, self.prepared, end) {
                    return self.foreign_cell(table, number, name, end);
                }
                Ok(None)
            }
            None => Ok(None),
        }
    }

    /// What a changed link of an object, of this number, gives the column of a name in a table.
    fn relation_cell(
        &self,
        object: ObjId,
        table: TableId,
        name: &Name,
        number: usize,
        relation: &Relation,
    ) -> Result<Option<RowCell>, AllocError>
        ensures { IfOk result (λ cell. cell ≡ spec.relation_cell self.now.mapping.now
            self.now.arena.now self.now.prepared.now self.now.names.now object table name.now
            (number, relation.now)) }
    {
        if relation.many || relation.foreign.0.0 != table.0 {
            return Ok(None);
        }
        let link = RelNo(number_of(number)?);
        let put = end_put(self.arena, self.prepared, object, link);
        self.put_cell(table, relation.foreign.1, name, put)
    }

    #[tactic(auto, using(class_layouts::proofs::Steps::steps, object_arena::proofs::FitLemmas::fit_class))]
    /// What the changed links of an object give the column of a name in a table.
    pub fn linked_cell(
        &self,
        object: ObjId,
        table: TableId,
        name: &Name,
    ) -> Result<Option<RowCell>, AllocError>
        requires ready { IsReady self.now }
        requires object { IsObject self.now.arena.now object }
        ensures { IfOk result (λ cell. cell ≡ spec.linked_cell self.now.mapping.now
            self.now.arena.now self.now.prepared.now self.now.names.now object table name.now) }
    {
        let relations = self.mapping.relations(self.arena.object(object).class);
        for (number, relation) in relations.iter().enumerate() {
            if let Some(cell) = self.relation_cell(object, table, name, number, relation)? {
                return Ok(Some(cell));
            }
        }
        Ok(None)
    }
}
