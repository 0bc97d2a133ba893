//! The keys that new objects have once their rows were written.

ghost use Rattle.std.specs.Prelude.{◌≡◌, [], length, map, slice_index_or, IfOk};
ghost use Rattle.std.specs.Option.{option_copied, unwrap_or};
ghost use Rattle.class_mapping.specs.Mapped.{IsAttribute, IsClass};
ghost use Rattle.object_arena.specs.Fit.{IsFit};
ghost use Rattle.object_arena.specs.Fit as fit;
ghost use Rattle.object_arena.specs.Graph.{IsObject};
ghost use Rattle.graph_flushed.specs.Keys as spec;
ghost use Rattle.graph_flushed.specs.Ready.{AreRowKeys};

use base_core::{AttrNo, ClassId, Copied, Key, Kind, ListOf, ObjId, RowName, Value};
use class_mapping::Mapping;
use object_arena::Arena;
use object_rows::{Prepared, RowNames, is_new, object_ids};
use schema_core::{ChangedRow, NewRow, RowChanges, kind_of_value, same_kind};
use std::alloc::{AllocError, Global};

/// The new and changed rows of a flush, found by table and object, and the keys of the new ones in their order.
#[derive(Drop)]
pub(crate) struct RowKeys<'a> {
    pub(crate) changes: &'a RowChanges,
    pub(crate) keys: &'a ListOf<Key>,
    pub(crate) fresh: &'a RowNames,
    pub(crate) changed: &'a RowNames,
}

/// The names of new rows.
fn fresh_list(alloc: Global, rows: &[NewRow]) -> Result<Vec<RowName>, AllocError>
    ensures { IfOk result (λ names. names.items ≡ map (λ row. row.name) rows.now) }
{
    Ok(rows.iter().map(|row| row.name).collect(alloc)?)
}

#[tactic(auto, using(class_layouts::proofs::Steps::steps))]
/// The names of changed rows.
fn changed_list(alloc: Global, rows: &[ChangedRow]) -> Result<Vec<RowName>, AllocError>
    ensures { IfOk result (λ names. names.items ≡ map (λ row. row.name) rows.now) }
{
    let mut names = Vec::new(alloc);
    for row in rows {
        names.push(row.name)?;
    }
    Ok(names)
}

/// New rows found by table and object.
fn fresh_names(alloc: Global, rows: &[NewRow]) -> Result<RowNames, AllocError>
    ensures { IfOk result (λ names. names ≡ map (λ row. row.name) rows.now) }
{
    let names = fresh_list(alloc, rows)?;
    RowNames::new(alloc, names)
}

/// Changed rows found by table and object.
fn changed_names(alloc: Global, rows: &[ChangedRow]) -> Result<RowNames, AllocError>
    ensures { IfOk result (λ names. names ≡ map (λ row. row.name) rows.now) }
{
    let names = changed_list(alloc, rows)?;
    RowNames::new(alloc, names)
}

/// A copy of a key, or of none an empty one.
fn copied_or_empty(alloc: Global, key: Option<&Key>) -> Result<Key, AllocError>
    ensures { IfOk result (λ copy. copy ≡ unwrap_or (option_copied key.entry) []) }
{
    match key {
        Some(key) => Ok(key.copied()?),
        None => Ok(ListOf::new(alloc)),
    }
}

impl<'a> RowKeys<'a> {
    #[tactic(auto, using(crate::proofs::KeySteps::key_steps))]
    /// The key of the new row at a place, or of the changed row at another.
    fn key_at(
        &self,
        alloc: Global,
        place: Option<usize>,
        other: Option<usize>,
    ) -> Result<Key, AllocError>
        ensures { IfOk result (λ key. key ≡ spec.key_at self.now.keys.now place
            (map (λ row. row.key) self.now.changes.now.changed) other) }
    {
        if let Some(place) = place {
            return copied_or_empty(alloc, self.keys.get(place));
        }
        match other {
            Some(other) => changed_key(alloc, self.changes.changed.as_slice(), other),
            None => Ok(ListOf::new(alloc)),
        }
    }

    /// The key of a new object.
    fn new_key(
        &self,
        alloc: Global,
        mapping: &Mapping,
        arena: &Arena,
        object: ObjId,
    ) -> Result<Key, AllocError>
        requires rows { AreRowKeys self.now }
        requires fit { IsFit mapping.now arena.now }
        requires object { IsObject arena.now object }
        ensures { IfOk result (λ key. key ≡ spec.new_key mapping.now arena.now
            self.now.changes.now self.now.keys.now object) }
    {
        let table = mapping.root_table(arena.class_of(object));
        let place = self.fresh.place_of(table, object);
        let other = self.changed.place_of(table, object);
        self.key_at(alloc, place, other)
    }

    /// The key of an object, where it is new.
    fn key_if_new(
        &self,
        alloc: Global,
        mapping: &Mapping,
        arena: &Arena,
        prepared: &Prepared,
        object: ObjId,
    ) -> Result<Option<Key>, AllocError>
        requires rows { AreRowKeys self.now }
        requires fit { IsFit mapping.now arena.now }
        requires object { IsObject arena.now object }
        ensures { IfOk result (λ key. key ≡ spec.key_if_new mapping.now arena.now prepared.now
            self.now.changes.now self.now.keys.now object) }
    {
        if !is_new(arena, prepared, object) {
            return Ok(None);
        }
        let key = self.new_key(alloc, mapping, arena, object)?;
        if key_fits(mapping, arena.class_of(object), &key) {
            return Ok(Some(key));
        }
        Ok(None)
    }

    #[tactic(auto, using(class_layouts::proofs::Steps::steps), unfolding(crate::specs::Keys::new_keys))]
    /// The keys of the new objects, each at its object's place.
    fn all(
        &self,
        alloc: Global,
        mapping: &Mapping,
        arena: &Arena,
        prepared: &Prepared,
    ) -> Result<Vec<Option<Key>>, AllocError>
        requires rows { AreRowKeys self.now }
        requires fit { IsFit mapping.now arena.now }
        ensures { IfOk result (λ all. all.items ≡ spec.new_keys mapping.now arena.now
            prepared.now self.now.changes.now self.now.keys.now) }
    {
        let ids = object_ids(alloc, arena)?;
        let mut all = Vec::new(alloc);
        for object in &ids {
            let key = self.key_if_new(alloc, mapping, arena, prepared, *object)?;
            all.push(key)?;
        }
        Ok(all)
    }
}

/// Whether a value is there, of a kind.
fn is_just_of_kind(wanted: Kind, found: Option<Kind>) -> bool
    ensures { result ≡ fit.is_just_of_kind wanted found }
{
    match found {
        Some(found) => same_kind(wanted, found),
        None => false,
    }
}

/// Whether a value is not NULL, and of the kind of an attribute of the key.
fn value_fits(mapping: &Mapping, class: ClassId, attr: AttrNo, value: &Value) -> bool
    requires declared { IsClass mapping.now class }
    requires attr { IsAttribute mapping.now class attr }
    ensures { result ≡ fit.key_value_fits mapping.now class attr value.now }
{
    let wanted = mapping.attributes(class)[attr.0 as usize].kind;
    is_just_of_kind(wanted, kind_of_value(value))
}

#[tactic(auto, using(schema_core::proofs::Steps::pair_steps))]
/// Whether a key has a value of its kind for each attribute of the key of a class.
fn key_fits(mapping: &Mapping, class: ClassId, key: &Key) -> bool
    requires declared { IsClass mapping.now class }
    ensures { result ≡ fit.key_fits mapping.now class key.now }
{
    let attributes = mapping.key_attributes(class);
    let values = key.as_slice();
    for (part, attr) in attributes.iter().enumerate() {
        if part >= values.len() || !value_fits(mapping, class, *attr, &values[part]) {
            return false;
        }
    }
    attributes.len() == values.len()
}

#[tactic(auto, using(crate::proofs::KeySteps::key_steps))]
/// The key of the changed row at a place, or an empty one.
fn changed_key(alloc: Global, rows: &[ChangedRow], place: usize) -> Result<Key, AllocError>
    ensures { IfOk result
        (λ key. key ≡ slice_index_or (map (λ row. row.key) rows.now) place []) }
{
    match rows.get(place) {
        Some(row) => Ok(row.key.copied()?),
        None => Ok(ListOf::new(alloc)),
    }
}

#[tactic(auto, using(crate::proofs::KeySteps::keys_counted))]
/// The keys of the new objects, each at its object's place, where the new rows have these keys in their order.
pub fn new_keys(
    alloc: Global,
    arena: &Arena,
    mapping: &Mapping,
    prepared: &Prepared,
    changes: &RowChanges,
    keys: &ListOf<Key>,
) -> Result<Vec<Option<Key>>, AllocError>
    requires fit { IsFit mapping.now arena.now }
    ensures keys { IfOk result (λ all. all.items ≡ spec.new_keys mapping.now arena.now
        prepared.now changes.now keys.now) }
    ensures long { IfOk result (λ all. length all.items ≡ length arena.now.objects) }
{
    let fresh = fresh_names(alloc, changes.fresh.as_slice())?;
    let changed = changed_names(alloc, changes.changed.as_slice())?;
    let rows = RowKeys {
        changes,
        keys,
        fresh: &fresh,
        changed: &changed,
    };
    rows.all(alloc, mapping, arena, prepared)
}
