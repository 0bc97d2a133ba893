//! Whether a change of a link changes the key of its object.

ghost use Rattle.std.specs.Prelude.{◌≡◌, is_some, filter};
ghost use Rattle.std.specs.List.{list_all, list_any, position, zip};
ghost use Rattle.object_arena.specs.Graph.{IsObject, is_persistent};
ghost use Rattle.relations.specs.Keys as spec;

use crate::OldParent;
use base_core::{Key, Name, ObjId, Value, compare};
use class_layouts::columns_of;
use class_mapping::{Mapping, Relation};
use class_sides::names_of;
use object_arena::{Arena, State};
use schema_core::ColumnSpec;
use std::cmp::Ordering;

/// Whether a link over key columns of a persistent object would be set to an object that is no known old parent, and whose
/// key does not give these columns the values that they have.
pub(crate) fn changes_key(
    arena: &Arena,
    mapping: &Mapping,
    child: ObjId,
    relation: &Relation,
    old: OldParent,
    parent: Option<ObjId>,
) -> bool
    requires child { IsObject arena.now child }
    requires parent { spec.IsEnd arena.now parent }
    ensures { result ≡ spec.changes_key arena.now mapping.now child relation.now old parent }
{
    match parent {
        None => false,
        Some(end) => {
            is_persistent(arena.state_of(child))
                && !old.is_known_as(Some(end))
                && loses_key(arena, mapping, child, relation, end)
        }
    }
}

/// Whether a link is over key columns, to which a parent's key does not give the values that they have.
fn loses_key(
    arena: &Arena,
    mapping: &Mapping,
    child: ObjId,
    relation: &Relation,
    parent: ObjId,
) -> bool
    requires child { IsObject arena.now child }
    requires parent { IsObject arena.now parent }
    ensures { result ≡ spec.loses_key arena.now mapping.now child relation.now parent }
{
    let columns = columns_of(mapping.schema(), relation.foreign.0);
    let names = names_of(mapping.schema(), relation.foreign);
    is_over_key(columns, names)
        && !keeps_key(
            columns,
            names,
            &arena.object(child).identity,
            &arena.object(parent).identity,
        )
}

fn is_persistent(state: State) -> bool
    ensures { result ≡ is_persistent state }
{
    match state {
        State::Persistent => true,
        State::Transient | State::Pending | State::Deleted | State::Detached => false,
    }
}

/// Whether one of the columns is a column of the key.
fn is_over_key(columns: &[ColumnSpec], names: &[Name]) -> bool
    ensures { result ≡ spec.is_over_key columns.now names.now }
{
    let Some((name, names)) = names.split_first() else {
        return false;
    };
    key_place(columns, name).is_some() || is_over_key(columns, names)
}

/// The place of a column in its table's key, if it is a column of the key.
fn key_place(columns: &[ColumnSpec], name: &Name) -> Option<usize>
    ensures { result ≡ spec.key_place columns.now name.now }
{
    columns
        .iter()
        .filter(|column| column.key)
        .position(|column| column.name == *name)
}

fn keeps_key(
    columns: &[ColumnSpec],
    names: &[Name],
    own: &Option<Key>,
    parents: &Option<Key>,
) -> bool
    ensures { result ≡ spec.keeps_key columns.now names.now own.now parents.now }
{
    match (own, parents) {
        (Some(own), Some(parents)) => {
            gives_key(columns, names, own.as_slice(), parents.as_slice())
        }
        _ => false,
    }
}

/// Whether the parent's key gives the columns that are columns of the key the values that the own key has.
fn gives_key(columns: &[ColumnSpec], names: &[Name], own: &[Value], parents: &[Value]) -> bool
    ensures { result ≡ spec.gives_key columns.now names.now own.now parents.now }
{
    let (Some((name, names)), Some((value, parents))) = (names.split_first(), parents.split_first())
    else {
        return true;
    };
    is_value_at(own, key_place(columns, name), value) && gives_key(columns, names, own, parents)
}

fn is_value_at(own: &[Value], place: Option<usize>, value: &Value) -> bool
    ensures { result ≡ spec.is_value_at own.now place value.now }
{
    match place {
        None => true,
        Some(place) => match own.get(place) {
            Some(own) => compare(own, value) == Ordering::Equal,
            None => false,
        },
    }
}
