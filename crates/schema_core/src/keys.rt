//! What a declaration says of the primary key, and of the keys that refer to it.

ghost use Rattle.std.specs.Prelude.{◌≡◌, ◌&&◌};
ghost use Rattle.std.specs.List.{list_any, list_all, count_by};
ghost use Rattle.schema_core.specs.Catalog.{has_name, is_free_integer, has_generated_key};
ghost use Rattle.schema_core.specs.Declaration.{has_kind, fits_key, has_target, has_targets};

use crate::declaration::{has_name, kind_of, place_of, same_kind};
use crate::{ColumnSpec, ForeignSpec, TableSpec};
use base_core::{Kind, Name};

/// Whether a foreign key has the column.
fn some_foreign_has(foreigns: &[ForeignSpec], name: &Name) -> bool
    ensures { result ≡ list_any (λ foreign. has_name foreign.columns name.now) foreigns.now }
{
    foreigns
        .iter()
        .any(|foreign| has_name(foreign.columns.as_slice(), name))
}

/// Whether the column is an integer in no foreign key.
fn is_free_integer(foreigns: &[ForeignSpec], column: &ColumnSpec) -> bool
    ensures { result ≡ is_free_integer foreigns.now column.now }
{
    same_kind(kind_of(column.kind), Kind::Integer) && !some_foreign_has(foreigns, &column.name)
}

/// How many columns the primary key has.
fn count_keys(columns: &[ColumnSpec]) -> usize
    ensures { result ≡ count_by (λ column. column.key) columns.now }
{
    columns.iter().filter(|column| column.key).count()
}

/// Whether a column of the key is an integer in no foreign key.
fn some_free_key(foreigns: &[ForeignSpec], columns: &[ColumnSpec]) -> bool
    ensures { result ≡ list_any
        (λ column. column.key && is_free_integer foreigns.now column) columns.now }
{
    columns
        .iter()
        .any(|column| column.key && is_free_integer(foreigns, column))
}

/// Whether the table's keys are generated.
pub fn has_generated_key(spec: &TableSpec) -> bool
    ensures { result ≡ has_generated_key spec.now }
{
    count_keys(spec.columns.as_slice()) == 1
        && some_free_key(spec.foreigns.as_slice(), spec.columns.as_slice())
}

/// Whether the column of a name has the kind of another column.
fn has_kind(columns: &[ColumnSpec], name: &Name, other: &ColumnSpec) -> bool
    ensures { result ≡ has_kind columns.now name.now other.now }
{
    columns.iter().any(|column| {
        column.name == *name && same_kind(kind_of(column.kind), kind_of(other.kind))
    })
}

#[tactic(auto, using(crate::proofs::Steps::key_steps))]
/// Whether the columns of these names have the kinds of the other table's key, one by one.
fn fits_key(columns: &[ColumnSpec], names: &[Name], target: &TableSpec) -> bool
    ensures { result ≡ fits_key columns.now names.now target.now }
{
    let mut place = 0;
    for column in target.columns.as_slice() {
        if column.key {
            if place >= names.len() || !has_kind(columns, &names[place], column) {
                return false;
            }
            place += 1;
        }
    }
    place == names.len()
}

/// Whether a foreign key has its target.
fn has_target(tables: &[TableSpec], spec: &TableSpec, foreign: &ForeignSpec) -> bool
    ensures { result ≡ has_target tables.now spec.now foreign.now }
{
    match place_of(tables, &foreign.target) {
        Some(place) => fits_key(
            spec.columns.as_slice(),
            foreign.columns.as_slice(),
            &tables[place],
        ),
        None => false,
    }
}

/// Whether each foreign key of a table has its target.
fn has_all_targets(tables: &[TableSpec], spec: &TableSpec) -> bool
    ensures { result ≡ list_all (has_target tables.now spec.now) spec.now.foreigns }
{
    spec.foreigns
        .as_slice()
        .iter()
        .all(|foreign| has_target(tables, spec, foreign))
}

/// Whether every foreign key has its target.
pub fn has_targets(tables: &[TableSpec]) -> bool
    ensures { result ≡ has_targets tables.now }
{
    tables.iter().all(|spec| has_all_targets(tables, spec))
}
