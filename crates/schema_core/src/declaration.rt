//! What is tested of a declaration before it is taken.

ghost use Rattle.std.specs.Prelude.{◌≡◌, ◌<◌, length, not, IfSome};
ghost use Rattle.std.specs.List.{list_any, position};
ghost use Rattle.schema_core.specs.Catalog.{same_name, same_kind, kind_of, has_name};
ghost use Rattle.schema_core.specs.Declaration.{declaration_fault, repeats_name, some_two, has_column, names_unknown, lists_unknown, has_key, shares_one, some_list};

use crate::{ColumnKind, ColumnSpec, ForeignSpec, TableSpec};
use base_core::{ArgumentKind, Kind, ListOf, Name};

/// The kind of a column's values; varchar and text are one kind.
pub fn kind_of(kind: ColumnKind) -> Kind
    ensures { result ≡ kind_of kind }
{
    match kind {
        ColumnKind::Integer => Kind::Integer,
        ColumnKind::Varchar(_) => Kind::Text,
        ColumnKind::Text => Kind::Text,
        ColumnKind::Boolean => Kind::Boolean,
        ColumnKind::Bytes => Kind::Bytes,
    }
}

/// Whether two kinds are one.
pub fn same_kind(one: Kind, other: Kind) -> bool
    ensures { result ≡ same_kind one other }
{
    one == other
}

/// The place of the table of a name.
pub fn place_of(tables: &[TableSpec], name: &Name) -> Option<usize>
    ensures place { result ≡ position (λ spec. same_name spec.name name.now) tables.now }
    ensures inside { IfSome result (λ place. place < length tables.now) }
{
    tables.iter().position(|spec| spec.name == *name)
}

/// Whether a name is in the list.
pub fn has_name(names: &[Name], name: &Name) -> bool
    ensures { result ≡ has_name names.now name.now }
{
    names.iter().any(|other| *other == *name)
}

#[tactic(auto, using(crate::proofs::SomeTwo::some_two_steps))]
/// Whether a name stands twice.
pub fn repeats(names: &[Name]) -> bool
    ensures { result ≡ some_two same_name names.now }
{
    for (place, name) in names.iter().enumerate() {
        if has_name(&names[place + 1..], name) {
            return true;
        }
    }
    false
}

/// Whether a column has the name.
pub fn has_column(columns: &[ColumnSpec], name: &Name) -> bool
    ensures { result ≡ has_column columns.now name.now }
{
    columns.iter().any(|column| column.name == *name)
}

#[tactic(auto, using(crate::proofs::SomeTwo::some_two_steps))]
/// Whether a column's name stands twice.
pub fn repeats_column(columns: &[ColumnSpec]) -> bool
    ensures { result ≡ some_two (λ one other. same_name one.name other.name) columns.now }
{
    for (place, column) in columns.iter().enumerate() {
        if has_column(&columns[place + 1..], &column.name) {
            return true;
        }
    }
    false
}

/// Whether one list has a name of the other.
pub fn meets(names: &[Name], others: &[Name]) -> bool
    ensures { result ≡ list_any (has_name others.now) names.now }
{
    names.iter().any(|name| has_name(others, name))
}

/// Whether one of the foreign keys shares a column with the other.
pub fn meets_one(foreigns: &[ForeignSpec], other: &ForeignSpec) -> bool
    ensures { result ≡ list_any (λ foreign. shares_one foreign other.now) foreigns.now }
{
    foreigns.iter().any(|foreign| meets(foreign.columns.as_slice(), other.columns.as_slice()))
}

#[tactic(auto, using(crate::proofs::SomeTwo::some_two_steps))]
/// Whether two foreign keys share a column.
pub fn shares(foreigns: &[ForeignSpec]) -> bool
    ensures { result ≡ some_two shares_one foreigns.now }
{
    for (place, foreign) in foreigns.iter().enumerate() {
        if meets_one(&foreigns[place + 1..], foreign) {
            return true;
        }
    }
    false
}

/// Whether a unique constraint lists a column twice.
fn some_unique_repeats(uniques: &[ListOf<Name>]) -> bool
    ensures { result ≡ list_any (some_two same_name) uniques.now }
{
    uniques.iter().any(|names| repeats(names.as_slice()))
}

/// Whether a foreign key lists a column twice.
fn some_foreign_repeats(foreigns: &[ForeignSpec]) -> bool
    ensures { result ≡ list_any (λ foreign. some_two same_name foreign.columns) foreigns.now }
{
    foreigns
        .iter()
        .any(|foreign| repeats(foreign.columns.as_slice()))
}

/// Whether a list names a column twice.
pub fn some_list_repeats(spec: &TableSpec) -> bool
    ensures { result ≡ some_list (some_two same_name) spec.now }
{
    some_unique_repeats(spec.uniques.as_slice()) || some_foreign_repeats(spec.foreigns.as_slice())
}

/// Whether a name is no column.
pub fn misses_column(columns: &[ColumnSpec], names: &[Name]) -> bool
    ensures { result ≡ list_any (λ name. not (has_column columns.now name)) names.now }
{
    names.iter().any(|name| !has_column(columns, name))
}

/// Whether a unique constraint lists what is no column.
fn some_unique_misses(columns: &[ColumnSpec], uniques: &[ListOf<Name>]) -> bool
    ensures { result ≡ list_any (names_unknown columns.now) uniques.now }
{
    uniques
        .iter()
        .any(|names| misses_column(columns, names.as_slice()))
}

/// Whether a foreign key lists what is no column.
fn some_foreign_misses(columns: &[ColumnSpec], foreigns: &[ForeignSpec]) -> bool
    ensures { result ≡ list_any
        (λ foreign. names_unknown columns.now foreign.columns) foreigns.now }
{
    foreigns.iter().any(|foreign| misses_column(columns, foreign.columns.as_slice()))
}

/// Whether a list names what is no column.
pub fn lists_unknown(spec: &TableSpec) -> bool
    ensures { result ≡ lists_unknown spec.now }
{
    let columns = spec.columns.as_slice();
    some_unique_misses(columns, spec.uniques.as_slice())
        || some_foreign_misses(columns, spec.foreigns.as_slice())
}

/// Whether a column is flagged as one of the primary key.
pub fn has_key(spec: &TableSpec) -> bool
    ensures { result ≡ has_key spec.now }
{
    spec.columns.as_slice().iter().any(|column| column.key)
}

/// Whether the table's name is taken, or a name stands twice in it.
pub fn repeats_name(tables: &[TableSpec], spec: &TableSpec) -> bool
    ensures { result ≡ repeats_name tables.now spec.now }
{
    place_of(tables, &spec.name).is_some()
        || repeats_column(spec.columns.as_slice())
        || some_list_repeats(spec)
}

#[tactic(auto, unfolding(crate::specs::Declaration::declaration_fault))]
/// The first fault of a declaration beside the tables declared before it.
pub fn fault_of(tables: &[TableSpec], spec: &TableSpec) -> Option<ArgumentKind>
    ensures { result ≡ declaration_fault tables.now spec.now }
{
    if repeats_name(tables, spec) {
        return Some(ArgumentKind::DuplicateName);
    }
    if lists_unknown(spec) {
        return Some(ArgumentKind::UnknownColumn);
    }
    if !has_key(spec) {
        return Some(ArgumentKind::NoPrimaryKey);
    }
    if shares(spec.foreigns.as_slice()) {
        return Some(ArgumentKind::SharedColumn);
    }
    None
}
