//! Root classes over a table, without a discriminator and without lines.

ghost use Rattle.std.specs.Prelude.{◌≡◌};
ghost use Rattle.std.specs.List.{list_all};
ghost use Rattle.schema_core.specs.Declaration.{has_column};
ghost use Rattle.class_blocks.specs.Plain.{early_fault, is_plain_root, plain_fault, repeats_column, repeats_in};

use crate::blocks::{is_declared, maps_name};
use crate::tables::{columns_of, named_table};
use base_core::{ArgumentKind, Name, TableId};
use class_types::ClassSpec;
use schema_core::{ColumnSpec, Schema};

/// Whether the declaration is a root class over a table, without a discriminator and without lines.
pub fn is_plain_root(spec: &ClassSpec) -> bool
    ensures { result ≡ is_plain_root spec.now }
{
    spec.base.is_none()
        && spec.table.is_some()
        && spec.discriminator.is_none()
        && spec.identity.is_none()
        && spec.owned.is_empty()
        && spec.relations.is_empty()
        && spec.validators.is_empty()
}

/// Whether each class is such a one.
fn are_plain(specs: &[ClassSpec]) -> bool
    ensures { result ≡ list_all is_plain_root specs.now }
{
    specs.iter().all(is_plain_root)
}

/// Whether a column has the name.
fn has_column(columns: &[ColumnSpec], name: &Name) -> bool
    ensures { result ≡ has_column columns.now name.now }
{
    columns.iter().any(|column| column.name == *name)
}

#[tactic(auto, using(schema_core::proofs::SomeTwo::some_two_steps))]
/// Whether two of the columns have one name.
fn repeats_column(columns: &[ColumnSpec]) -> bool
    ensures { result ≡ repeats_column columns.now }
{
    for (place, column) in columns.iter().enumerate() {
        if has_column(&columns[place + 1..], &column.name) {
            return true;
        }
    }
    false
}

/// Whether two columns of a table that was found have one name.
fn repeats_in(schema: &Schema, table: Option<TableId>) -> bool
    ensures { result ≡ repeats_in schema.now.tables table }
{
    match table {
        Some(table) => repeats_column(columns_of(schema, table)),
        None => false,
    }
}

#[tactic(auto, unfolding(crate::specs::Plain::plain_fault))]
/// Why such a class is not taken beside other such classes.
fn plain_fault(schema: &Schema, specs: &[ClassSpec], spec: &ClassSpec) -> Option<ArgumentKind>
    ensures { result ≡ plain_fault schema.now.tables specs.now spec.now }
{
    let table = named_table(schema, &spec.table);
    if is_declared(specs, &spec.name) || repeats_in(schema, table) {
        return Some(ArgumentKind::DuplicateName);
    }
    if table.is_none() || maps_name(specs, &spec.table) {
        return Some(ArgumentKind::BadClass);
    }
    None
}

#[tactic(auto, unfolding(crate::specs::Plain::early_fault))]
/// What is told before memory is taken: the fault of such a class beside other such classes.
pub fn early_fault(schema: &Schema, specs: &[ClassSpec], spec: &ClassSpec) -> Option<ArgumentKind>
    ensures { result ≡ early_fault schema.now.tables specs.now spec.now }
{
    if are_plain(specs) && is_plain_root(spec) {
        return plain_fault(schema, specs, spec);
    }
    None
}
