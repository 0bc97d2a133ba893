//! The foreign keys that are written after all rows.

ghost use Rattle.std.specs.Prelude.{◌≡◌, ◌++◌, true, length, IfOk, OnOk};
ghost use Rattle.std.specs.List.{list_any};
ghost use Rattle.object_rows.specs.Late as spec;

use base_core::{ClassId, ListOf, TableId};
use class_layouts::{foreigns_of, number_of};
use class_mapping::{Mapping, Relation};
use std::alloc::{AllocError, Global};

fn some_late_by(relations: &[Relation], table: TableId, number: usize) -> bool
    ensures { result ≡ list_any (spec.is_late_by table number) relations.now }
{
    relations.iter().any(|relation| {
        relation.post_update
            && (relation.foreign.0.0 == table.0 && relation.foreign.1 as usize == number)
    })
}

#[tactic(auto, using(crate::proofs::Steps::range_steps))]
/// Whether a relationship of some class says that a foreign key is written after all rows.
fn is_late(mapping: &Mapping, table: TableId, number: usize) -> bool
    ensures { result ≡ spec.is_late mapping.now table number }
{
    for class in 0..mapping.count() {
        if some_late_by(mapping.relations(ClassId(class)), table, number) {
            return true;
        }
    }
    false
}

#[tactic(auto, using(class_layouts::proofs::Steps::steps))]
/// The foreign keys of a table that are written after all rows go behind others.
fn push_late_in(
    out: &mut ListOf<(TableId, u32)>,
    mapping: &Mapping,
    table: TableId,
) -> Result<(), AllocError>
    ensures { OnOk result (out.new ≡ out.old ++ spec.late_in mapping.now table) }
{
    let foreigns = foreigns_of(mapping.schema(), table);
    for (number, _foreign) in foreigns.iter().enumerate() {
        if is_late(mapping, table, number) {
            out.push((table, number_of(number)?))?;
        }
    }
    Ok(())
}

/// How many tables are declared.
fn table_count(mapping: &Mapping) -> u32
    ensures { result ≡ length mapping.now.schema.tables }
{
    mapping.schema().count()
}

/// The foreign keys that a flush writes after all rows, since a relationship by them says `post_update`: by table and number.
pub fn late_keys(alloc: Global, mapping: &Mapping) -> Result<ListOf<(TableId, u32)>, AllocError>
    ensures { IfOk result (λ keys. keys ≡ spec.late_keys mapping.now) }
{
    let mut keys = ListOf::new(alloc);
    for table in 0..table_count(mapping) {
        push_late_in(&mut keys, mapping, TableId(table))?;
    }
    Ok(keys)
}
