//! The values of a row, part by part.

ghost use Rattle.std.specs.Prelude.{◌≡◌, true, drop, not, take, IfOk};
ghost use Rattle.std.specs.List.{list_all};
ghost use Rattle.schema_core.specs.Tables.{is_null};
ghost use Rattle.class_mapping.specs.Mapped.{IsClass};
ghost use Rattle.joined_rows.specs.Parts.{own_values, values_from};
ghost use Rattle.joined_rows.specs.Taking as spec;

use crate::Part;
use base_core::{ClassId, Value};
use class_mapping::Mapping;
use load_filling::row_key;
use std::alloc::{AllocError, Global};

/// The values from a place on.
#[tactic(auto, using(std::proofs::lemmas::List::drop_min))]
fn from_place(values: &[Value], place: u32) -> &[Value]
    ensures { result.now ≡ drop place values.now }
{
    &values[(place as usize).min(values.len())..]
}

/// The first values.
#[tactic(auto, using(std::proofs::lemmas::List::take_min))]
fn up_to(values: &[Value], count: usize) -> &[Value]
    ensures { result.now ≡ take count values.now }
{
    &values[..count.min(values.len())]
}

/// What a row has of its class.
pub(crate) fn own_values<'a>(mapping: &Mapping, class: ClassId, row: &'a [Value]) -> &'a [Value]
    requires class { IsClass mapping.now class }
    ensures { result.now ≡ own_values mapping.now class row.now }
{
    up_to(row, mapping.attributes(class).len())
}

/// What a row has from a part on.
pub(crate) fn values_from(part: Part, row: &[Value]) -> &[Value]
    ensures { result.now ≡ values_from part row.now }
{
    from_place(row, part.first)
}

/// What a row has of the keys of an option's further tables.
fn further_keys(part: Part, row: &[Value]) -> &[Value]
    ensures { result.now ≡ spec.further_keys part row.now }
{
    let keys = from_place(row, part.keys);
    up_to(keys, part.end.saturating_sub(part.keys) as usize)
}

fn is_null(value: &Value) -> bool
    ensures { result ≡ is_null value.now }
{
    match value {
        Value::Null => true,
        _ => false,
    }
}

/// Whether none of the values is NULL.
fn are_given(values: &[Value]) -> bool
    ensures { result ≡ spec.are_given values.now }
{
    values.iter().all(|value| !is_null(value))
}

/// Whether a row has an option's target.
pub(crate) fn has_target(
    alloc: Global,
    mapping: &Mapping,
    part: Part,
    row: &[Value],
) -> Result<bool, AllocError>
    requires target { IsClass mapping.now part.target }
    ensures { IfOk result (λ has. has ≡ spec.has_target mapping.now part row.now) }
{
    let key = row_key(alloc, mapping, part.target, values_from(part, row))?;
    Ok(are_given(key.as_slice()) && are_given(further_keys(part, row)))
}
