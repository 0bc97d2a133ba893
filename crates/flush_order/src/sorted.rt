//! Rows by table and key.

ghost use Rattle.std.specs.Prelude.{◌≡◌, ◌<◌, ◌≤◌, length, IfOk, OnOk};
ghost use Rattle.std.specs.BTreeMap.{insert_entry};
ghost use Rattle.std.specs.List.{All};
ghost use Rattle.std.specs.Map.{values_of};
ghost use Rattle.flush_order.specs.Sorted.{place_cmp, sorted_numbers};

use base_core::{Copied, Key, TableId};
use std::alloc::{AllocError, Global};
use std::collections::BTreeMap;

/// A row's number goes under its table and key.
fn enter(
    entries: &mut BTreeMap<(TableId, Key), u32>,
    place: &(TableId, Key),
    number: u32,
) -> Result<(), AllocError>
    ensures { OnOk result (entries.new.entries
        ≡ insert_entry place_cmp entries.old.entries place.now number) }
{
    let key = place.1.copied()?;
    entries.insert((place.0, key), number)?;
    Ok(())
}

/// The numbers in the order of their tables and keys.
fn numbers_of(alloc: Global, entries: BTreeMap<(TableId, Key), u32>) -> Result<Vec<u32>, AllocError>
    ensures { IfOk result (λ numbers. numbers.items ≡ values_of entries.entries) }
{
    Ok(entries.into_values().collect(alloc)?)
}

#[tactic(auto, using(crate::proofs::Sorting::entered_steps, crate::proofs::Sorting::number_steps), unfolding(crate::specs::Sorted::sorted_numbers))]
/// The numbers of the rows, by table and key.
pub fn sorted_numbers(alloc: Global, places: &[(TableId, Key)]) -> Result<Vec<u32>, AllocError>
    requires { length places.now ≤ 4294967295 }
    ensures numbers { IfOk result (λ numbers. numbers.items ≡ sorted_numbers places.now) }
    ensures within { IfOk result
        (λ numbers. All (λ number. number < length places.now) numbers.items) }
    ensures fewer { IfOk result (λ numbers. length numbers.items ≤ length places.now) }
{
    let mut entries = BTreeMap::new(alloc);
    for (number, place) in places.iter().enumerate() {
        enter(&mut entries, place, number as u32)?;
    }
    numbers_of(alloc, entries)
}
