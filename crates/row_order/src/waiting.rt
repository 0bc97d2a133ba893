//! The rows that wait for each row, of rows of which each lists those for which it waits.

ghost use Rattle.std.specs.Prelude.{◌≡◌, ◌<◌, ◌≤◌, ◌+◌, ◌++◌, ◌∷◌, [], ℕ, cond, nat_eq, length, slice_set, IfOk, OnOk};
ghost use Rattle.std.specs.List.{All};
ghost use Rattle.row_order.specs.Lists.{AreBelow, AreMirrored, AreRows, list_at, times};

use base_core::ListOf;
use std::alloc::{AllocError, Global};

/// A row goes to the end of a list.
fn push_at(lists: &mut Vec<ListOf<u32>>, place: u32, row: u32) -> Result<(), AllocError>
    requires { place < length lists.old.items }
    ensures { OnOk result (lists.new.items
        ≡ slice_set lists.old.items place (list_at lists.old.items place ++ row ∷ [])) }
{
    lists[place as usize].push(row)
}

/// A row goes to the end of each of these lists.
fn push_to_all(lists: &mut Vec<ListOf<u32>>, row: u32, places: &[u32]) -> Result<(), AllocError>
    requires { All (λ place. place < length lists.old.items) places.now }
    ensures size { OnOk result (length lists.new.items ≡ length lists.old.items) }
    ensures times { OnOk result ((other place : ℕ) → place < length lists.old.items
        → times other (list_at lists.new.items place)
        ≡ times other (list_at lists.old.items place)
        + cond (nat_eq other row) (times place places.now) 0) }
    ensures below { OnOk result ((bound : ℕ) → row < bound → AreBelow bound lists.old.items
        → AreBelow bound lists.new.items) }
{
    for place in places {
        push_at(lists, *place, row)?;
    }
    Ok(())
}

/// So many empty lists.
fn empty_lists(alloc: Global, size: usize) -> Result<Vec<ListOf<u32>>, AllocError>
    ensures size { IfOk result (λ lists. length lists.items ≡ size) }
    ensures empty { IfOk result (λ lists. (place : ℕ) → list_at lists.items place ≡ []) }
{
    let mut lists = Vec::new(alloc);
    for _place in 0..size {
        lists.push(ListOf::new(alloc))?;
    }
    Ok(lists)
}

/// The rows that wait for each row.
pub fn waiting_of(alloc: Global, lists: &[ListOf<u32>]) -> Result<Vec<ListOf<u32>>, AllocError>
    requires size { length lists.now ≤ 4294967295 }
    requires rows { AreRows lists.now }
    ensures { IfOk result (λ waiting. AreMirrored lists.now waiting.items) }
{
    let mut waiting = empty_lists(alloc, lists.len())?;
    for (row, list) in lists.iter().enumerate() {
        push_to_all(&mut waiting, row as u32, list.as_slice())?;
    }
    Ok(waiting)
}
