//! The order of rows, or a cycle, in time by the number of pairs of which one waits for the other.

ghost use Rattle.std.specs.Prelude.{◌≡◌, ◌<◌, ◌≤◌, ◌++◌, ℕ, true, false, length, slice_index_or, IfOk, IfSome, IfNone, OnOk};
ghost use Rattle.std.specs.List.{All};
ghost use Rattle.row_order.specs.Lists.{AreRows, AreTold, list_at, rows_within, waits_in};
ghost use Rattle.row_order.specs.Places.{order_or_cycle};
ghost use Rattle.row_order.specs.Told.{rows_of, order_result};

use crate::places::{Ordered, Waits, cycle_from, is_among};
use crate::search::{Rows, search_order};
use crate::waiting::waiting_of;
use base_core::ListOf;
use std::alloc::{AllocError, Global};

impl<'a> Waits for Rows<'a> {
    ghost use Rattle.std.specs.Prelude.{◌≤◌, length};
    ghost use Rattle.row_order.specs.Lists.{waits_in};

    ghost size = { λ rows. length rows.lists.now };

    ghost waits = { λ rows. waits_in rows.lists.now };

    ghost holds = { λ rows. length rows.lists.now ≤ 4294967295 };

    fn size(&self) -> u32 {
        self.lists.len() as u32
    }

    fn waits(&self, row: u32, other: u32) -> bool {
        is_among(self.lists[row as usize].as_slice(), other)
    }

    fn lists(&self, alloc: Global) -> Result<Vec<ListOf<u32>>, AllocError> {
        Ok(lists_within(alloc, self.lists)?)
    }
}

/// The first mark that a row is left.
fn first_left(left: &[bool]) -> Option<u32>
    requires { length left.now ≤ 4294967295 }
    ensures left { IfSome result (λ row. slice_index_or left.now row false ≡ true) }
    ensures within { IfSome result (λ row. row < length left.now) }
    ensures before { IfSome result
        (λ row. (other : ℕ) → other < row → slice_index_or left.now other false ≡ false) }
    ensures none { IfNone result ((other : ℕ) → slice_index_or left.now other false ≡ false) }
{
    for (row, is_left) in left.iter().enumerate() {
        if *is_left {
            return Some(row as u32);
        }
    }
    None
}

/// The order of rows of which each lists those for which it waits, or a cycle where rows are left.
pub fn order_of_lists(alloc: Global, lists: &[ListOf<u32>]) -> Result<Ordered, AllocError>
    requires size { length lists.now ≤ 4294967295 }
    requires rows { AreRows lists.now }
    ensures told { IfOk result
        (λ ordered. order_result ordered ≡ order_or_cycle (waits_in lists.now) (length lists.now)) }
    ensures within { IfOk result
        (λ ordered. All (λ row. row < length lists.now) (rows_of ordered)) }
{
    let waiting = waiting_of(alloc, lists)?;
    let rows = Rows {
        lists,
        waiting: waiting.as_slice(),
    };
    let search = search_order(alloc, &rows)?;
    match first_left(search.left.as_slice()) {
        None => Ok(Ordered::Order(ListOf::from_vec(search.placed))),
        Some(row) => {
            let path = cycle_from(alloc, &rows, search.placed.as_slice(), row)?;
            Ok(Ordered::Cycle(ListOf::from_vec(path)))
        }
    }
}

/// Puts the rows of a list behind others, without what is none of so many rows.
fn push_within(out: &mut Vec<u32>, size: usize, rows: &[u32]) -> Result<(), AllocError>
    ensures { OnOk result (out.new.items ≡ out.old.items ++ rows_within size rows.now) }
{
    let Some((row, rows)) = rows.split_first() else {
        return Ok(());
    };
    if (*row as usize) < size {
        out.push(*row)?;
    }
    push_within(out, size, rows)
}

/// A list without what is none of so many rows.
fn list_within(alloc: Global, size: usize, rows: &[u32]) -> Result<ListOf<u32>, AllocError>
    ensures { IfOk result (λ list. list ≡ rows_within size rows.now) }
{
    let mut list = Vec::new(alloc);
    push_within(&mut list, size, rows)?;
    Ok(ListOf::from_vec(list))
}

#[tactic(auto, using(crate::proofs::Pushing::push_steps))]
/// The lists without what is no row.
fn lists_within(alloc: Global, lists: &[ListOf<u32>]) -> Result<Vec<ListOf<u32>>, AllocError>
    ensures { IfOk result (λ within. AreTold
        (λ row. rows_within (length lists.now) (list_at lists.now row))
        (length lists.now) within.items) }
{
    let mut within = Vec::new(alloc);
    for row in 0..lists.len() {
        within.push(list_within(alloc, lists.len(), lists[row].as_slice())?)?;
    }
    Ok(within)
}

/// The order, or a cycle where rows are left.
pub fn order_or_cycle<W: Waits>(alloc: Global, rows: &W) -> Result<Ordered, AllocError>
    requires holds { W.holds rows.now }
    ensures told { IfOk result
        (λ ordered. order_result ordered ≡ order_or_cycle (W.waits rows.now) (W.size rows.now)) }
    ensures within { IfOk result
        (λ ordered. All (λ row. row < W.size rows.now) (rows_of ordered)) }
{
    let lists = rows.lists(alloc)?;
    order_of_lists(alloc, lists.as_slice())
}
