//! The order of rows of which each lists those for which it waits, found in time by the lengths of the lists.

ghost use Rattle.std.specs.Prelude.{◌≡◌, ◌<◌, ◌≤◌, ◌+◌, ◌-◌, ◌++◌, ◌∷◌, ◌&&◌, ◌||◌, [], ℕ, cond, not, true, false, nat_eq, nat_lt, map, length, replicate, slice_index, slice_index_or, slice_set, IfOk, IfSome, IfNone, OnOk};
ghost use Rattle.std.specs.List.{All};
ghost use Rattle.std.specs.Option.{option_to_list};
ghost use Rattle.std.specs.Ordering.{nat_cmp};
ghost use Rattle.std.specs.BTreeSet.{contains};
ghost use Rattle.row_order.specs.Places.{next_place, order};
ghost use Rattle.row_order.specs.Lists.{AreMirrored, AreRows, Stands, list_at, waits_in, times};

use base_core::ListOf;
use std::alloc::{AllocError, Global};
use std::collections::BTreeSet;

/// For each row the rows for which it waits, and those that wait for it.
#[derive(Drop)]
pub struct Rows<'a> {
    pub lists: &'a [ListOf<u32>],
    pub waiting: &'a [ListOf<u32>],
}

/// A row waits for one less, and is ready where that was the last.
fn release(counts: &mut Vec<usize>, ready: &mut BTreeSet<u32>, row: u32) -> Result<(), AllocError>
    requires within { row < length counts.old.items }
    requires some { 0 < slice_index counts.old.items row }
    ensures counts { OnOk result (counts.new.items
        ≡ slice_set counts.old.items row (slice_index counts.old.items row - 1)) }
    ensures ready { OnOk result ((other : ℕ) → contains nat_cmp ready.new other
        ≡ (contains nat_cmp ready.old other
        || (nat_eq row other && nat_eq (slice_index counts.old.items row) 1))) }
{
    let count = counts[row as usize];
    counts[row as usize] = count - 1;
    if count == 1 {
        ready.insert(row)?;
    }
    Ok(())
}

/// Each of the rows waits for one less, as often as it stands there, and is ready where that was the last.
fn release_all(
    counts: &mut Vec<usize>,
    ready: &mut BTreeSet<u32>,
    rows: &[u32],
) -> Result<(), AllocError>
    requires within { All (λ row. row < length counts.old.items) rows.now }
    requires enough { (row : ℕ) → times row rows.now ≤ slice_index counts.old.items row }
    ensures size { OnOk result (length counts.new.items ≡ length counts.old.items) }
    ensures counts { OnOk result ((row : ℕ) → slice_index counts.new.items row
        + times row rows.now ≡ slice_index counts.old.items row) }
    ensures ready { OnOk result ((row : ℕ) → contains nat_cmp ready.new row
        ≡ (contains nat_cmp ready.old row
        || (nat_lt 0 (times row rows.now) && nat_eq (slice_index counts.new.items row) 0))) }
{
    for row in rows {
        release(counts, ready, *row)?;
    }
    Ok(())
}

/// The least row that is ready is taken out.
fn take_first(ready: &mut BTreeSet<u32>) -> Option<u32>
    ensures here { IfSome result (λ row. contains nat_cmp ready.old row ≡ true) }
    ensures first { IfSome result
        (λ row. (other : ℕ) → other < row → contains nat_cmp ready.old other ≡ false) }
    ensures others { IfSome result (λ row. (other : ℕ) → contains nat_cmp ready.new other
        ≡ cond (nat_eq row other) false (contains nat_cmp ready.old other)) }
    ensures none { IfNone result ((other : ℕ) → contains nat_cmp ready.old other ≡ false) }
    ensures stays { IfNone result ((other : ℕ) → contains nat_cmp ready.new other ≡ false) }
{
    ready.pop_first()
}

/// How a search stands: the rows that are placed, for how many each row still waits, which are left, and which are ready.
#[derive(Drop)]
pub(crate) struct Search {
    pub(crate) placed: Vec<u32>,
    counts: Vec<usize>,
    pub(crate) left: Vec<bool>,
    ready: BTreeSet<u32>,
}

/// The least row that is ready is placed, if there is one, and those that wait for it wait for one less.
fn place_next(search: &mut Search, rows: &Rows) -> Result<(), AllocError>
    requires rows { AreRows rows.now.lists.now }
    requires mirrored { AreMirrored rows.now.lists.now rows.now.waiting.now }
    requires stands { Stands rows.now.lists.now search.old.placed.items search.old.counts.items
        search.old.left.items search.old.ready }
    ensures stands { OnOk result (Stands rows.now.lists.now search.new.placed.items
        search.new.counts.items search.new.left.items search.new.ready) }
    ensures placed { OnOk result (search.new.placed.items ≡ search.old.placed.items
        ++ option_to_list (next_place (waits_in rows.now.lists.now) (length rows.now.lists.now)
        search.old.placed.items)) }
{
    match take_first(&mut search.ready) {
        None => Ok(()),
        Some(row) => {
            search.placed.push(row)?;
            search.left[row as usize] = false;
            let waiting = rows.waiting[row as usize].as_slice();
            release_all(&mut search.counts, &mut search.ready, waiting)?;
            Ok(())
        }
    }
}

/// The lengths of lists.
fn lengths(alloc: Global, lists: &[ListOf<u32>]) -> Result<Vec<usize>, AllocError>
    ensures { IfOk result (λ counts. counts.items ≡ map length lists.now) }
{
    let mut counts = Vec::new(alloc);
    for list in lists {
        counts.push(list.len())?;
    }
    Ok(counts)
}

/// So many marks that a row is left.
fn all_left(alloc: Global, size: usize) -> Result<Vec<bool>, AllocError>
    ensures { IfOk result (λ left. left.items ≡ replicate size true) }
{
    let mut left = Vec::new(alloc);
    for _row in 0..size {
        left.push(true)?;
    }
    Ok(left)
}

/// The rows whose lists are empty.
fn first_ready(alloc: Global, lists: &[ListOf<u32>]) -> Result<BTreeSet<u32>, AllocError>
    requires { length lists.now ≤ 4294967295 }
    ensures { IfOk result (λ ready. (other : ℕ) → contains nat_cmp ready other
        ≡ (nat_lt other (length lists.now) && nat_eq (length (list_at lists.now other)) 0)) }
{
    let mut ready = BTreeSet::new(alloc);
    for (row, list) in lists.iter().enumerate() {
        enter(&mut ready, row as u32, list.len())?;
    }
    Ok(ready)
}

/// A row that waits for none is ready.
fn enter(ready: &mut BTreeSet<u32>, row: u32, count: usize) -> Result<(), AllocError>
    ensures { OnOk result ((other : ℕ) → contains nat_cmp ready.new other
        ≡ (contains nat_cmp ready.old other || (nat_eq row other && nat_eq count 0))) }
{
    if count == 0 {
        ready.insert(row)?;
    }
    Ok(())
}

/// No row is placed yet.
fn start(alloc: Global, lists: &[ListOf<u32>]) -> Result<Search, AllocError>
    requires { length lists.now ≤ 4294967295 }
    ensures placed { IfOk result (λ search. search.placed.items ≡ []) }
    ensures stands { IfOk result (λ search. Stands lists.now search.placed.items
        search.counts.items search.left.items search.ready) }
{
    let counts = lengths(alloc, lists)?;
    let left = all_left(alloc, lists.len())?;
    let ready = first_ready(alloc, lists)?;
    let placed = Vec::new(alloc);
    Ok(Search {
        placed,
        counts,
        left,
        ready,
    })
}

/// As many rows as can be are placed, each time the least one that is ready.
pub(crate) fn search_order(alloc: Global, rows: &Rows) -> Result<Search, AllocError>
    requires size { length rows.now.lists.now ≤ 4294967295 }
    requires rows { AreRows rows.now.lists.now }
    requires mirrored { AreMirrored rows.now.lists.now rows.now.waiting.now }
    ensures stands { IfOk result (λ search. Stands rows.now.lists.now search.placed.items
        search.counts.items search.left.items search.ready) }
    ensures order { IfOk result (λ search. search.placed.items
        ≡ order (waits_in rows.now.lists.now) (length rows.now.lists.now)) }
{
    let mut search = start(alloc, rows.lists)?;
    for _row in 0..rows.lists.len() {
        place_next(&mut search, rows)?;
    }
    Ok(search)
}
