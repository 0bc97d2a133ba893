//! The order of rows of which some wait for others.

ghost use Rattle.std.specs.Prelude.{◌≡◌, ◌<◌, ◌≤◌, ℕ, Bool, length, IfOk};
ghost use Rattle.row_order.specs.Lists.{AreListsOf};
ghost use Rattle.row_order.specs.Places.{cycle_from, from_row, holds_up, is_among, next_blocker, order};

use base_core::ListOf;
use std::alloc::{AllocError, Global};

/// Rows, told by their places, of which some wait for others.
pub trait Waits {
    ghost size: { Self → ℕ };

    ghost waits: { Self → ℕ → ℕ → Bool };

    ghost holds: { Self → Type 0 };

    /// How many rows there are.
    fn size(&self) -> u32
        requires { holds self.now }
        ensures { result ≡ size self.now };

    /// Whether a row waits for another.
    fn waits(&self, row: u32, other: u32) -> bool
        requires holds { holds self.now }
        requires row { row < size self.now }
        requires other { other < size self.now }
        ensures { result ≡ waits self.now row other };

    /// For each row those for which it waits.
    fn lists(&self, alloc: Global) -> Result<Vec<ListOf<u32>>, AllocError>
        requires { holds self.now }
        ensures lists { IfOk result
            (λ lists. AreListsOf (waits self.now) (size self.now) lists.items) }
        ensures fewer { IfOk result (λ lists. length lists.items ≤ 4294967295) };
}

/// Whether the row is one of these.
pub(crate) fn is_among(placed: &[u32], row: u32) -> bool
    ensures { result ≡ is_among placed.now row }
{
    placed.iter().any(|other| row == *other)
}

/// Whether a row waits for this one, which is left.
fn holds_up<W: Waits>(rows: &W, placed: &[u32], row: u32, other: u32) -> bool
    requires holds { W.holds rows.now }
    requires row { row < W.size rows.now }
    requires other { other < W.size rows.now }
    ensures { result ≡ holds_up (W.waits rows.now) placed.now row other }
{
    !is_among(placed, other) && rows.waits(row, other)
}

#[tactic(auto, using(crate::proofs::Ranges::find_steps), unfolding(crate::specs::Places::next_blocker))]
/// The least row left for which a row waits.
fn next_blocker<W: Waits>(rows: &W, placed: &[u32], row: u32) -> u32
    requires holds { W.holds rows.now }
    requires row { row < W.size rows.now }
    ensures blocker { result ≡ next_blocker (W.waits rows.now) (W.size rows.now) placed.now row }
    ensures within { result < W.size rows.now }
{
    for other in 0..rows.size() {
        if holds_up(rows, placed, row, other) {
            return other;
        }
    }
    row
}

#[tactic(auto, using(crate::proofs::Ranges::from_steps))]
/// The list from this row on.
fn from_row(alloc: Global, row: u32, path: &[u32]) -> Result<Vec<u32>, AllocError>
    ensures { IfOk result (λ rows. rows.items ≡ from_row row path.now) }
{
    for (place, first) in path.iter().enumerate() {
        if row == *first {
            return Ok(path[place..].to_vec(alloc)?);
        }
    }
    Ok(Vec::new(alloc))
}

#[tactic(auto, using(crate::proofs::Ranges::trail_steps), unfolding(crate::specs::Places::cycle_from))]
/// From a row that is left, each time to the least for which it waits, until a row repeats: the rows from that row's first
/// place on.
pub(crate) fn cycle_from<W: Waits>(
    alloc: Global,
    rows: &W,
    placed: &[u32],
    least: u32,
) -> Result<Vec<u32>, AllocError>
    requires ordered { placed.now ≡ order (W.waits rows.now) (W.size rows.now) }
    requires holds { W.holds rows.now }
    requires least { least < W.size rows.now }
    ensures { IfOk result
        (λ path. path.items ≡ cycle_from (W.waits rows.now) (W.size rows.now) least) }
{
    let mut path = Vec::new(alloc);
    let mut row = least;
    for _step in 0..=rows.size() {
        if is_among(path.as_slice(), row) {
            return from_row(alloc, row, path.as_slice());
        }
        path.push(row)?;
        row = next_blocker(rows, placed, row);
    }
    Ok(path)
}

/// The order of rows, or a cycle of rows that are left.
#[derive(Drop)]
pub enum Ordered {
    Order(ListOf<u32>),
    Cycle(ListOf<u32>),
}
