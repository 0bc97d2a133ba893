//! Rows, one after another.

ghost use Rattle.std.specs.Prelude.{◌≡◌, [], ◌∷◌, map, IfOk, MatchOption};
ghost use Rattle.std.specs.Slice.Iter.{iter_rest};
ghost use Rattle.table_rows.specs.Rows.{rows_present};
ghost use Rattle.table_rows.specs.Walks.{entries_left, rows_left};

use base_core::{Copied, Key, RowValues};
use std::alloc::{AllocError, Global};
use std::collections::{VecDeque, btree_map};
use std::slice;

/// Rows with their keys, one after another: of a list, or in the places of a table, of which those that stand empty are
/// passed over.
#[derive(Drop)]
pub enum EntryWalk<'a> {
    Listed(slice::Iter<'a, (Key, RowValues)>),
    Held(btree_map::Iter<'a, Key, Option<RowValues>>),
}

/// Rows, one after another: of a list, of those that were found, or in the places of a table, of which those that stand empty
/// are passed over.
#[derive(Drop)]
pub enum RowWalk<'a> {
    Listed(slice::Iter<'a, RowValues>),
    Found(VecDeque<&'a RowValues>),
    Held(btree_map::Iter<'a, Key, Option<RowValues>>),
}

fn next_listed<'a>(
    entries: &mut slice::Iter<'a, (Key, RowValues)>,
) -> Option<(&'a Key, &'a RowValues)>
    ensures { MatchOption result (iter_rest entries.old ≡ [])
        (λ entry. iter_rest entries.old ≡ (entry.0.now, entry.1.now) ∷ iter_rest entries.new) }
{
    match entries.next() {
        Some(entry) => Some((&entry.0, &entry.1)),
        None => None,
    }
}

fn next_found<'a>(rows: &mut VecDeque<&'a RowValues>) -> Option<&'a RowValues>
    ensures { MatchOption result (map (λ row. row.now) rows.old.items ≡ [])
        (λ row. map (λ row. row.now) rows.old.items ≡ row.now ∷ map (λ row. row.now) rows.new.items) }
{
    rows.pop_front()
}

/// The next place in which a row stands.
fn next_held<'a>(
    places: &mut btree_map::Iter<'a, Key, Option<RowValues>>,
) -> Option<(&'a Key, &'a RowValues)>
    ensures { MatchOption result (rows_present places.old ≡ [])
        (λ entry. rows_present places.old ≡ (entry.0.now, entry.1.now) ∷ rows_present places.new) }
{
    while let Some((key, place)) = places.next() {
        if let Some(row) = place {
            return Some((key, row));
        }
    }
    None
}

impl<'a> EntryWalk<'a> {
    /// The next row with its key, if there is one.
    pub fn next_entry(&mut self) -> Option<(&'a Key, &'a RowValues)>
        ensures { MatchOption result (entries_left self.old ≡ [])
            (λ entry. entries_left self.old ≡ (entry.0.now, entry.1.now) ∷ entries_left self.new) }
    {
        match self {
            EntryWalk::Listed(entries) => next_listed(entries),
            EntryWalk::Held(places) => next_held(places),
        }
    }
}

impl<'a> RowWalk<'a> {
    /// The next row, if there is one.
    pub fn next_row(&mut self) -> Option<&'a RowValues>
        ensures { MatchOption result (rows_left self.old ≡ [])
            (λ row. rows_left self.old ≡ row.now ∷ rows_left self.new) }
    {
        match self {
            RowWalk::Listed(rows) => rows.next(),
            RowWalk::Found(rows) => next_found(rows),
            RowWalk::Held(places) => match next_held(places) {
                Some((_, row)) => Some(row),
                None => None,
            },
        }
    }
}

/// Copies of the rows that are to come.
pub fn copies(alloc: Global, rows: RowWalk<'_>) -> Result<Vec<RowValues>, AllocError>
    ensures { IfOk result (λ all. all.items ≡ rows_left rows.entry) }
{
    let mut left = rows;
    let mut all = Vec::new(alloc);
    while let Some(row) = left.next_row() {
        all.push(row.copied()?)?;
    }
    Ok(all)
}
