//! The rows of one table.

ghost use Rattle.std.specs.Prelude.{◌≡◌, ◌+ℤ◌, pos, true, if◌then◌else◌, map, [], IfOk, IfSome, OnOk, OnErr};
ghost use Rattle.std.specs.Option.{option_copied};
ghost use Rattle.std.specs.Ordering.{int_eq};
ghost use Rattle.std.specs.Map.{keys_of};
ghost use Rattle.std.specs.List.Sorted.{IsStrictlySortedBy};
ghost use Rattle.base_core.specs.Order.{values_cmp};
ghost use Rattle.schema_core.specs.Apply.{key_after, next_key};
ghost use Rattle.schema_core.specs.Tables.{Rows, row_under, with_row, without_row};
ghost use Rattle.table_rows.specs.Rows.{KeepsPlaces, is_bound, is_placed, is_within, last_key, rows_present, with_former_row};

use base_core::{Copied, Key, ListOf, RowList, RowValues, Value};
use std::alloc::{AllocError, Global};
use std::collections::BTreeMap;
use std::collections::btree_map::Range;
use std::marker::Model;
use std::mem;

/// The rows of one table, by key. A row that is taken out keeps its place, which stands empty until it is swept.
#[derive(Drop)]
pub struct TableRows {
    rows: BTreeMap<Key, Option<RowValues>>,
    /// A key that no row's key is above, so that empty places above it are not gone through for the greatest one; none where
    /// there was no memory for its copy.
    bound: Option<Key>,
}

impl Model for TableRows {
    ghost use Rattle.std.specs.Map.{keys_of};
    ghost use Rattle.std.specs.List.Sorted.{IsStrictlySortedBy};
    ghost use Rattle.base_core.specs.Order.{values_cmp};
    ghost use Rattle.std.specs.Prelude.{◌≡◌, true};
    ghost use Rattle.table_rows.specs.Rows.{Places, is_bound, rows_present};

    ghost Value = { Places };

    ghost view = { λ t. t.rows.entries };

    ghost invariant = { λ t. IsStrictlySortedBy values_cmp (keys_of t.rows.entries) × (is_bound t.bound (rows_present t.rows.entries) ≡ true) };
}

#[tactic(auto, using(crate::proofs::Bounds::lasting))]
/// The last key of these places at which a row stands, if there is one.
fn last_full<'a>(range: Range<'a, Key, Option<RowValues>>) -> Option<&'a Key>
    ensures { option_copied result ≡ last_key (rows_present range.entry) }
{
    let mut places = range;
    while let Some((key, place)) = places.next_back() {
        if place.is_some() {
            return Some(key);
        }
    }
    None
}

/// The key of the last row, if there is a row; no row's key is above the bound.
fn last_within<'a>(
    rows: &'a BTreeMap<Key, Option<RowValues>>,
    bound: &Option<Key>,
) -> Option<&'a Key>
    requires { is_bound bound.now (rows_present rows.now.entries) ≡ true }
    ensures { option_copied result ≡ last_key (rows_present rows.now.entries) }
{
    match bound {
        Some(bound) => last_full(rows.range(..=bound)),
        None => last_full(rows.range(..)),
    }
}

/// Whether a key is not above the bound.
fn is_within(bound: &Option<Key>, key: &Key) -> bool
    ensures { result ≡ is_within bound.now key.now }
{
    match bound {
        Some(bound) => !bound.cmp(key).is_lt(),
        None => true,
    }
}

/// A copy of a key, if there is memory for it.
fn copy_of(key: &Key) -> Option<Key>
    ensures { IfSome result (λ copy. copy ≡ key.now) }
{
    match key.copied() {
        Ok(copy) => Some(copy),
        Err(_) => None,
    }
}

#[tactic(auto, using(crate::proofs::Bounds::raising))]
/// Makes the bound one of a key too.
fn raise(bound: &mut Option<Key>, key: &Key)
    ensures key { is_within bound.new key.now ≡ true }
    ensures rows { (rows : Rows) → is_bound bound.old rows ≡ true → is_bound bound.new rows ≡ true }
{
    if is_within(bound, key) {
        return;
    }
    *bound = copy_of(key);
}

/// Whether a row stands at the bound.
fn has_bound(rows: &BTreeMap<Key, Option<RowValues>>, bound: &Option<Key>) -> bool {
    match bound {
        Some(bound) => matches!(rows.get(bound), Some(Some(_))),
        None => false,
    }
}

/// Makes the last row's key the bound, where no row stands at the bound.
fn lower(rows: &BTreeMap<Key, Option<RowValues>>, bound: &mut Option<Key>)
    requires bound { is_bound bound.old (rows_present rows.now.entries) ≡ true }
    requires sorted { IsStrictlySortedBy values_cmp (keys_of rows.now.entries) }
    ensures { is_bound bound.new (rows_present rows.now.entries) ≡ true }
{
    if has_bound(rows, bound) {
        return;
    }
    let Some(last) = last_within(rows, bound) else {
        return;
    };
    *bound = copy_of(last);
}

impl TableRows {
    /// No rows.
    pub fn new(alloc: Global) -> TableRows
        ensures { result ≡ [] }
    {
        TableRows {
            rows: BTreeMap::new(alloc),
            bound: Some(ListOf::new(alloc)),
        }
    }

    #[tactic(auto, using(crate::proofs::Standing::standing))]
    /// The row of a key.
    pub fn get(&self, key: &Key) -> Option<&RowValues>
        ensures { option_copied result ≡ row_under (rows_present self.now) key.now }
    {
        match self.rows.get(key) {
            Some(Some(row)) => Some(row),
            _ => None,
        }
    }

    /// Each place with its key, lent.
    pub fn places(&self) -> &BTreeMap<Key, Option<RowValues>>
        ensures { result.now.entries ≡ self.now }
    {
        &self.rows
    }

    #[tactic(auto, using(crate::proofs::Standing::standing))]
    /// Tells that the rows rise by key.
    pub fn are_sorted(&self)
        ensures { IsStrictlySortedBy values_cmp (keys_of (rows_present self.now)) }
    {
        let _rows = &self.rows;
    }

    #[tactic(auto, using(crate::proofs::Standing::standing))]
    /// Puts a row under a key, and gives what stood there. At an error the rows are as they were.
    pub fn put(&mut self, key: Key, row: RowValues) -> Result<Option<RowValues>, AllocError>
        ensures ok { OnOk result (rows_present self.new ≡ with_row (rows_present self.old) key row) }
        ensures place { OnOk result (is_placed self.new key ≡ true) }
        ensures places { KeepsPlaces self.old self.new }
        ensures before { IfOk result (λ before. before ≡ row_under (rows_present self.old) key) }
        ensures err { OnErr result (self.new ≡ self.old) }
        ensures sorted { IsStrictlySortedBy values_cmp (keys_of (rows_present self.old)) }
    {
        raise(&mut self.bound, &key);
        Ok(self.rows.insert(key, Some(row))?.flatten())
    }

    #[tactic(auto, using(crate::proofs::Standing::standing))]
    /// Takes out the row of a key, whose place stays.
    pub fn take(&mut self, key: &Key) -> Option<RowValues>
        ensures rows { rows_present self.new ≡ without_row (rows_present self.old) key.now }
        ensures places { KeepsPlaces self.old self.new }
        ensures place { IfSome result (λ _. is_placed self.new key.now ≡ true) }
        ensures taken { result ≡ row_under (rows_present self.old) key.now }
        ensures sorted { IsStrictlySortedBy values_cmp (keys_of (rows_present self.old)) }
    {
        let Some(place) = self.rows.get_mut(key) else {
            return None;
        };
        let taken = place.take();
        lower(&self.rows, &mut self.bound);
        taken
    }

    #[tactic(auto, using(crate::proofs::Standing::standing))]
    /// Brings back what stood in a place, and gives what stands in it now.
    pub fn restore(&mut self, key: &Key, before: Option<RowValues>) -> Option<RowValues>
        requires { is_placed self.old key.now ≡ true }
        ensures replaced { result ≡ row_under (rows_present self.old) key.now }
        ensures rows { rows_present self.new ≡ with_former_row (rows_present self.old) key.now before }
        ensures places { KeepsPlaces self.old self.new }
    {
        raise(&mut self.bound, key);
        let Some(place) = self.rows.get_mut(key) else {
            return None;
        };
        let replaced = mem::replace(place, before);
        lower(&self.rows, &mut self.bound);
        replaced
    }

    #[tactic(auto, using(crate::proofs::Standing::standing))]
    /// Gives a place up, where it stands empty.
    pub fn sweep(&mut self, key: &Key)
        ensures { rows_present self.new ≡ rows_present self.old }
    {
        if let Some(None) = self.rows.get(key) {
            self.rows.remove(key);
        }
    }

    /// Copies of the rows, rising by key.
    pub fn list(&self, alloc: Global) -> Result<RowList, AllocError>
        ensures { IfOk result (λ rows. rows ≡ map (λ entry. entry.1) (rows_present self.now)) }
    {
        let mut rows = Vec::new(alloc);
        for (_, place) in &self.rows {
            if let Some(row) = place {
                rows.push(row.copied()?)?;
            }
        }
        Ok(ListOf::from_vec(rows))
    }

    /// One above the greatest key, 1 where there are no rows; none where the greatest key is the greatest integer. Empty places
    /// above the last row are not gone through.
    pub fn next_key(&self) -> Option<i64>
        ensures { result ≡ next_key (rows_present self.now) }
    {
        match last_within(&self.rows, &self.bound) {
            Some(key) => key_after(key.as_slice()),
            None => Some(1),
        }
    }
}

/// The integer above the one that a key is, if there is one.
fn key_after(key: &[Value]) -> Option<i64>
    ensures { result ≡ key_after key.now }
{
    if key.len() != 1 {
        return None;
    }
    match &key[0] {
        Value::Int(n) => above(*n),
        _ => None,
    }
}

/// The next integer, if there is one.
fn above(n: i64) -> Option<i64>
    ensures { result ≡ (if int_eq n (pos 9223372036854775807) then None else Some (n +ℤ pos 1)) }
{
    if n == i64::MAX {
        return None;
    }
    Some(n + 1)
}
