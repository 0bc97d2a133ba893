//! One index.

ghost use Rattle.std.specs.Prelude.{◌≡◌, ◌⊎◌, true, false, cond, List, None, IfOk};
ghost use Rattle.std.specs.BTreeMap.{get};
ghost use Rattle.std.specs.List.{list_any};
ghost use Rattle.std.specs.Option.{option_copied};
ghost use Rattle.base_core.specs.Order.{values_cmp};
ghost use Rattle.base_core.specs.declared.value.Value.{Value};
ghost use Rattle.schema_core.specs.Tables.{same_values};
ghost use Rattle.table_index.specs.Indexed.{Found, IsComplete, cells_at, has_cells_of, is_entered, keys_at, keys_in};

use crate::columns::cells_at;
use base_core::{Copied, Key, ListOf, RowValues, Value, is_above_all};
use std::alloc::{AllocError, Global};
use std::collections::{BTreeMap, BTreeSet};

/// The keys of rows by the values that the rows have in some columns, told by their places. Keys may stand in it whose rows
/// have gone or have other values, so a key that is found is tested against its row.
#[derive(Drop)]
pub struct ValueIndex {
    pub(crate) columns: Vec<usize>,
    pub(crate) holders: BTreeMap<RowValues, BTreeSet<Key>>,
}

/// Whether two lists of values are equal.
fn same_values(one: &ListOf<Value>, other: &ListOf<Value>) -> bool
    ensures { result ≡ same_values one.now other.now }
{
    one.cmp(other).is_eq()
}

/// The keys found.
fn keys_of(alloc: Global, found: Option<BTreeSet<Key>>) -> BTreeSet<Key>
    ensures { result.keys ≡ keys_in found }
{
    match found {
        Some(keys) => keys,
        None => BTreeSet::new(alloc),
    }
}

/// The keys under a value. Values often come in their order, and under one above all others there are none.
fn keys_under<'x>(
    holders: &'x BTreeMap<RowValues, BTreeSet<Key>>,
    value: &RowValues,
) -> Option<&'x BTreeSet<Key>>
    ensures { option_copied result ≡ get values_cmp holders.now value.now }
{
    if is_above_all(holders, value) {
        return None;
    }
    holders.get(value)
}

/// The keys under a value are taken out.
fn taken(
    holders: &mut BTreeMap<RowValues, BTreeSet<Key>>,
    value: &RowValues,
) -> Option<BTreeSet<Key>>
    ensures value { result ≡ get values_cmp holders.old value.now }
    ensures others { (other : List Value) → get values_cmp holders.new other
        ≡ cond (same_values value.now other) None (get values_cmp holders.old other) }
{
    if is_above_all(holders, value) {
        return None;
    }
    holders.remove(value)
}

impl ValueIndex {
    /// An index of no rows.
    pub fn new(alloc: Global, columns: Vec<usize>) -> ValueIndex
        ensures columns { result.columns.items ≡ columns.items }
        ensures complete { IsComplete (λ key. None) result }
    {
        ValueIndex {
            columns,
            holders: BTreeMap::new(alloc),
        }
    }

    /// The keys that stand at a value.
    pub fn keys(&self, value: &RowValues) -> Option<&BTreeSet<Key>>
        ensures { keys_in (option_copied result) ≡ keys_at self.now.holders value.now }
    {
        self.holders.get(value)
    }

    /// Whether a key stands at a value.
    fn has_key(&self, value: &RowValues, key: &Key) -> bool
        ensures { result ≡ list_any (same_values key.now) (keys_at self.now.holders value.now) }
    {
        match keys_under(&self.holders, value) {
            Some(keys) => keys.contains(key),
            None => false,
        }
    }

    /// Whether a row is entered.
    pub(crate) fn has_row(
        &self,
        alloc: Global,
        key: &Key,
        row: &[Value],
    ) -> Result<bool, AllocError>
        ensures { IfOk result (λ yes. yes ≡ is_entered self.now key.now row.now) }
    {
        let value = cells_at(alloc, self.columns.as_slice(), row)?;
        Ok(self.has_key(&value, key))
    }

    /// With a key at a value.
    fn with_key(self, alloc: Global, value: RowValues, key: &Key) -> Result<ValueIndex, AllocError>
        ensures columns { IfOk result (λ index. index.columns.items ≡ self.columns.items) }
        ensures entered { IfOk result (λ index.
            list_any (same_values key.now) (keys_at index.holders value) ≡ true) }
        ensures others { IfOk result (λ index. (other there : List Value)
            → list_any (same_values other) (keys_at self.holders there) ≡ true
            → list_any (same_values other) (keys_at index.holders there) ≡ true) }
    {
        let ValueIndex { columns, holders } = self;
        let mut holders = holders;
        let mut keys = keys_of(alloc, taken(&mut holders, &value));
        keys.insert(key.copied()?)?;
        holders.insert(value, keys)?;
        Ok(ValueIndex { columns, holders })
    }

    /// Without a key at a value.
    fn without_key(
        self,
        alloc: Global,
        value: RowValues,
        key: &Key,
    ) -> Result<ValueIndex, AllocError>
        ensures columns { IfOk result (λ index. index.columns.items ≡ self.columns.items) }
        ensures others { IfOk result (λ index. (other there : List Value)
            → (same_values key.now other ≡ false) ⊎ (same_values value there ≡ false)
            → list_any (same_values other) (keys_at self.holders there) ≡ true
            → list_any (same_values other) (keys_at index.holders there) ≡ true) }
    {
        let ValueIndex { columns, holders } = self;
        let mut holders = holders;
        let mut keys = keys_of(alloc, holders.remove(&value));
        keys.remove(key);
        if keys.len() == 0 {
            return Ok(ValueIndex { columns, holders });
        }
        holders.insert(value, keys)?;
        Ok(ValueIndex { columns, holders })
    }

    /// With a row more, whether it is entered or not.
    pub fn with_row(self, alloc: Global, key: &Key, row: &[Value]) -> Result<ValueIndex, AllocError>
        ensures columns { IfOk result (λ index. index.columns.items ≡ self.columns.items) }
        ensures entered { IfOk result (λ index. is_entered index key.now row.now ≡ true) }
        ensures others { IfOk result (λ index. (other cells : List Value)
            → is_entered self other cells ≡ true → is_entered index other cells ≡ true) }
    {
        let value = cells_at(alloc, self.columns.as_slice(), row)?;
        if self.has_key(&value, key) {
            return Ok(self);
        }
        Ok(self.with_key(alloc, value, key)?)
    }

    /// Whether a row is there that has another's cells in the columns.
    fn has_cells_of(
        &self,
        alloc: Global,
        other: &[Value],
        row: Option<&RowValues>,
    ) -> Result<bool, AllocError>
        ensures { IfOk result (λ yes. yes
            ≡ has_cells_of self.now.columns.items other.now (option_copied row.entry)) }
    {
        let Some(row) = row else {
            return Ok(false);
        };
        let columns = self.columns.as_slice();
        let here = cells_at(alloc, columns, other)?;
        let there = cells_at(alloc, columns, row.as_slice())?;
        Ok(same_values(&here, &there))
    }

    /// Without what a row had entered that stood under a key before, where another one stands there now, or none.
    pub(crate) fn without_former(
        self,
        alloc: Global,
        key: &Key,
        former: &[Value],
        row: Option<&RowValues>,
    ) -> Result<ValueIndex, AllocError>
        ensures { IfOk result (λ index. (rows : Found) → IsComplete rows self
            → rows key.now ≡ option_copied row.entry → IsComplete rows index) }
    {
        if self.has_cells_of(alloc, former, row)? {
            return Ok(self);
        }
        let value = cells_at(alloc, self.columns.as_slice(), former)?;
        Ok(self.without_key(alloc, value, key)?)
    }
}
