//! The indexes of a table.

ghost use Rattle.std.specs.Prelude.{◌≡◌, Some, IfOk, IfSome};
ghost use Rattle.std.specs.List.{AllByRecursion};
ghost use Rattle.std.specs.Option.{option_copied};
ghost use Rattle.table_index.specs.Indexed.{AreComplete, Found, IsChanged, IsComplete, has_entered};

use crate::index::ValueIndex;
use base_core::{Key, RowValues};
use std::alloc::{AllocError, Global};
use std::mem;

/// The indexes of a table's rows. Where memory runs out in a change, there are none from then on.
#[derive(Drop)]
pub struct Indexes {
    list: Vec<ValueIndex>,
    alloc: Global,
}

/// Each index with a row more.
fn all_with_row(
    alloc: Global,
    indexes: Vec<ValueIndex>,
    key: &Key,
    row: &RowValues,
) -> Result<Vec<ValueIndex>, AllocError>
    ensures { IfOk result (λ all. (rows after : Found) → AllByRecursion (IsComplete rows) indexes.items
        → IsChanged rows key.now (Some row.now) after
        → AllByRecursion (IsComplete after) all.items) }
{
    let mut left = indexes;
    let mut done = Vec::with_capacity(alloc, left.len())?;
    while let Some(index) = left.pop() {
        done.push(index.with_row(alloc, key, row.as_slice())?)?;
    }
    Ok(done)
}

/// Each index without what a row had entered that stood under a key before.
fn all_without_former(
    alloc: Global,
    indexes: Vec<ValueIndex>,
    key: &Key,
    former: &RowValues,
    row: Option<&RowValues>,
) -> Result<Vec<ValueIndex>, AllocError>
    ensures { IfOk result (λ all. (rows : Found) → AllByRecursion (IsComplete rows) indexes.items
        → rows key.now ≡ option_copied row.entry → AllByRecursion (IsComplete rows) all.items) }
{
    let mut rest = indexes;
    let mut done = Vec::with_capacity(alloc, rest.len())?;
    while let Some(index) = rest.pop() {
        done.push(index.without_former(alloc, key, former.as_slice(), row)?)?;
    }
    Ok(done)
}

impl Indexes {
    /// No indexes.
    pub fn new(alloc: Global) -> Indexes
        ensures { (rows : Found) → AreComplete rows result }
    {
        Indexes {
            list: Vec::new(alloc),
            alloc,
        }
    }

    /// Gives all indexes up.
    pub fn clear(&mut self)
        ensures { (rows : Found) → AreComplete rows self.new }
    {
        self.list.clear();
    }

    /// The index on columns of these places, if there is one.
    pub fn find(&self, columns: &[usize]) -> Option<&ValueIndex>
        ensures complete { (rows : Found) → AreComplete rows self.now
            → IfSome result (λ index. IsComplete rows index.now) }
        ensures columns { IfSome result (λ index. index.now.columns.items ≡ columns.now) }
    {
        for index in &self.list {
            if index.columns.as_slice() == columns {
                return Some(index);
            }
        }
        None
    }

    /// One index more. At an error there are those that there were.
    pub fn add(&mut self, index: ValueIndex) -> Result<(), AllocError>
        ensures { (rows : Found) → AreComplete rows self.old → IsComplete rows index
            → AreComplete rows self.new }
    {
        self.list.push(index)?;
        Ok(())
    }

    /// A row is put in, whether one stood under its key or not. What that one had entered stays.
    pub fn put(&mut self, key: &Key, row: &RowValues)
        ensures { (rows after : Found) → AreComplete rows self.old
            → IsChanged rows key.now (Some row.now) after → AreComplete after self.new }
    {
        let list = mem::replace(&mut self.list, Vec::new(self.alloc));
        if let Ok(all) = all_with_row(self.alloc, list, key, row) {
            self.list = all;
        }
    }

    /// Whether each index has a row.
    fn has_entered(&self, key: &Key, row: &RowValues) -> Result<bool, AllocError>
        ensures { IfOk result (λ yes. yes ≡ has_entered self.now key.now row.now) }
    {
        for index in &self.list {
            if !index.has_row(self.alloc, key, row.as_slice())? {
                return Ok(false);
            }
        }
        Ok(true)
    }

    /// A row comes back under its key, which had been entered. Nothing is entered: where an index lacks the row, or memory runs
    /// out, the indexes are given up.
    pub fn bring_back(&mut self, key: &Key, row: &RowValues)
        ensures { (rows after : Found) → AreComplete rows self.old
            → IsChanged rows key.now (Some row.now) after → AreComplete after self.new }
    {
        let Ok(has) = self.has_entered(key, row) else {
            self.list.clear();
            return;
        };
        if !has {
            self.list.clear();
            return;
        }
    }

    /// What a row had entered that stood under a key before is taken out, where another one stands there now, or none.
    pub fn sweep(&mut self, key: &Key, former: &RowValues, row: Option<&RowValues>)
        ensures { (rows : Found) → AreComplete rows self.old → rows key.now ≡ option_copied row.entry
            → AreComplete rows self.new }
    {
        let list = mem::replace(&mut self.list, Vec::new(self.alloc));
        if let Ok(all) = all_without_former(self.alloc, list, key, former, row) {
            self.list = all;
        }
    }
}
