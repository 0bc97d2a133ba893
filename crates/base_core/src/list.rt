//! Lists that contracts see as lists.

ghost use Rattle.std.specs.Prelude.{◌≡◌, ◌<◌, [], ◌∷◌, ◌++◌, length, slice_get, slice_set, IsTrue, IfOk, OnOk, OnErr, ◌↔◌, Some, vec_len};
ghost use Rattle.std.specs.Option.{option_copied};

use crate::Copied;
use std::alloc::{AllocError, Global};
use std::cmp::Ordering;
use std::marker::Model;
use std::{mem, slice};

/// A list of items. Contracts see the list alone, so two lists with the same items are equal.

pub struct ListOf<T> {
    items: Vec<T>,
}

impl<T: Drop> Drop for ListOf<T> {
    fn drop(self) {
        let ListOf { items: _ } = self;
    }
}

impl<T> Model for ListOf<T> {
    ghost use Rattle.std.specs.Prelude.{List};
    ghost use Rattle.std.specs.Coded.{coded_list};

    ghost Value = { List T };

    ghost coded = { coded_list T.code };

    ghost view = { λ l. l.items.items };
}

impl<T> ListOf<T> {
    /// No items.
    pub fn new(alloc: Global) -> ListOf<T>
        ensures { result ≡ [] }
    {
        ListOf {
            items: Vec::new(alloc),
        }
    }

    /// The items of a vector, without memory.
    pub fn from_vec(items: Vec<T>) -> ListOf<T>
        ensures { result ≡ items.items }
    {
        ListOf { items }
    }

    /// The vector of the items, without memory.
    pub fn into_vec(self) -> Vec<T>
        ensures { result.items ≡ self }
    {
        let ListOf { items } = self;
        items
    }

    /// The items, lent.
    pub fn as_slice(&self) -> &[T]
        ensures { result.now ≡ self.now }
    {
        self.items.as_slice()
    }

    /// How many items there are.
    pub fn len(&self) -> usize
        ensures { result ≡ length self.now }
    {
        self.items.len()
    }

    pub fn is_empty(&self) -> bool
        ensures { IsTrue result ↔ (self.now ≡ []) }
    {
        self.items.is_empty()
    }

    /// The item at a place, from 0.
    pub fn at(&self, place: usize) -> &T
        requires { place < length self.now }
        ensures { slice_get self.now place ≡ Some result.now }
    {
        &self.items[place]
    }

    /// The item at a place gives way to another, and is answered.
    pub fn replace(&mut self, place: usize, item: T) -> T
        requires { place < length self.old }
        ensures list { self.new ≡ slice_set self.old place item }
        ensures before { slice_get self.old place ≡ Some result }
    {
        mem::replace(&mut self.items[place], item)
    }

    /// The item at a place, if there is one.
    pub fn get(&self, place: usize) -> Option<&T>
        ensures { option_copied result ≡ slice_get self.now place }
    {
        self.items.get(place)
    }
}

impl<T: Drop> ListOf<T> {
    /// The item goes to the end. Where memory runs out it leaves the list as it was.
    pub fn push(&mut self, item: T) -> Result<(), AllocError>
        ensures ok { OnOk result (self.new ≡ self.old ++ item ∷ []) }
        ensures err { OnErr result (self.new ≡ self.old) }
    {
        self.items.push(item)?;
        Ok(())
    }

    /// No items are left.
    pub fn clear(&mut self)
        ensures { self.new ≡ [] }
    {
        self.items.clear();
    }
}

impl<T: Copied + Drop> Copied for ListOf<T> {
    fn copied(&self) -> Result<ListOf<T>, AllocError> {
        let mut items = Vec::with_capacity(*self.items.allocator(), self.items.len())?;
        for item in &self.items {
            items.push(item.copied()?)?;
        }
        Ok(ListOf { items })
    }
}

impl<T: Copied + Drop> Clone for ListOf<T> {
    ghost is_clone = { λ list copy. copy ≡ list };

    fn clone(&self) -> Result<ListOf<T>, AllocError> {
        self.copied()
    }
}

impl<T: PartialEq> PartialEq for ListOf<T> {
    ghost use Rattle.std.specs.Cmp.Lexicographic.{pointwise, lists_per};

    ghost eq = { pointwise T.eq };

    ghost laws = { lists_per T.laws };

    fn eq(&self, other: &ListOf<T>) -> bool {
        self.items.as_slice() == other.items.as_slice()
    }
}

impl<T: Eq> Eq for ListOf<T> {
    ghost use Rattle.std.specs.Cmp.Lexicographic.{lists_equiv};

    ghost laws = { lists_equiv T.Eq.laws };
}

impl<T: PartialOrd> PartialOrd for ListOf<T> {
    ghost use Rattle.std.specs.Cmp.Lexicographic.{slice_partial_cmp, lists_po};

    ghost partial_cmp = { slice_partial_cmp T.partial_cmp };

    ghost laws = { lists_po T.PartialOrd.laws };

    fn partial_cmp(&self, other: &ListOf<T>) -> Option<Ordering> {
        self.items.as_slice().partial_cmp(&other.items.as_slice())
    }
}

impl<T: Ord> Ord for ListOf<T> {
    ghost use Rattle.std.specs.Cmp.Lexicographic.{slice_cmp, lists_total, lists_agrees, lists_ties};

    ghost cmp = { slice_cmp T.cmp };

    ghost total = { lists_total T.total };

    ghost matches_partial_cmp = { lists_agrees T.matches_partial_cmp };

    ghost matches_eq = { lists_ties T.cmp T.matches_eq };

    fn cmp(&self, other: &ListOf<T>) -> Ordering {
        self.items.as_slice().cmp(&other.items.as_slice())
    }
}
