//! A walk along links that keeps the numbers of the objects to which it came in a set.

ghost use Rattle.std.specs.Prelude.{◌≡◌, ◌+◌, [], ◌∷◌, length, map, IfOk, OnOk};
ghost use Rattle.std.specs.Ordering.{nat_cmp};
ghost use Rattle.std.specs.List.Sorted.{IsStrictlySortedBy};
ghost use Rattle.cascades.specs.Walks.{Comes, id_of_number, is_in};

use base_core::{ObjId, ObjSet};
use std::alloc::{AllocError, Global};
use std::collections::BTreeSet;

/// The numbers of the objects that a walk has come to, and the objects whose links it has still to follow.
#[derive(Drop)]
pub(crate) struct Walk {
    pub(crate) reached: BTreeSet<u32>,
    pub(crate) waiting: Vec<ObjId>,
}

impl Walk {
    /// A walk that has come nowhere yet.
    pub(crate) fn new(alloc: Global) -> Walk
        ensures reached { result.reached.keys ≡ [] }
        ensures waiting { result.waiting.items ≡ [] }
    {
        Walk {
            reached: BTreeSet::new(alloc),
            waiting: Vec::new(alloc),
        }
    }

    /// The walk comes to an object. Where it comes there first, its links are to be followed.
    pub(crate) fn come_to(&mut self, object: ObjId) -> Result<(), AllocError>
        ensures ok { OnOk result (Comes (is_in self.old.reached.keys)
            (is_in self.new.reached.keys) self.old.waiting.items self.new.waiting.items
            (object ∷ [])) }
        ensures count { OnOk result
            (length self.new.reached.keys + length self.old.waiting.items
            ≡ length self.old.reached.keys + length self.new.waiting.items) }
        ensures ascending { OnOk result (IsStrictlySortedBy nat_cmp self.new.reached.keys) }
    {
        if !self.reached.insert(object.0)? {
            return Ok(());
        }
        self.waiting.push(object)?;
        Ok(())
    }

    /// The walk comes to objects, one after another.
    pub(crate) fn come_to_all(&mut self, objects: &[ObjId]) -> Result<(), AllocError>
        requires { IsStrictlySortedBy nat_cmp self.old.reached.keys }
        ensures ok { OnOk result (Comes (is_in self.old.reached.keys)
            (is_in self.new.reached.keys) self.old.waiting.items self.new.waiting.items
            objects.now) }
        ensures count { OnOk result
            (length self.new.reached.keys + length self.old.waiting.items
            ≡ length self.old.reached.keys + length self.new.waiting.items) }
        ensures ascending { OnOk result (IsStrictlySortedBy nat_cmp self.new.reached.keys) }
    {
        for object in objects {
            self.come_to(*object)?;
        }
        Ok(())
    }

    /// The objects that the walk has come to.
    pub(crate) fn into_set(self, alloc: Global) -> Result<ObjSet, AllocError>
        requires { IsStrictlySortedBy nat_cmp self.reached.keys }
        ensures { IfOk result (λ set. set ≡ map id_of_number self.reached.keys) }
    {
        let mut set = ObjSet::new(alloc);
        for number in self.reached {
            set.push(ObjId(number))?;
        }
        Ok(set)
    }
}
