//! A walk along links that has a mark for each object.

ghost use Rattle.std.specs.Prelude.{◌≡◌, ◌+◌, ◌<◌, ◌≤◌, ◌^◌, [], ◌∷◌, false, length, replicate, IfOk, OnOk};
ghost use Rattle.std.specs.List.{All};
ghost use Rattle.cascades.specs.Walks.{Comes, count_left, is_marked, marked_from};

use base_core::{ObjId, ObjSet};
use std::alloc::{AllocError, Global};

/// A mark for each number, on where the walk has come to its object, and the objects whose links it has still to follow.
#[derive(Drop)]
pub(crate) struct Marks {
    pub(crate) marks: Vec<bool>,
    pub(crate) waiting: Vec<ObjId>,
}

impl Marks {
    /// A walk among so many objects that has come nowhere yet.
    pub(crate) fn new(alloc: Global, count: u32) -> Result<Marks, AllocError>
        ensures marks { IfOk result (λ walk. walk.marks.items ≡ replicate (count + 1) false) }
        ensures waiting { IfOk result (λ walk. walk.waiting.items ≡ []) }
    {
        let marks = vec![in alloc; false; count as usize + 1]?;
        Ok(Marks {
            marks,
            waiting: Vec::new(alloc),
        })
    }

    /// The walk comes to an object. Where it comes there first, its links are to be followed.
    pub(crate) fn come_to(&mut self, object: ObjId) -> Result<(), AllocError>
        requires { object.0 < length self.old.marks.items }
        ensures ok { OnOk result
            (Comes (is_marked self.old.marks.items) (is_marked self.new.marks.items)
            self.old.waiting.items self.new.waiting.items (object ∷ [])) }
        ensures count { OnOk result
            (count_left self.new.marks.items + length self.new.waiting.items
            ≡ count_left self.old.marks.items + length self.old.waiting.items) }
        ensures long { OnOk result (length self.new.marks.items ≡ length self.old.marks.items) }
    {
        let number = object.0 as usize;
        if self.marks[number] {
            return Ok(());
        }
        self.waiting.push(object)?;
        self.marks[number] = true;
        Ok(())
    }

    /// The walk comes to objects, one after another.
    pub(crate) fn come_to_all(&mut self, objects: &[ObjId]) -> Result<(), AllocError>
        requires { All (λ object. object.0 < length self.old.marks.items) objects.now }
        ensures ok { OnOk result
            (Comes (is_marked self.old.marks.items) (is_marked self.new.marks.items)
            self.old.waiting.items self.new.waiting.items objects.now) }
        ensures count { OnOk result
            (count_left self.new.marks.items + length self.new.waiting.items
            ≡ count_left self.old.marks.items + length self.old.waiting.items) }
        ensures long { OnOk result (length self.new.marks.items ≡ length self.old.marks.items) }
    {
        for object in objects {
            self.come_to(*object)?;
        }
        Ok(())
    }

    /// The objects that the walk has come to.
    pub(crate) fn into_set(self, alloc: Global) -> Result<ObjSet, AllocError>
        requires { length self.marks.items ≤ 2 ^ 32 }
        ensures { IfOk result (λ set. set ≡ marked_from 0 self.marks.items) }
    {
        let mut set = ObjSet::new(alloc);
        for number in 0..self.marks.len() {
            if self.marks[number] {
                set.push(ObjId(number as u32))?;
            }
        }
        Ok(set)
    }
}
