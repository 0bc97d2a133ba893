//! Lists and sets of objects.

ghost use Rattle.std.specs.Prelude.{◌≡◌, ◌<◌, ℕ, [], ◌∷◌, ◌++◌, ◌↔◌, IsTrue, length, slice_get, Some, OnOk, OnErr};

use crate::{ListOf, ObjId};
use std::alloc::{AllocError, Global};
use std::marker::Model;

/// A list of objects.
pub type ObjList = ListOf<ObjId>;

/// A set of objects, as the ascending list of its members.
#[derive(Drop)]
pub struct ObjSet {
    members: ListOf<ObjId>,
}

impl Model for ObjSet {
    ghost use Rattle.std.specs.Prelude.{List};
    ghost use Rattle.base_core.specs.declared.ids.ObjId.{ObjId};
    ghost use Rattle.base_core.specs.Ascending.{IsAscending};

    ghost Value = { List ObjId };

    ghost view = { λ s. s.members };

    ghost invariant = { λ s. IsAscending s.members };
}

impl ObjSet {
    ghost use Rattle.base_core.specs.Ascending.{IsAscending, IsAbove};

    /// No members.
    pub fn new(alloc: Global) -> ObjSet
        ensures { result ≡ [] }
    {
        ObjSet {
            members: ListOf::new(alloc),
        }
    }

    #[tactic(auto, using(crate::proofs::Pushing::ascending_push))]
    /// The object becomes the last member. Where memory runs out it leaves the set as it was.
    pub fn push(&mut self, object: ObjId) -> Result<(), AllocError>
        requires { IsAbove self.old object }
        ensures ok { OnOk result (self.new ≡ self.old ++ object ∷ []) }
        ensures err { OnErr result (self.new ≡ self.old) }
    {
        self.members.push(object)?;
        Ok(())
    }

    /// No members are left.
    pub fn clear(&mut self)
        ensures { self.new ≡ [] }
    {
        self.members.clear();
    }

    /// How many members there are.
    pub fn len(&self) -> usize
        ensures { result ≡ length self.now }
    {
        self.members.len()
    }

    pub fn is_empty(&self) -> bool
        ensures { IsTrue result ↔ (self.now ≡ []) }
    {
        self.members.is_empty()
    }

    /// The member at a place, from 0.
    pub fn at(&self, place: usize) -> &ObjId
        requires { place < length self.now }
        ensures { slice_get self.now place ≡ Some result.now }
    {
        self.members.at(place)
    }

    /// The members, ascending.
    pub fn as_slice(&self) -> &[ObjId]
        ensures members { result.now ≡ self.now }
        ensures ascending { IsAscending self.now }
    {
        self.members.as_slice()
    }
}
