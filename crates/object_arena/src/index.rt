//! The persistent objects by their identities.

ghost use Rattle.std.specs.Prelude.{◌≡◌, true, OnOk};
ghost use Rattle.object_arena.specs.Entries.{IsPut, entry_of};
ghost use Rattle.object_arena.specs.Index.{IsMoved};

use crate::State;
use crate::identities::IdentityMap;
use base_core::{ClassId, Copied, Key, ObjId};
use std::alloc::{AllocError, Global};

/// The persistent objects by their identities, each a root class and a key.
///
/// An entry is good where its object is persistent under the identity still. Entries are never taken out, so an object that
/// goes back to an identity that it had finds its entry there, and takes no memory.
#[derive(Drop)]
pub(crate) struct IdentityIndex {
    pub(crate) entries: IdentityMap,
    /// Whether each persistent object has its entry: memory was there for all of them, and none went back to an identity
    /// that had no entry.
    pub(crate) complete: bool,
}

impl IdentityIndex {
    /// No objects.
    pub(crate) fn new(alloc: Global) -> IdentityIndex
        ensures { result.complete ≡ true }
    {
        IdentityIndex {
            entries: IdentityMap::new(alloc),
            complete: true,
        }
    }

    /// The object of the entry of an identity.
    pub(crate) fn find(&self, root: ClassId, key: &Key) -> Option<ObjId>
        ensures { result ≡ entry_of self.now.entries.maps.items root key.now }
    {
        self.entries.find(root, key)
    }

    /// An object has the entry of an identity. Where memory is not there for it, the index is complete no more.
    pub(crate) fn enter(&mut self, root: ClassId, key: &Key, object: ObjId)
        ensures { self.new.complete ≡ true → (self.old.complete ≡ true)
            × IsPut self.old.entries.maps.items self.new.entries.maps.items root key.now object }
    {
        match put(&mut self.entries, root, key, object) {
            Ok(()) => {}
            Err(_full) => self.complete = false,
        }
    }

    /// An object that goes back into a state under an identity has the identity's entry, where it is persistent then. Where
    /// there is no such entry, the index is complete no more. Takes no memory.
    pub(crate) fn go_back(
        &mut self,
        root: ClassId,
        state: State,
        identity: &Option<Key>,
        object: ObjId,
    )
        ensures { self.new.complete ≡ true → (self.old.complete ≡ true)
            × IsMoved self.old.entries.maps.items self.new.entries.maps.items root state
            identity.now object }
    {
        if !moved(&mut self.entries, root, state, identity, object) {
            self.complete = false;
        }
    }
}

/// Puts an object under an identity, by a copy of its key.
fn put(entries: &mut IdentityMap, root: ClassId, key: &Key, object: ObjId) -> Result<(), AllocError>
    ensures { OnOk result
        (IsPut entries.old.maps.items entries.new.maps.items root key.now object) }
{
    entries.put(root, key.copied()?, object)
}

/// Moves the entry of an identity to an object that goes back to it, where it is persistent then. Answers whether it has one.
fn moved(
    entries: &mut IdentityMap,
    root: ClassId,
    state: State,
    identity: &Option<Key>,
    object: ObjId,
) -> bool
    ensures { result ≡ true
        → IsMoved entries.old.maps.items entries.new.maps.items root state identity.now object }
{
    match state {
        State::Persistent => match identity {
            Some(key) => entries.move_to(root, key, object),
            None => true,
        },
        State::Transient | State::Pending | State::Deleted | State::Detached => true,
    }
}
