//! The objects by their identities.

ghost use Rattle.std.specs.Prelude.{◌≡◌, ◌<◌, [], true, false, List, length, Some, if◌then◌else◌, OnOk, OnErr};
ghost use Rattle.std.specs.Ordering.{is_eq};
ghost use Rattle.std.specs.BTreeMap.{get};
ghost use Rattle.base_core.specs.Order.{values_cmp};
ghost use Rattle.base_core.specs.declared.value.Value.{Value};
ghost use Rattle.object_arena.specs.Entries.{IsPut, IsSame, entry_of};

use base_core::{ClassId, Key, ObjId, is_above_all};
use std::alloc::{AllocError, Global};
use std::collections::BTreeMap;

/// The objects of a root class by their keys.
pub type Keyed = BTreeMap<Key, ObjId>;

/// Objects by their identities, a root class and a key. An entry that was put in stays, and can be moved to another object
/// without memory.
#[derive(Drop)]
pub struct IdentityMap {
    alloc: Global,
    /// One for each root class that is in use, at the place of its number.
    pub maps: Vec<Keyed>,
}

impl IdentityMap {
    /// No objects.
    pub fn new(alloc: Global) -> IdentityMap
        ensures { result.maps.items ≡ [] }
    {
        IdentityMap {
            alloc,
            maps: Vec::new(alloc),
        }
    }

    /// The object under an identity.
    pub fn find(&self, root: ClassId, key: &Key) -> Option<ObjId>
        ensures { result ≡ entry_of self.now.maps.items root key.now }
    {
        match self.maps.get(root.0 as usize) {
            Some(map) => object_under(map, key),
            None => None,
        }
    }

    /// Puts an object under an identity, whether there was one under it or not. The only refusal is out of memory, and it
    /// changes no entry.
    pub fn put(&mut self, root: ClassId, key: Key, object: ObjId) -> Result<(), AllocError>
        ensures ok { OnOk result (IsPut self.old.maps.items self.new.maps.items root key object) }
        ensures err { OnErr result (IsSame self.old.maps.items self.new.maps.items) }
    {
        self.reach(root)?;
        put_in(&mut self.maps[root.0 as usize], key, object)
    }

    /// There is a map for a root class. The only refusal is out of memory. No entry changes.
    fn reach(&mut self, root: ClassId) -> Result<(), AllocError>
        ensures same { IsSame self.old.maps.items self.new.maps.items }
        ensures long { OnOk result (root.0 < length self.new.maps.items) }
    {
        let missing = (root.0 as usize + 1).saturating_sub(self.maps.len());
        for _added in 0..missing {
            self.maps.push(BTreeMap::new(self.alloc))?;
        }
        Ok(())
    }

    /// Puts another object in the place of the one under an identity, and answers whether there is one. Takes no memory.
    pub fn move_to(&mut self, root: ClassId, key: &Key, object: ObjId) -> bool
        ensures moved { result ≡ true
            → IsPut self.old.maps.items self.new.maps.items root key.now object }
        ensures kept { result ≡ false → IsSame self.old.maps.items self.new.maps.items }
    {
        if root.0 as usize >= self.maps.len() {
            return false;
        }
        move_in(&mut self.maps[root.0 as usize], key, object)
    }
}

/// The object under a key. Keys often come in their order, and one above all others is under none of them.
fn object_under(map: &Keyed, key: &Key) -> Option<ObjId>
    ensures { result ≡ get values_cmp map.now key.now }
{
    if is_above_all(map, key) {
        return None;
    }
    map.get(key).copied()
}

/// Puts an object under a key. The only refusal is out of memory, and it changes nothing.
fn put_in(map: &mut Keyed, key: Key, object: ObjId) -> Result<(), AllocError>
    ensures ok { OnOk result ((other : List Value) → get values_cmp map.new other
        ≡ (if is_eq (values_cmp key other) then Some object else get values_cmp map.old other)) }
    ensures err { OnErr result (map.new.entries ≡ map.old.entries) }
{
    map.insert(key, object)?;
    Ok(())
}

/// Puts another object in the place of the one under a key, and answers whether there is one.
fn move_in(map: &mut Keyed, key: &Key, object: ObjId) -> bool
    ensures moved { result ≡ true → (other : List Value) → get values_cmp map.new other
        ≡ (if is_eq (values_cmp key.now other) then Some object else get values_cmp map.old other) }
    ensures kept { result ≡ false → map.new.entries ≡ map.old.entries }
{
    let Some(place) = map.get_mut(key) else {
        return false;
    };
    *place = object;
    true
}
