//! The new objects by their keys.

ghost use Rattle.std.specs.Prelude.{◌≡◌, length, IfOk, OnOk};
ghost use Rattle.object_arena.specs.Graph.{IsObject, root_at};
ghost use Rattle.graph_flushed.specs.Ready.{AreHolders, IsEntered};

use base_core::{Copied, Key, ObjId};
use object_arena::{Arena, IdentityMap};
use std::alloc::{AllocError, Global};

/// The new objects by their roots and keys. Each is put in after those behind it, so that of several the first stays.
pub fn key_holders(
    alloc: Global,
    arena: &Arena,
    keys: &[Option<Key>],
) -> Result<IdentityMap, AllocError>
    requires { length keys.now ≡ length arena.now.objects }
    ensures { IfOk result
        (λ holders. AreHolders holders.maps.items keys.now arena.now.roots) }
{
    let mut holders = IdentityMap::new(alloc);
    let count = arena.count();
    for behind in 0..count {
        let place = count - 1 - behind;
        enter(&mut holders, arena, ObjId(place + 1), &keys[place as usize])?;
    }
    Ok(holders)
}

/// An object is put under its key, if it has one.
fn enter(
    holders: &mut IdentityMap,
    arena: &Arena,
    object: ObjId,
    key: &Option<Key>,
) -> Result<(), AllocError>
    requires { IsObject arena.now object }
    ensures { OnOk result (IsEntered holders.old.maps.items holders.new.maps.items
        key.now (root_at arena.now object) object) }
{
    match key {
        Some(key) => {
            let copy = key.copied()?;
            holders.put(arena.root_at(object), copy, object)
        }
        None => Ok(()),
    }
}
