//! Objects under keys.

ghost use Rattle.std.specs.Prelude.{◌≡◌, OnOk};
ghost use Rattle.std.specs.BTreeMap.{insert_entry};
ghost use Rattle.base_core.specs.Order.{values_cmp};

use base_core::{Key, ObjId};
use std::alloc::AllocError;
use std::collections::BTreeMap;

/// An object goes under a key, in the place of one that stood there.
pub fn enter_under(
    entries: &mut BTreeMap<Key, ObjId>,
    key: Key,
    object: ObjId,
) -> Result<(), AllocError>
    ensures { OnOk result
        (entries.new.entries ≡ insert_entry values_cmp entries.old.entries key object) }
{
    entries.insert(key, object)?;
    Ok(())
}
