//! Keys that often come in their order.

ghost use Rattle.std.specs.Prelude.{◌≡◌, true, None};
ghost use Rattle.std.specs.BTreeMap.{get};
ghost use Rattle.base_core.specs.Order.{values_cmp};

use crate::Key;
use std::collections::BTreeMap;

/// Whether a key is above all others: the greatest is the only one that it is compared with.
pub fn is_above_all<V>(map: &BTreeMap<Key, V>, key: &Key) -> bool
    ensures { result ≡ true → get values_cmp map.now key.now ≡ None }
{
    match map.last_key_value() {
        Some((last, _value)) => last.cmp(key).is_lt(),
        None => false,
    }
}
