//! What of an object tells whether its pairs are made or taken away.

ghost use Rattle.std.specs.Prelude.{◌≡◌, slice_index_or};
ghost use Rattle.object_arena.specs.declared.object.Link.TheVariants.{Unset};
ghost use Rattle.pair_rows.specs.Pairs.{has_key, is_leaving};

use base_core::ObjId;
use object_arena::{Arena, Link, Object};
use object_rows::Prepared;

/// Whether an object is to be deleted.
pub fn is_leaving(prepared: &Prepared, object: ObjId) -> bool
    ensures { result ≡ is_leaving prepared.now object }
{
    prepared.deleted.has(object)
}

/// Whether an object has the key of a row.
pub(crate) fn has_key(arena: &Arena, object: ObjId) -> bool
    ensures { result ≡ has_key arena.now object }
{
    let place = object.0.saturating_sub(1);
    if place < arena.count() {
        return arena.object(ObjId(place + 1)).identity.is_some();
    }
    false
}

/// The link of a number; for one that is not there stands an unset one.
pub fn link_or<'a>(object: &'a Object, number: usize, unset: &'a Link) -> &'a Link
    requires { unset.now ≡ Unset }
    ensures { result.now ≡ slice_index_or object.now.links number Unset }
{
    match object.links.get(number) {
        Some(link) => link,
        None => unset,
    }
}
