//! What is known of a cell, and which cells stay.

ghost use Rattle.std.specs.Prelude.{◌≡◌};
ghost use Rattle.class_mapping.specs.Mapped.{IsClass, is_key_attribute};
ghost use Rattle.object_parts.specs.Cells as spec;

use base_core::{AttrNo, ClassId, Value};
use class_mapping::Mapping;
use object_arena::Object;

/// Whether a value is the one that was last read or written.
pub fn is_base(base: &Option<Value>, value: &Value) -> bool
    ensures { result ≡ spec.is_base base.now value.now }
{
    match base {
        Some(base) => value.cmp(base).is_eq(),
        None => false,
    }
}

/// Whether an object has an identity and an attribute is of its key.
pub fn is_of_kept_key(mapping: &Mapping, object: &Object, attr: AttrNo) -> bool
    requires declared { IsClass mapping.now object.now.class }
    ensures { result ≡ spec.is_kept_cell mapping.now object.now attr }
{
    object.identity.is_some() && is_of_key(mapping, object.class, attr)
}

/// Whether an attribute of a class is of its key.
fn is_of_key(mapping: &Mapping, class: ClassId, attr: AttrNo) -> bool
    requires declared { IsClass mapping.now class }
    ensures { result ≡ is_key_attribute mapping.now class attr }
{
    let keys = mapping.key_attributes(class);
    keys.iter().any(|key| key.0 == attr.0)
}
