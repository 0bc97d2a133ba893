//! Values that may be missing, and the column that tells the class of a row.

ghost use Rattle.std.specs.Prelude.{◌≡◌, IfOk};
ghost use Rattle.class_mapping.specs.Mapped.{IsClass};
ghost use Rattle.class_layouts.specs.Faults.{is_named};
ghost use Rattle.object_rows.specs.Cells.{key_value};
ghost use Rattle.object_rows.specs.Rows.{is_discriminator};
ghost use Rattle.schema_core.specs.Tables.{value_or_null};

use base_core::{ClassId, Copied, Key, Name, TableId, Value};
use class_mapping::Mapping;
use object_rows::part_of_key;
use std::alloc::AllocError;

/// A value that is known, or NULL.
pub fn known_value(known: &Option<Value>) -> Result<Value, AllocError>
    ensures { IfOk result (λ value. value ≡ value_or_null known.now) }
{
    match known {
        Some(value) => Ok(value.copied()?),
        None => Ok(Value::Null),
    }
}

/// A part of a key that may not be there, or NULL.
pub fn part_or_null(key: &Option<Key>, part: u32) -> Result<Value, AllocError>
    ensures { IfOk result (λ value. value ≡ key_value key.now part) }
{
    match key {
        Some(key) => part_of_key(key, part),
        None => Ok(Value::Null),
    }
}

fn is_named(own: &Option<Name>, name: &Name) -> bool
    ensures { result ≡ is_named own.now name.now }
{
    match own {
        Some(own) => *own == *name,
        None => false,
    }
}

/// Whether the column of a name tells the class of a row.
pub fn is_telling(mapping: &Mapping, class: ClassId, table: TableId, name: &Name) -> bool
    requires { IsClass mapping.now class }
    ensures { result ≡ is_discriminator mapping.now class table name.now }
{
    if mapping.root_table(class).0 != table.0 {
        return false;
    }
    is_named(&mapping.spec_of(mapping.root_of(class)).discriminator, name)
}
