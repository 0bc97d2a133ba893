//! What single declarations of classes and relationships say.

ghost use Rattle.std.specs.Prelude.{◌≡◌};
ghost use Rattle.std.specs.List.{list_any};
ghost use Rattle.class_blocks.specs.Blocks.{cascade_or_default, default_cascade, is_declared, is_identity, is_named, maps_name};

use base_core::{Name, Value, compare};
use class_types::{Cascade, ClassSpec};

/// Whether a class of the name is declared.
pub fn is_declared(specs: &[ClassSpec], name: &Name) -> bool
    ensures { result ≡ is_declared specs.now name.now }
{
    specs.iter().any(|spec| spec.name == *name)
}

/// Whether the table of a class has the name.
pub fn is_named(own: &Option<Name>, name: &Name) -> bool
    ensures { result ≡ is_named own.now name.now }
{
    match own {
        Some(own) => *own == *name,
        None => false,
    }
}

/// Whether the table of a class has the name.
fn some_named(specs: &[ClassSpec], name: &Name) -> bool
    ensures { result ≡ list_any (λ spec. is_named spec.table name.now) specs.now }
{
    specs.iter().any(|spec| is_named(&spec.table, name))
}

/// Whether a class maps the table of the name.
pub fn maps_name(specs: &[ClassSpec], name: &Option<Name>) -> bool
    ensures { result ≡ maps_name specs.now name.now }
{
    match name {
        Some(name) => some_named(specs, name),
        None => false,
    }
}

fn is_identity(one: &Option<Value>, other: &Option<Value>) -> bool
    ensures { result ≡ is_identity one.now other.now }
{
    match (one, other) {
        (Some(one), Some(other)) => compare(one, other).is_eq(),
        _ => false,
    }
}

/// Whether two classes have one identity.
pub fn shares_identity(one: &ClassSpec, other: &ClassSpec) -> bool
    ensures { result ≡ is_identity one.now.identity other.now.identity }
{
    is_identity(&one.identity, &other.identity)
}

/// The flags of a relationship; without words of its own it has save-update and merge.
pub fn cascade_or_default(cascade: Option<Cascade>) -> Cascade
    ensures { result ≡ cascade_or_default cascade }
{
    match cascade {
        Some(cascade) => cascade,
        None => Cascade {
            save_update: true,
            merge: true,
            refresh_expire: false,
            expunge: false,
            delete: false,
            delete_orphan: false,
        },
    }
}
