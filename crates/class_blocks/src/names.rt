//! Lists of names.

ghost use Rattle.std.specs.Prelude.{◌≡◌, ◌&&◌};
ghost use Rattle.std.specs.List.{list_all};
ghost use Rattle.schema_core.specs.Catalog.{has_name};
ghost use Rattle.class_blocks.specs.Names.{allows, same_names};

use base_core::Name;

/// Whether a name is in the list.
pub fn has_name(names: &[Name], name: &Name) -> bool
    ensures { result ≡ has_name names.now name.now }
{
    names.iter().any(|other| *other == *name)
}

/// Whether each name of one list is in the other.
fn all_in(names: &[Name], others: &[Name]) -> bool
    ensures { result ≡ list_all (has_name others.now) names.now }
{
    names.iter().all(|name| has_name(others, name))
}

/// Whether the names are left open, or are these in any order.
pub fn allows(named: &[Name], names: &[Name]) -> bool
    ensures { result ≡ allows named.now names.now }
{
    named.is_empty() || (all_in(named, names) && all_in(names, named))
}
