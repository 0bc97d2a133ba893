//! Which validators take a value.

ghost use Rattle.std.specs.Prelude.{◌≡◌, Some};
ghost use Rattle.std.specs.List.{find};
ghost use Rattle.std.specs.Option.{option_copied};
ghost use Rattle.schema_core.specs.Tables.{kind_of_value};
ghost use Rattle.class_types.specs.Shown.{rules_of};
ghost use Rattle.object_parts.specs.Validators as spec;

use base_core::{Kind, Name, Value};
use class_types::{Hooks, check_value};
use schema_core::{kind_of_value, same_kind};

fn takes_kind(wanted: Option<Kind>, kind: Kind) -> bool
    ensures { result ≡ spec.takes_kind wanted kind }
{
    match wanted {
        Some(wanted) => same_kind(wanted, kind),
        None => false,
    }
}

/// Whether the validator of a name takes a value of a kind.
fn is_taken_as(hooks: &Hooks, hook: &Name, value: &Value, kind: Kind) -> bool
    requires { kind_of_value value.now ≡ Some kind }
    ensures { result ≡ spec.is_taken_as (rules_of hooks.now) hook.now value.now (Some kind) }
{
    let takes = takes_kind(hooks.kind_of(hook), kind);
    if takes {
        check_value(hooks, hook, value)
    } else {
        false
    }
}

/// Whether the validator of a name takes a value: NULL always, another one where it is of the validator's kind and as its rule asks.
fn is_taken(hooks: &Hooks, hook: &Name, value: &Value) -> bool
    ensures { result ≡ spec.is_taken (rules_of hooks.now) hook.now value.now }
{
    match kind_of_value(value) {
        Some(kind) => is_taken_as(hooks, hook, value, kind),
        None => true,
    }
}

/// Whether a validator is one of the attribute of a name, and does not take a value.
fn refuses(hooks: &Hooks, name: &Name, value: &Value, validator: &(Name, Name)) -> bool
    ensures { result ≡ spec.refuses (rules_of hooks.now) name.now value.now validator.now }
{
    validator.0 == *name && !is_taken(hooks, &validator.1, value)
}

/// The first validator of an attribute that does not take a value.
pub fn first_refusing<'a>(
    hooks: &Hooks,
    validators: &'a [(Name, Name)],
    name: &Name,
    value: &Value,
) -> Option<&'a (Name, Name)>
    ensures { option_copied result
        ≡ find (spec.refuses (rules_of hooks.now) name.now value.now) validators.now }
{
    for validator in validators {
        if refuses(hooks, name, value, validator) {
            return Some(validator);
        }
    }
    None
}
