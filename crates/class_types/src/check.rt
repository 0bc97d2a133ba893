//! What validators answer.

ghost use Rattle.std.specs.Prelude.{◌≡◌, ◌<◌, IfSome, Some, length};
ghost use Rattle.schema_core.specs.Tables.{kind_of_value};
ghost use Rattle.class_types.specs.Rules.{Takes, asked_by, kind_of, passes, passes_rule, place_of};
ghost use Rattle.class_types.specs.Shown.{rules_of};

use crate::Hooks;
use base_core::{Kind, Name, Value};
use schema_core::kind_of_value;

/// Where a name stands.
pub(crate) fn place_of(names: &[Name], name: &Name) -> Option<usize>
    ensures place { result ≡ place_of names.now name.now }
    ensures inside { IfSome result (λ place. place < length names.now) }
{
    names.iter().position(|other| *other == *name)
}

/// Whether a value is as the validator of a name asks. NULL is, without a call.
pub fn check_value(hooks: &Hooks, name: &Name, value: &Value) -> bool
    requires { Takes (rules_of hooks.now) name.now (kind_of_value value.now) }
    ensures { result ≡ passes (rules_of hooks.now) name.now value.now }
{
    match kind_of_value(value) {
        Some(kind) => check_of(hooks, name, kind, value),
        None => true,
    }
}

/// What the validator of a name answers on a value of its kind.
fn check_of(hooks: &Hooks, name: &Name, kind: Kind, value: &Value) -> bool
    requires value { kind_of_value value.now ≡ Some kind }
    requires hook { kind_of (rules_of hooks.now) name.now ≡ Some kind }
    ensures { result ≡ passes_rule (asked_by (rules_of hooks.now) name.now) value.now }
{
    match place_of(hooks.names.as_slice(), name) {
        Some(place) => hooks.validators[place].check(value),
        None => false,
    }
}
