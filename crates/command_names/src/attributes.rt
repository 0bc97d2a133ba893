//! Whether values are of the kinds of attributes.

ghost use Rattle.std.specs.Prelude.{◌≡◌, IfSome};
ghost use Rattle.schema_core.specs.Refusals.{kind_fault};
ghost use Rattle.class_mapping.specs.Mapped.{IsAttribute, IsClass};
ghost use Rattle.script_resolve.specs.Refusals.{CanRefuse};
ghost use Rattle.command_names.specs.Attributes as spec;

use base_core::{AttrNo, ClassId, Kind, Refusal, Value};
use class_mapping::Mapping;
use schema_core::{kind_of_value, same_kind};

/// The kinds that are wanted and found, where a value goes to a place of another kind.
fn kind_fault(wanted: Kind, found: Option<Kind>) -> Option<Refusal>
    ensures fault { result ≡ kind_fault wanted found }
    ensures cause { IfSome result CanRefuse }
{
    let found = found?;
    if same_kind(wanted, found) {
        return None;
    }
    Some(Refusal::TypeMismatch(wanted, found))
}

/// Why a value is none for an attribute of a class.
pub fn value_fault(
    mapping: &Mapping,
    class: ClassId,
    attr: AttrNo,
    value: &Value,
) -> Option<Refusal>
    requires class { IsClass mapping.now class }
    requires attr { IsAttribute mapping.now class attr }
    ensures fault { result ≡ spec.value_fault mapping.now class attr value.now }
    ensures cause { IfSome result CanRefuse }
{
    let wanted = mapping.attributes(class)[attr.0 as usize].kind;
    kind_fault(wanted, kind_of_value(value))
}
