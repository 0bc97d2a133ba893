//! Keys of lines.

ghost use Rattle.std.specs.Prelude.{◌≡◌, ℕ, true, IfErr, IfOk, IfSome, None};
ghost use Rattle.std.specs.List.{All};
ghost use Rattle.base_core.specs.Answers.{Gives};
ghost use Rattle.class_mapping.specs.Mapped.{IsAttribute, IsClass};
ghost use Rattle.object_arena.specs.Fit.{key_fits};
ghost use Rattle.object_arena.specs.Graph.{Graph};
ghost use Rattle.script_resolve.specs.Refusals.{CanRefuse};
ghost use Rattle.command_resolve.specs.Resolving as spec;
ghost use Rattle.command_resolve.specs.Standing.{IsResolved};

use crate::resolved::Resolved;
use base_core::{AttrNo, ClassId, Copied, Key, Name, Refusal, Value};
use class_mapping::Mapping;
use command_names::{class_named, value_fault, wrong_kind};
use load_targets::has_null;

/// An object of a class by its key.
pub(crate) fn resolved_get(
    mapping: &Mapping,
    name: &Name,
    class: &Name,
    key: &Key,
) -> Result<Resolved, Refusal>
    ensures line { Gives (λ line. line) result
        (spec.resolved_get mapping.now name.now class.now key.now) }
    ensures cause { IfErr result CanRefuse }
    ensures stands { (graph : Graph) → (drawn : ℕ)
        → IfOk result (IsResolved mapping.now graph drawn) }
{
    let class = class_named(mapping, class)?;
    let key = resolved_key(mapping, class, key)?;
    Ok(Resolved::Get {
        name: name.copied()?,
        class,
        key,
    })
}

/// The key that a line gives for a class.
fn resolved_key(mapping: &Mapping, class: ClassId, key: &Key) -> Result<Key, Refusal>
    requires class { IsClass mapping.now class }
    ensures key { Gives (λ key. key) result (spec.resolved_key mapping.now class key.now) }
    ensures cause { IfErr result CanRefuse }
    ensures fits { IfOk result (λ key. key_fits mapping.now class key ≡ true) }
{
    if !is_whole_key(mapping, class, key) {
        return Err(wrong_kind());
    }
    match parts_fault(
        mapping,
        class,
        mapping.key_attributes(class),
        key.as_slice(),
    ) {
        Some(fault) => Err(fault),
        None => Ok(key.copied()?),
    }
}

/// Whether a key has a value for each key column, none of them NULL.
fn is_whole_key(mapping: &Mapping, class: ClassId, key: &Key) -> bool
    requires class { IsClass mapping.now class }
    ensures { result ≡ spec.is_whole_key mapping.now class key.now }
{
    key.len() == mapping.key_attributes(class).len() && !has_null(key.as_slice())
}

/// The fault of the first value of a key that is of another kind than its column.
fn parts_fault(
    mapping: &Mapping,
    class: ClassId,
    attributes: &[AttrNo],
    values: &[Value],
) -> Option<Refusal>
    requires class { IsClass mapping.now class }
    requires attributes { All (IsAttribute mapping.now class) attributes.now }
    ensures fault { result ≡ spec.parts_fault mapping.now class attributes.now values.now }
    ensures cause { IfSome result CanRefuse }
{
    let Some((attr, attributes)) = attributes.split_first() else {
        return None;
    };
    let Some((value, values)) = values.split_first() else {
        return None;
    };
    match value_fault(mapping, class, *attr, value) {
        Some(fault) => Some(fault),
        None => parts_fault(mapping, class, attributes, values),
    }
}
