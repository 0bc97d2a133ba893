//! The shipped validators, and who is lent them.

ghost use Rattle.std.specs.Prelude.{◌≡◌, ⊤, None, OnErr, IfOk};
ghost use Rattle.class_types.specs.Shown.{rules_of};
ghost use Rattle.shipped_validators.specs.Shipped.{shipped_rules};

use base_core::{Kind, Name, Value};
use class_types::{Hooks, Rule, Validator, has_at, is_nonempty, is_positive, is_short};
use keeper_core::Keeper;
use std::alloc::{AllocError, Global};

/// What is done with validators over a keeper that was given no target.
pub trait WithValidators {
    /// What is so once it was done.
    ghost is_done: { Self → Type 0 } = { λ _. ⊤ };

    /// Does it with the shipped ones.
    fn run<K: Keeper>(&mut self, keeper: &mut K, hooks: &Hooks)
        requires fresh { (K.moment keeper.old).target ≡ None }
        requires shipped { rules_of hooks.now ≡ shipped_rules }
        ensures { is_done self.new };
}

/// The name of a validator.
fn hook_name(alloc: Global, name: &str) -> Result<Name, AllocError>
    ensures { IfOk result (λ made. made ≡ name.now) }
{
    Ok(Name::new(String::from_str(alloc, name)?))
}

/// Does it over a keeper with the validators `positive` (an integer that is at least 1), `nonempty` (a text of at least one character),
/// `short` (a text of at most 40 characters) and `has_at` (a text with an `@`).
///
/// Where memory runs out nothing is done.
pub fn with_shipped<K: Keeper, P: WithValidators>(
    alloc: Global,
    keeper: &mut K,
    program: &mut P,
) -> Result<(), AllocError>
    requires { (K.moment keeper.old).target ≡ None }
    ensures done { IfOk result (λ _. P.is_done program.new) }
    ensures refused { OnErr result (program.new ≡ program.old) }
{
    let mut hooks = Hooks::new(alloc);
    let positive = Box::new(alloc, |value: &Value| is_positive(value))?;
    let positive = Validator::new(Kind::Integer, Rule::AtLeast(1), positive);
    hooks.put(hook_name(alloc, "positive")?, positive)?;
    let nonempty = Box::new(alloc, |value: &Value| is_nonempty(value))?;
    let nonempty = Validator::new(Kind::Text, Rule::MinLength(1), nonempty);
    hooks.put(hook_name(alloc, "nonempty")?, nonempty)?;
    let short = Box::new(alloc, |value: &Value| is_short(value))?;
    let short = Validator::new(Kind::Text, Rule::MaxLength(40), short);
    hooks.put(hook_name(alloc, "short")?, short)?;
    let at = Box::new(alloc, |value: &Value| has_at(value))?;
    let at = Validator::new(Kind::Text, Rule::HasByte(b'@'), at);
    hooks.put(hook_name(alloc, "has_at")?, at)?;
    program.run(keeper, &hooks);
    Ok(())
}
