//! A closure beside the rule that it answers.

ghost use Rattle.std.specs.Prelude.{◌≡◌, Bool, Some};
ghost use Rattle.schema_core.specs.Tables.{kind_of_value};
ghost use Rattle.class_types.specs.Rules.{obeys};

use crate::Rule;
use base_core::{Kind, Value};

pub type Test = Box<dyn Fn(&Value) -> bool>;

/// The kind of the values that a validator takes, its rule, and a closure that answers the rule on each value of the kind.
pub struct Validator {
    pub(crate) kind: Kind,
    pub(crate) rule: Rule,
    test: Test,
    ghost callable: { Test.IsAlwaysCallable test },
    ghost answers: { (value : _) (answer : Bool) → Test.post test value answer → kind_of_value value.now ≡ Some kind → answer ≡ obeys rule value.now },
}

impl Drop for Validator {
    fn drop(self) {
        let Validator {
            kind: _,
            rule: _,
            test: _,
        } = self;
    }
}

impl Validator {
    /// A validator that asks the closure. On each value of the kind the closure answers the rule.
    pub fn new(kind: Kind, rule: Rule, test: Test) -> Validator
        requires callable { Test.IsAlwaysCallable test }
        requires answers { (value : _) (answer : Bool) → Test.post test value answer
            → kind_of_value value.now ≡ Some kind → answer ≡ obeys rule value.now }
        ensures kind { result.kind ≡ kind }
        ensures rule { result.rule ≡ rule }
    {
        Validator { kind, rule, test }
    }

    /// What the closure answers: whether the value is as the rule asks.
    pub fn check(&self, value: &Value) -> bool
        requires { kind_of_value value.now ≡ Some self.now.kind }
        ensures { result ≡ obeys self.now.rule value.now }
    {
        (self.test)(value)
    }
}
