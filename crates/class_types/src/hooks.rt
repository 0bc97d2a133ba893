//! Validators by their names.

ghost use Rattle.std.specs.Prelude.{◌≡◌, length, vec_len};

use crate::check::place_of;
use crate::validator::Validator;
use base_core::{Kind, ListOf, Name};
use std::alloc::{AllocError, Global};

/// Validators, each under its name.
pub struct Hooks {
    pub(crate) names: ListOf<Name>,
    /// In the places of their names.
    pub(crate) validators: Vec<Validator>,
    ghost paired: { vec_len validators ≡ length names },
}

impl Drop for Hooks {
    fn drop(self) {
        let Hooks {
            names: _,
            validators: _,
        } = self;
    }
}

impl Hooks {
    ghost use Rattle.std.specs.Prelude.{[], OnErr, OnOk};
    ghost use Rattle.class_types.specs.Rules.{validation_of, kind_of, with_rule};
    ghost use Rattle.class_types.specs.Shown.{rules_of};

    /// No validators.
    pub fn new(alloc: Global) -> Hooks
        ensures { rules_of result ≡ record { names = []; asks = [] } }
    {
        Hooks {
            names: ListOf::new(alloc),
            validators: Vec::new(alloc),
        }
    }

    /// Adds a validator under a name; it takes the place of an earlier one of this name. Where memory runs out it leaves the
    /// validators as they were.
    pub fn put(&mut self, name: Name, validator: Validator) -> Result<(), AllocError>
        ensures ok { OnOk result
            (rules_of self.new
            ≡ with_rule (rules_of self.old) name (validation_of validator.kind validator.rule)) }
        ensures err { OnErr result (rules_of self.new ≡ rules_of self.old) }
    {
        match place_of(self.names.as_slice(), &name) {
            Some(place) => {
                self.validators[place] = validator;
                Ok(())
            }
            None => {
                self.validators.reserve(1)?;
                self.names.push(name)?;
                self.validators.push_reserved(validator);
                Ok(())
            }
        }
    }

    /// The kind of the validator of a name, if there is one.
    pub fn kind_of(&self, name: &Name) -> Option<Kind>
        ensures { result ≡ kind_of (rules_of self.now) name.now }
    {
        match place_of(self.names.as_slice(), name) {
            Some(place) => Some(self.validators[place].kind),
            None => None,
        }
    }
}
