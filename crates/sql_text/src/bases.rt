//! How often each base name was used.

ghost use Rattle.std.specs.Prelude.{◌≡◌, ◌+◌, ◌++◌, ◌∷◌, [], IfOk, OnOk, OnErr, string_bytes};
ghost use Rattle.sql_text.specs.Written.{uses_of};

use base_core::Name;
use std::alloc::{AllocError, Global};
use std::collections::BTreeMap;
use std::marker::Model;

/// The base names of the marks so far.
#[derive(Drop)]
pub struct Bases {
    bases: Vec<Name>,
    uses: BTreeMap<String, u64>,
}

impl Model for Bases {
    ghost use Rattle.std.specs.Prelude.{◌≡◌, ℕ, List, unwrap_or};
    ghost use Rattle.std.specs.BTreeMap.{get_by_text};
    ghost use Rattle.sql_text.specs.Written.{uses_of};

    ghost Value = { List (List ℕ) };

    ghost view = { λ b. b.bases.items };

    ghost invariant = { λ b. (base : List ℕ) → unwrap_or (get_by_text b.uses base) 0 ≡ uses_of b.bases.items base };
}

impl Bases {
    /// No name was used.
    pub fn new(alloc: Global) -> Bases
        ensures { result ≡ [] }
    {
        Bases {
            bases: Vec::new(alloc),
            uses: BTreeMap::new(alloc),
        }
    }

    /// How often a base name was used.
    fn uses_of(&self, base: &str) -> u64
        ensures { result ≡ uses_of self.now base.now }
    {
        let _ = &self.bases;
        self.uses.get(base).copied().unwrap_or(0)
    }

    /// The number of the next mark under a base name. A number past 64 bits, which no memory holds, is answered as
    /// memory that ran out.
    pub fn next(&self, base: &str) -> Result<u64, AllocError>
        ensures { IfOk result (λ number. number ≡ uses_of self.now base.now + 1) }
    {
        match self.uses_of(base).checked_add(1) {
            Some(number) => Ok(number),
            None => Err(AllocError),
        }
    }

    /// A base name was used once more, and had this number. Where it is refused, all is
    /// as it was.
    pub fn push(&mut self, base: String, number: u64) -> Result<(), AllocError>
        requires { number ≡ uses_of self.old (string_bytes base) + 1 }
        ensures ok { OnOk result (self.new ≡ self.old ++ string_bytes base ∷ []) }
        ensures kept { OnErr result (self.new ≡ self.old) }
    {
        let key = base.clone()?;
        self.bases.reserve(1)?;
        self.uses.insert(key, number)?;
        self.bases.push_reserved(Name::new(base));
        Ok(())
    }

    /// The same names in memory of their own.
    pub fn copied(&self, alloc: Global) -> Result<Bases, AllocError>
        ensures { IfOk result (λ copy. copy ≡ self.now) }
    {
        let mut copy = Bases::new(alloc);
        for base in &self.bases {
            let number = copy.next(base.get())?;
            copy.push(String::from_str(alloc, base.get())?, number)?;
        }
        Ok(copy)
    }
}
