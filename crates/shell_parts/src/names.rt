//! The names that a script binds.

ghost use Rattle.std.specs.Prelude.{◌≡◌, [], OnErr, OnOk};
ghost use Rattle.std.specs.Option.{option_copied};
ghost use Rattle.shell_parts.specs.Bindings.{bind, bound_to};

use base_core::{ClassId, ListOf, Name, ObjId};
use indexmap::IndexMap;
use std::alloc::{AllocError, Global};
use std::marker::Model;

/// What a name of the script stands for.
#[derive(Drop)]
pub enum Bound {
    /// `null`.
    Nothing,
    Object(ObjId, ClassId),
    Objects(ListOf<(ObjId, ClassId)>),
    /// A savepoint's handle, by its number.
    Saved(u32),
}

/// The names that are bound, in the order in which they were bound first, each with what it was bound to last.
pub struct Names {
    alloc: Global,
    bound: IndexMap<String, Bound>,
}

impl Drop for Names {
    fn drop(self) {
        let Names { alloc: _, bound: _ } = self;
    }
}

impl Model for Names {
    ghost use Rattle.std.specs.Prelude.{List, ℕ, map};
    ghost use Rattle.shell_parts.specs.declared.names.Bound.{Bound};
    ghost use Rattle.shell_parts.specs.Bindings.{by_bytes};

    ghost Value = { List (List ℕ × Bound) };

    ghost view = { λ n. map by_bytes n.bound.entries };
}

impl Names {
    /// No name is bound.
    pub fn new(alloc: Global) -> Names
        ensures { result ≡ [] }
    {
        Names {
            alloc,
            bound: IndexMap::new(alloc),
        }
    }

    #[tactic(auto, using(crate::proofs::BindingLemmas::entry_bound))]
    /// Binds a name in place of an earlier binding. Where memory runs out it leaves the names as they were.
    pub fn bind(&mut self, name: &Name, bound: Bound) -> Result<(), AllocError>
        ensures ok { OnOk result (self.new ≡ bind self.old name.now bound) }
        ensures err { OnErr result (self.new ≡ self.old) }
    {
        let name = String::from_str(self.alloc, name.get())?;
        self.bound.insert(name, bound)?;
        Ok(())
    }

    /// What a name is bound to.
    pub fn get(&self, name: &Name) -> Option<&Bound>
        ensures { option_copied result ≡ bound_to self.now name.now }
    {
        self.bound.get(name.get())
    }
}
