//! The keeper in memory, with the one over a file that takes its place.

ghost use Rattle.std.specs.Prelude.{◌≡◌, ◌<◌, ◌≤◌, None, IfOk, IfSome};
ghost use Rattle.base_core.specs.declared.refusal.Refusal.TheVariants as refusals;
ghost use Rattle.keeper_core.specs.Programs.{as_refusal};
ghost use Rattle.keeper_core.specs.Calls.{stop_refusal};
ghost use Rattle.keeper_core.specs.Keeping.{IsAttached, IsToldFrom};
ghost use Rattle.keeper_shelf.specs.Shelved.{IsOverFile, moment_of, new_shelf, opening};

use keeper_core::{Keeper, KeeperStop, Target};
use keeper_mem::MemKeeper;
use keeper_sqlite::SqliteKeeper;
use sqlite_database::Database;
use std::alloc::{AllocError, Global};
use std::marker::Model;

/// A keeper of tables in memory, and over a file once it is given one. It fails no call of its own, and tells its tables unless it
/// took a file.
pub struct Shelf<D: Database> {
    rt: HostRuntime,
    pub(crate) memory: MemKeeper,
    /// The keeper over the file that it took.
    pub(crate) file: Option<SqliteKeeper<D>>,
}

impl<D: Database + Drop> Drop for Shelf<D> {
    fn drop(self) {
        let Shelf {
            rt: _,
            memory: _,
            file: _,
        } = self;
    }
}

impl<D: Database> Model for Shelf<D> {
    ghost use Rattle.keeper_shelf.specs.Shelved.{IsMade, Shelved};
    ghost use Rattle.expr_types.specs.contracts.expr.Expr as e;
    ghost use Rattle.std.specs.Coded.{codes};

    ghost Value = { Shelved };

    ghost coded = { Prim.hlevel (codes, e.the_row.coded) };

    ghost view = { λ s. record { memory = s.memory; file = s.file } };

    ghost invariant = { λ s. IsMade s.memory };
}

/// A keeper over the file that a target names, where it names one that can be taken.
fn over_file<D: Database + Drop>(
    rt: HostRuntime,
    alloc: Global,
    target: &Target,
) -> Option<SqliteKeeper<D>>
    ensures { IfSome result (IsOverFile target.now) }
{
    let Target::File(name) = target else {
        return None;
    };
    let Ok(name) = name.clone() else {
        return None;
    };
    let mut keeper = SqliteKeeper::new(rt, alloc);
    match keeper.attach(alloc, Target::File(name)) {
        Ok(()) => Some(keeper),
        Err(_) => None,
    }
}

impl<D: Database + Drop> Shelf<D> {
    /// A keeper that was given no target. The only refusal is that memory ran out.
    pub fn new(rt: HostRuntime, alloc: Global) -> Result<Shelf<D>, AllocError>
        ensures { IfOk result (λ shelf. shelf ≡ new_shelf) }
    {
        let memory = MemKeeper::new(alloc, &[])?;
        Ok(Shelf {
            rt,
            memory,
            file: None,
        })
    }

    /// Takes the first target. A file that cannot be taken is a fault of the keeper in memory, which takes none.
    #[tactic(auto, using(crate::proofs::Shelving::placing))]
    pub(crate) fn place(&mut self, alloc: Global, target: Target) -> Result<(), KeeperStop>
        requires memory { self.old.file ≡ None }
        requires fresh { (moment_of self.old).target ≡ None }
        ensures call { IsAttached (moment_of self.old) target
            (as_refusal stop_refusal result) (moment_of self.new) }
        ensures opened { IfOk result
            (λ u. IsToldFrom (opening self.old target) (moment_of self.new).told) }
    {
        if let Some(keeper) = over_file(self.rt, alloc, &target) {
            self.file = Some(keeper);
            return Ok(());
        }
        self.memory.attach(alloc, target)
    }
}
