//! What is done over a keeper in memory by those that do not own it.

ghost use Rattle.std.specs.Prelude.{◌≡◌, ⊤, None, OnErr, IfOk};
ghost use Rattle.keeper_mem.specs.Kept.{moment_of};

use crate::keeper::MemKeeper;
use keeper_core::Keeper;
use std::alloc::{AllocError, Global};

/// What is done over a keeper that was given no target, whichever it is.
pub trait OverKeepers {
    /// What is so once it was done.
    ghost is_done: { Self → Type 0 } = { λ _. ⊤ };

    /// Does it.
    fn run<K: Keeper>(&mut self, keeper: &mut K)
        requires { (K.moment keeper.old).target ≡ None }
        ensures { is_done self.new };
}

/// What is done over a keeper in memory that was given no target.
pub trait OverMemory {
    /// What is so once it was done.
    ghost is_done: { Self → Type 0 } = { λ _. ⊤ };

    /// Does it.
    fn run(&mut self, keeper: &mut MemKeeper)
        requires { (moment_of keeper.old).target ≡ None }
        ensures { is_done self.new };
}

/// Does it over a new keeper in memory that fails the calls of these numbers. Who does it does not own the keeper, and knows nothing of
/// it but that it is one, so the drops of what it holds are proved here alone.
///
/// Where memory runs out nothing is done.
pub fn over_memory<P: OverKeepers>(
    alloc: Global,
    failing: &[u64],
    program: &mut P,
) -> Result<(), AllocError>
    ensures done { IfOk result (λ _. P.is_done program.new) }
    ensures refused { OnErr result (program.new ≡ program.old) }
{
    let mut keeper = Box::new(alloc, MemKeeper::new(alloc, failing)?)?;
    program.run(&mut *keeper);
    Ok(())
}

/// Does it over a new keeper in memory that fails the calls of these numbers, of which all is shown.
///
/// Where memory runs out nothing is done.
pub fn over_new<P: OverMemory>(
    alloc: Global,
    failing: &[u64],
    program: &mut P,
) -> Result<(), AllocError>
    ensures done { IfOk result (λ _. P.is_done program.new) }
    ensures refused { OnErr result (program.new ≡ program.old) }
{
    let mut keeper = Box::new(alloc, MemKeeper::new(alloc, failing)?)?;
    program.run(&mut *keeper);
    Ok(())
}
